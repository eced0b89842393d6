//! The laws of memory, of regions and of their text, over the definitions alone.

ghost use Rattle.std.specs.Prelude.{◌≡◌, ◌≢◌, ℕ, ◌<◌, ◌↔◌, List, [], ◌∷◌, ◌++◌, length, Contains, slice_index, true, false, if◌then◌else◌};
ghost use Rattle.image80.specs.Image.{PlacedBytes, covers, byte_of, byte_at, memory_of};
ghost use Rattle.image80.specs.Range.{in_range};
ghost use Rattle.image80.specs.Regions.{Areas, AreRegions, in_code, in_data, targets_at};
ghost use Rattle.image80.specs.RegionsText.{regions_text, text_in, Migrates, Spells, Refuses};
ghost use Rattle.image80.specs.declared.version.Version.{Version};
ghost use Rattle.image80.specs.declared.fault.RegionsFault.{RegionsFault};

/// A law: a text spells at most one set of regions; a text that is refused, unless for `Memory`, spells none and has
/// one fault; and the text that is written for regions, in the version chosen for them or in version 2, spells those
/// regions. So what is written is read as itself.
pub fn text_of_regions_is_read_as_itself()
    ensures written { (areas : Areas) → AreRegions areas → Spells (regions_text areas) areas }
    ensures written2 { (areas : Areas) → AreRegions areas → Spells (text_in Version.Two areas) areas }
    ensures one_reading { (text : List ℕ) (areas others : Areas) →
        Spells text areas → Spells text others → areas ≡ others }
    ensures not_refused { (text : List ℕ) (areas : Areas) (fault : RegionsFault) →
        Spells text areas → Refuses text fault → fault ≡ RegionsFault.Memory }
    ensures one_fault { (text : List ℕ) (fault other : RegionsFault) → Refuses text fault → Refuses text other →
        fault ≢ RegionsFault.Memory → other ≢ RegionsFault.Memory → fault ≡ other }
{}

/// A law: migrating a regions text has one result, and migrating the result gives the same text again.
pub fn migration_ends_at_once()
    ensures again { (bytes text other : List ℕ) → Migrates bytes [] text → Migrates text [] other → other ≡ text }
    ensures one_text { (bytes text other : List ℕ) → Migrates bytes [] text → Migrates bytes [] other → other ≡ text }
{}

/// A law: an address lies in at most one of code, data and stack.
pub fn code_data_and_stack_are_apart()
    ensures code_or_data { (areas : Areas) (address : ℕ) → AreRegions areas →
        in_code areas address ≡ true → in_data areas address ≡ false }
    ensures code_or_stack { (areas : Areas) (address : ℕ) → AreRegions areas →
        in_code areas address ≡ true → in_range areas.stack address ≡ false }
    ensures data_or_stack { (areas : Areas) (address : ℕ) → AreRegions areas →
        in_data areas address ≡ true → in_range areas.stack address ≡ false }
{}

/// A law: an address has declared targets exactly if the regions have a case with that address and those targets.
pub fn targets_are_those_of_the_case()
    ensures { (areas : Areas) (address : ℕ) (targets : List ℕ) → AreRegions areas →
        (targets_at areas address ≡ Some targets) ↔ Contains areas.cases (record { at = address; targets = targets }) }
{}

/// A law: an image's memory has 65536 bytes, each that of the last chunk over its address, or 0 if there is none; so
/// a later chunk hides what lies under it.
pub fn memory_has_the_byte_of_the_last_chunk()
    ensures whole { (chunks : List PlacedBytes) → length (memory_of chunks) ≡ 65536 }
    ensures at_address { (chunks : List PlacedBytes) (address : ℕ) → address < 65536 →
        slice_index (memory_of chunks) address ≡ byte_at chunks address }
    ensures none { (address : ℕ) → byte_at [] address ≡ 0 }
    ensures later_hides { (chunks : List PlacedBytes) (chunk : PlacedBytes) (address : ℕ) →
        byte_at (chunks ++ chunk ∷ []) address
        ≡ (if covers chunk address then byte_of chunk address else byte_at chunks address) }
{}
