//! What holds of all spellings, and of what is fetched.

ghost use Rattle.std.specs.Prelude.{◌≡◌, ◌≢◌, ◌≤◌, ◌<◌, ◌↔◌, ◌⊎◌, ◌++◌, ◌∷◌, [], ℕ, List, Some, Contains, length, slice_index};
ghost use Rattle.decode80.specs.declared.instr.Instr.{Instr};
ghost use Rattle.decode80.specs.Decoded.{decoded, instructions, length_at};
ghost use Rattle.decode80.specs.Fetch.{FetchReadsCodeAlone};
ghost use Rattle.decode80.specs.Spelling.{padded, spelling, unused_bytes, BeginsWith, HasOperandInRange};

/// The laws of spellings, as this function's contract; it does nothing. There are 244 instructions of one to three
/// bytes; no spelling begins another; each first byte is one of the twelve unused ones or begins a spelling; and what
/// is encoded is decoded as itself.
pub fn spelling_laws()
    // There are 244 rows, and each instruction's spelling has one to three bytes.
    ensures rows { length instructions ≡ 244 }
    ensures sizes { (i : Instr) → (1 ≤ length (spelling i)) × (length (spelling i) ≤ 3) }

    // No spelling begins another, so bytes begin with one at most.
    ensures prefix_free { (i j : Instr) (rest : List ℕ) → spelling j ≡ spelling i ++ rest → i ≡ j }
    ensures one { (bytes : List ℕ) (i j : Instr) → BeginsWith bytes i → BeginsWith bytes j → i ≡ j }

    // Each first byte is one of the twelve or begins a spelling, and not both.
    ensures first_bytes { (first : ℕ) → first < 256 →
        Contains unused_bytes first ⊎ ((i : Instr) × (slice_index (spelling i) 0 ≡ first)) }
    ensures unused { (first : ℕ) → first < 256 → Contains unused_bytes first →
        (i : Instr) → slice_index (spelling i) 0 ≢ first }

    // What is written is read again.
    ensures round_trip { (i : Instr) → let bytes = padded (spelling i) in
        decoded (slice_index bytes 0) (slice_index bytes 1) (slice_index bytes 2) ≡ Some (i, length (spelling i)) }

    // What three bytes decode to is the instruction whose spelling begins them, whatever holds the bytes.
    ensures decodes { (first second third : ℕ) → second < 256 → (i : Instr) (n : ℕ) →
        (decoded first second third ≡ Some (i, n))
        ↔ (BeginsWith (first ∷ second ∷ third ∷ []) i × (n ≡ length (spelling i))) }
    ensures decoded_length { (first second third : ℕ) → second < 256 → (i : Instr) (n : ℕ) →
        decoded first second third ≡ Some (i, n) → length_at first ≡ Some n }
    ensures decoded_in_range { (first second third : ℕ) → second < 256 → third < 256 → (i : Instr) (n : ℕ) →
        decoded first second third ≡ Some (i, n) → HasOperandInRange i }
{}

/// A law, as this function's contract; it does nothing. What is fetched depends on the bytes of code alone: a store
/// outside code changes no instruction.
#[inline]
pub fn fetch_reads_code_alone()
    ensures { FetchReadsCodeAlone }
{}
