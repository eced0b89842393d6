//! The bytes of a module's code, read from its contents.

ghost use Rattle.omf_body.specs.declared.field.Field.TheVariants as field;
ghost use Rattle.omf_model.specs.Patches.{word_in_bytes};
ghost use Rattle.std.specs.Prelude.{◌==◌, ◌||◌, ◌≡◌, ℕ, ◌<◌, ◌≤◌, ◌+◌, ◌-◌, ◌&&◌, if◌then◌else◌, Option, Some, None, List, length, slice_index_or, filter_map, IsTrue, IfOk, OnOk};
ghost use Rattle.std.specs.List.{range_with_len};
ghost use Rattle.rom80_pattern.specs.declared.code_byte.CodeByte.{CodeByte};
ghost use Rattle.omf_model.specs.Rules.{IsModule, has_target};
ghost use Rattle.omf_model.specs.SoundModules.{HasItsFixups, LiesIn};
ghost use Rattle.rom80_pattern.specs.Modules.{code_bytes, code_length, covers, has_byte, fixup_byte, byte_in, plain_byte, field_byte, IsWithin, IsTable};

use crate::code_byte::{CodeByte, Half};
use crate::resolving::{Resolved, ResolvedModule};
use crate::table::table;
use omf_core::segment_id::CODE;
use omf_model::relocation_laws::sound_modules_keep_rules;
use omf_model::{Content, Field, Fixup, Module, Target};
use std::alloc::{AllocError, Global};

/// Returns the bytes that a module's contents define in CODE, in ascending order of their offsets. If two contents cover an offset, the
/// byte is the later one's.
///
/// # Errors
/// `AllocError` only if memory ran out.
pub fn code_bytes(alloc: Global, source: &Module) -> Result<Vec<CodeByte>, AllocError>
    ensures bytes { IfOk result (λ bytes. bytes.items ≡ code_bytes source.now) }
    ensures short { OnOk result (code_length source.now ≤ 65535) }
    ensures rules { OnOk result (IsModule source.now) }
{
    let resolved = ResolvedModule::of(alloc, source)?;
    let table = code_table(alloc, &resolved)?;
    defined_bytes(alloc, &table)
}

/// Returns for each offset in CODE the byte that the module's contents define there; `None` if none of them covers it.
fn code_table(alloc: Global, source: &ResolvedModule) -> Result<Vec<Option<CodeByte>>, AllocError>
    ensures table { IfOk result (λ table. IsTable source.now table.items) }
    ensures short { OnOk result (code_length source.now ≤ 65535) }
    ensures rules { OnOk result (IsModule source.now) }
{
    sound_modules_keep_rules();
    let module = source.source();
    let mut table = table(alloc, None, usize::from(code_length(module)))?;
    for content in module.contents() {
        if content.segment == CODE {
            write_content(&mut table, source, content);
        }
    }
    Ok(table)
}

/// Returns the length of a module's CODE; 0 without such a segment.
pub fn code_length(source: &Module) -> u16
    ensures { result ≡ code_length source.now }
{
    match source.segment(CODE) {
        Some(code) => code.length,
        None => 0,
    }
}

/// Returns the bytes of a table of offsets, without those offsets that have none.
fn defined_bytes(alloc: Global, table: &[Option<CodeByte>]) -> Result<Vec<CodeByte>, AllocError>
    ensures { IfOk result (λ bytes. bytes.items ≡ filter_map (λ b. b) table.now) }
{
    table.iter().filter_map(|byte| *byte).collect(alloc)
}

/// Writes the bytes of a content to a table, each at its offset in CODE.
fn write_content(table: &mut [Option<CodeByte>], source: &ResolvedModule, content: &Content)
    requires short { length table.old ≤ 65535 }
    requires fits { content.now.offset + length content.now.bytes ≤ length table.old }
    requires fixups { HasItsFixups source.now content.now }
    ensures whole { length table.new ≡ length table.old }
    ensures each { (o : ℕ) → o < length table.old → slice_index_or table.new o None ≡
        (if covers o content.now then Some (byte_in source.now o content.now) else slice_index_or table.old o None) }
{
    write_plain_bytes(table, content);
    write_fixups(table, source, content, &content.fixups);
}

/// Writes the bytes of a content's fixups over its other bytes in a table, the first fixup's last.
fn write_fixups(
    table: &mut [Option<CodeByte>],
    source: &ResolvedModule,
    content: &Content,
    fixups: &[Fixup],
)
    requires short { length table.old ≤ 65535 }
    requires fits { content.now.offset + length content.now.bytes ≤ length table.old }
    requires same { fixups.now ≡ content.now.fixups }
    requires fixups { HasItsFixups source.now content.now }
    ensures whole { length table.new ≡ length table.old }
    ensures each { (first : Option CodeByte) (o : ℕ) → o < length table.old →
        slice_index_or table.old o None ≡ (if covers o content.now then Some (plain_byte content.now (o - content.now.offset)) else first) →
        slice_index_or table.new o None ≡ (if covers o content.now then Some (byte_in source.now o content.now) else first) }
{
    for done in 0..fixups.len() {
        write_fixup(table, source, content, fixups[fixups.len() - 1 - done]);
    }
}

/// Writes the bytes of a content to a table, each at its offset in CODE, as if the content had no fixups.
fn write_plain_bytes(table: &mut [Option<CodeByte>], content: &Content)
    requires short { length table.old ≤ 65535 }
    requires fits { content.now.offset + length content.now.bytes ≤ length table.old }
    ensures whole { length table.new ≡ length table.old }
    ensures each { (o : ℕ) → o < length table.old → slice_index_or table.new o None ≡
        (if covers o content.now then Some (plain_byte content.now (o - content.now.offset)) else slice_index_or table.old o None) }
{
    let first = usize::from(content.offset);
    for index in 0..content.bytes.len() {
        table[first + index] = Some(CodeByte {
            offset: (first + index) as u16,
            half: Half::Low,
            target: Target::Segment(0),
            addend: u16::from(content.bytes[index]),
        });
    }
}

/// Writes the byte or the two bytes of a fixup to a table, each at its offset in CODE.
fn write_fixup(
    table: &mut [Option<CodeByte>],
    source: &ResolvedModule,
    content: &Content,
    fixup: Fixup,
)
    requires short { length table.old ≤ 65535 }
    requires fits { content.now.offset + length content.now.bytes ≤ length table.old }
    requires within { IsWithin content.now fixup }
    requires target { IsTrue (has_target source.now.commons (length source.now.externals) fixup.target) }
    ensures whole { length table.new ≡ length table.old }
    ensures each { (o : ℕ) → o < length table.old → slice_index_or table.new o None ≡
        (if covers o content.now && has_byte content.now (o - content.now.offset) fixup
        then Some (fixup_byte source.now content.now (o - content.now.offset) fixup) else slice_index_or table.old o None) }
{
    let resolved = source.resolve(fixup.target);
    match fixup.field {
        Field::Low => write_low_byte(table, content, fixup.offset, resolved),
        Field::High => write_high_byte(table, content, fixup.offset, resolved),
        Field::Both => write_word(table, content, fixup.offset, resolved),
    }
}

/// Writes the byte of a fixup of a low byte to a table, at its offset in CODE.
fn write_low_byte(
    table: &mut [Option<CodeByte>],
    content: &Content,
    offset: u16,
    resolved: Resolved,
)
    requires fits { content.now.offset + length content.now.bytes ≤ length table.old }
    requires begin { content.now.offset ≤ offset }
    requires within { offset < content.now.offset + length content.now.bytes }
    ensures whole { length table.new ≡ length table.old }
    ensures each { (o : ℕ) → o < length table.old → slice_index_or table.new o None ≡
        (if o == offset then Some (field_byte field.Low resolved content.now (offset - content.now.offset) (o - content.now.offset)) else slice_index_or table.old o None) }
{
    let byte = content.bytes[usize::from(offset - content.offset)];
    table[usize::from(offset)] = Some(CodeByte {
        offset,
        half: Half::Low,
        target: resolved.target,
        addend: resolved.addend.wrapping_add(u16::from(byte)),
    });
}

/// Writes the byte of a fixup of a high byte to a table, at its offset in CODE. The content's byte is 256 times an addend.
fn write_high_byte(
    table: &mut [Option<CodeByte>],
    content: &Content,
    offset: u16,
    resolved: Resolved,
)
    requires fits { content.now.offset + length content.now.bytes ≤ length table.old }
    requires begin { content.now.offset ≤ offset }
    requires within { offset < content.now.offset + length content.now.bytes }
    ensures whole { length table.new ≡ length table.old }
    ensures each { (o : ℕ) → o < length table.old → slice_index_or table.new o None ≡
        (if o == offset then Some (field_byte field.High resolved content.now (offset - content.now.offset) (o - content.now.offset)) else slice_index_or table.old o None) }
{
    let byte = content.bytes[usize::from(offset - content.offset)];
    table[usize::from(offset)] = Some(CodeByte {
        offset,
        half: Half::High,
        target: resolved.target,
        addend: resolved.addend.wrapping_add(u16::from(byte) * 256),
    });
}

/// Writes the two bytes of a fixup of a word to a table, at their offsets in CODE.
fn write_word(table: &mut [Option<CodeByte>], content: &Content, offset: u16, resolved: Resolved)
    requires short { length table.old ≤ 65535 }
    requires fits { content.now.offset + length content.now.bytes ≤ length table.old }
    requires begin { content.now.offset ≤ offset }
    requires within { offset + 1 < content.now.offset + length content.now.bytes }
    ensures whole { length table.new ≡ length table.old }
    ensures each { (o : ℕ) → o < length table.old → slice_index_or table.new o None ≡
        (if o == offset || o == offset + 1 then Some (field_byte field.Both resolved content.now (offset - content.now.offset) (o - content.now.offset)) else slice_index_or table.old o None) }
{
    let addend = resolved.addend.wrapping_add(word_at(
        &content.bytes,
        usize::from(offset - content.offset),
    ));
    table[usize::from(offset)] = Some(CodeByte {
        offset,
        half: Half::Low,
        target: resolved.target,
        addend,
    });
    table[usize::from(offset) + 1] = Some(CodeByte {
        offset: offset + 1,
        half: Half::High,
        target: resolved.target,
        addend,
    });
}

/// Returns the word at index `at` of some bytes, low byte first.
fn word_at(bytes: &[u8], at: usize) -> u16
    requires { at + 1 < length bytes.now }
    ensures { result ≡ word_in_bytes bytes.now at }
{
    u16::from_le_bytes([bytes[at], bytes[at + 1]])
}
