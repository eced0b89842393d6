//! The lines of a report.

ghost use Rattle.std.specs.Prelude.{◌≡◌, ◌++◌, IfOk, OnOk, string_bytes};
ghost use Rattle.std.specs.List.{flat_map};
ghost use Rattle.loader80_text.specs.ReportText.{counts_text, ends_text, report_text, row_line, stack_lines};

use loader80::{ProcRow, Vouched};
use std::alloc::{AllocError, Global};
use text80::word_digits;

/// The report on an image that was vouched for: `ACCEPTED`, a line for the bytes of stack that it needs and has, as `STACK 6 OF 6`,
/// and a line for each procedure, by entry, as `PROC 3040 TAKES 1 WANTS 1 BOUND 0 RETURNS`.
///
/// # Errors
/// `AllocError` only if memory runs out.
pub fn report_text(alloc: Global, vouched: &Vouched) -> Result<Vec<u8>, AllocError>
    ensures { IfOk result (λ text.
        text.items ≡ report_text vouched.now.stack_bytes vouched.now.image.regions.stack.length vouched.now.rows) }
{
    let need = vouched.stack_bytes();
    let has = vouched.image().regions.stack().length;
    let mut text = Vec::new(alloc);
    append_stack(alloc, &mut text, need, has)?;
    append_rows(alloc, &mut text, vouched.rows())?;
    Ok(text)
}

/// Appends `ACCEPTED` and the line of the bytes of stack that the image needs and has, as `STACK 6 OF 6`.
fn append_stack(alloc: Global, text: &mut Vec<u8>, need: u64, has: u16) -> Result<(), AllocError>
    ensures { OnOk result (text.new.items ≡ text.old.items ++ stack_lines need has) }
{
    let lines = format!(in alloc; "ACCEPTED\nSTACK {need} OF {has}\n")?;
    text.extend_from_slice(lines.as_bytes())?;
    Ok(())
}

/// Appends a line for each procedure, in order, as `PROC 3040 TAKES 1 WANTS 1 BOUND 0 RETURNS`.
///
/// # Errors
/// `AllocError` only if memory runs out; the text may then have some of the lines.
pub fn append_rows(alloc: Global, text: &mut Vec<u8>, rows: &[ProcRow]) -> Result<(), AllocError>
    ensures { OnOk result (text.new.items ≡ text.old.items ++ flat_map row_line rows.now) }
{
    for row in rows {
        append_row(alloc, text, *row)?;
    }
    Ok(())
}

/// Appends the line of a procedure, as `PROC 3040 TAKES 1 WANTS 1 BOUND 0 RETURNS`.
fn append_row(alloc: Global, text: &mut Vec<u8>, row: ProcRow) -> Result<(), AllocError>
    ensures { OnOk result (text.new.items ≡ text.old.items ++ row_line row) }
{
    text.extend_from_slice(b"PROC ".as_slice())?;
    text.extend_from_slice(&word_digits(row.entry))?;
    append_counts(alloc, text, row)?;
    text.extend_from_slice(ends_of(row.returns))?;
    Ok(())
}

/// Appends the counts of a procedure, as ` TAKES 1 WANTS 1 BOUND 0`.
fn append_counts(alloc: Global, text: &mut Vec<u8>, row: ProcRow) -> Result<(), AllocError>
    ensures { OnOk result (text.new.items ≡ text.old.items ++ counts_text row) }
{
    let (takes, wants, bound) = (row.takes, row.wants, row.bound);
    let counts = format!(in alloc; " TAKES {takes} WANTS {wants} BOUND {bound}")?;
    text.extend_from_slice(counts.as_bytes())?;
    Ok(())
}

/// The end of a procedure's line: ` RETURNS` or ` NEVER`, and the line feed.
fn ends_of(returns: bool) -> &'static [u8]
    ensures { result.now ≡ ends_text returns }
{
    if returns {
        b" RETURNS\n".as_slice()
    } else {
        b" NEVER\n".as_slice()
    }
}
