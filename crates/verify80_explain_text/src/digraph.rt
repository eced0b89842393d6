//! Where walks stand, as a graph for Graphviz.

ghost use Rattle.std.specs.Prelude.{◌≡◌, ◌++◌, IfOk, None, OnOk, codes};
ghost use Rattle.std.specs.List.{flat_map};
ghost use Rattle.verify80.specs.Looking.{code_of};
ghost use Rattle.verify80_explain_text.specs.Reaching.{lines_by};
ghost use Rattle.verify80_explain_text.specs.ReachGraph.{box_line, box_of, box_label, box_unless, call_edge, edge_label, edge_lines, graph_head, graph_text, refused_edge, refused_end};

use crate::calls::append_address;
use crate::reach::{append_refusal, called_at};
use image80::Image;
use image80_text::PublicTable;
use std::alloc::{AllocError, Global};
use verify80::ImageCode;
use verify80_calls::{append_escaped_name, append_id};
use verify80_explain::{ReachedPoint, Standing};
use verify80_flow::{Procedure, Refusal};

/// The procedures at whose addresses walks stand as a graph for Graphviz that says how many refusals there are: a box for each, as a
/// graph of a program that is accepted has it, without a bound; an edge for each call; and a red one to each refusal that is reached in
/// the procedure.
///
/// # Errors
/// `AllocError` only if memory runs out.
pub fn reach_graph(
    alloc: Global,
    image: &Image,
    publics: &PublicTable,
    refusals: usize,
    points: &[ReachedPoint],
) -> Result<Vec<u8>, AllocError>
    ensures { IfOk result (λ text. text.items ≡ graph_text image.now publics.now refusals points.now) }
{
    let code = ImageCode::new(alloc, image)?;
    let mut text = Vec::new(alloc);
    append_head(alloc, &mut text, refusals)?;
    append_boxes(alloc, &mut text, image, publics, points)?;
    append_edges(alloc, &mut text, &code, points)?;
    text.extend_from_slice(b"}\n".as_slice())?;
    Ok(text)
}

/// Appends the lines before the boxes, with the number of refusals.
fn append_head(alloc: Global, text: &mut Vec<u8>, refusals: usize) -> Result<(), AllocError>
    ensures { OnOk result (text.new.items ≡ text.old.items ++ graph_head refusals) }
{
    let head = format!(in alloc;
        "// NOT PROVED REFUSALS {refusals}\ndigraph calls {{\n    label=\"NOT PROVED, REFUSALS {refusals}\";\n    node [shape=box];\n"
    )?;
    text.extend_from_slice(head.as_bytes())
}

/// Appends the box of the procedure of each point, unless it is that of the point before.
fn append_boxes(
    alloc: Global,
    text: &mut Vec<u8>,
    image: &Image,
    publics: &PublicTable,
    points: &[ReachedPoint],
) -> Result<(), AllocError>
    ensures { OnOk result (text.new.items ≡ text.old.items ++ lines_by (box_of image.now publics.now) None points.now) }
{
    let mut before = None;
    let mut rest = points;
    while let [point, after @ ..] = rest {
        let procedure = point.standing.procedure;
        append_box_unless(alloc, text, image, publics, before, procedure)?;
        before = Some(procedure);
        rest = after;
    }
    Ok(())
}

/// Appends the box of a procedure, unless it is the one `before`.
fn append_box_unless(
    alloc: Global,
    text: &mut Vec<u8>,
    image: &Image,
    publics: &PublicTable,
    before: Option<Procedure>,
    procedure: Procedure,
) -> Result<(), AllocError>
    ensures { OnOk result (text.new.items ≡ text.old.items ++ box_unless image.now publics.now before procedure) }
{
    if before == Some(procedure) {
        return Ok(());
    }
    append_box(alloc, text, image, publics, procedure)
}

/// Appends the box of a procedure.
fn append_box(
    alloc: Global,
    text: &mut Vec<u8>,
    image: &Image,
    publics: &PublicTable,
    procedure: Procedure,
) -> Result<(), AllocError>
    ensures { OnOk result (text.new.items ≡ text.old.items ++ box_line image.now publics.now procedure) }
{
    let (word, address) = match procedure {
        Procedure::Main => (b" [label=\"MAIN ".as_slice(), image.start),
        Procedure::Entry(entry) => (b" [label=\"".as_slice(), entry),
    };
    append_id(text, procedure)?;
    append_label_of(alloc, text, image, publics, word, address)
}

/// Appends the label of a box, which begins with this word and an address.
fn append_label_of(
    alloc: Global,
    text: &mut Vec<u8>,
    image: &Image,
    publics: &PublicTable,
    word: &[u8],
    address: u16,
) -> Result<(), AllocError>
    ensures { OnOk result (text.new.items ≡ text.old.items ++ box_label image.now publics.now word.now address) }
{
    append_address(text, word, address)?;
    append_escaped_name(alloc, text, image, publics, address)?;
    text.extend_from_slice(b"\\nBOUND ?\"];\n".as_slice())?;
    Ok(())
}

/// Appends the edges of each point. `code` must be that of the image.
fn append_edges(
    alloc: Global,
    text: &mut Vec<u8>,
    code: &ImageCode<'_>,
    points: &[ReachedPoint],
) -> Result<(), AllocError>
    ensures { OnOk result (text.new.items ≡ text.old.items ++ flat_map (edge_lines (code_of code.now)) points.now) }
{
    for point in points {
        append_edges_of(alloc, text, code, *point)?;
    }
    Ok(())
}

/// Appends the edge of the call at a point, if its instruction calls, and that to its refusal, if it is refused.
fn append_edges_of(
    alloc: Global,
    text: &mut Vec<u8>,
    code: &ImageCode<'_>,
    point: ReachedPoint,
) -> Result<(), AllocError>
    ensures { OnOk result (text.new.items ≡ text.old.items ++ edge_lines (code_of code.now) point) }
{
    append_call(
        alloc,
        text,
        point.standing,
        called_at(code, point.standing.at),
    )?;
    append_refused(alloc, text, point.standing, point.refusal)
}

/// Appends the edge of a call; nothing if there is no target.
fn append_call(
    alloc: Global,
    text: &mut Vec<u8>,
    standing: Standing,
    target: Option<u16>,
) -> Result<(), AllocError>
    ensures { OnOk result (text.new.items ≡ text.old.items ++ call_edge standing target) }
{
    let Some(target) = target else {
        return Ok(());
    };
    append_id(text, standing.procedure)?;
    append_address(text, b" -> \"".as_slice(), target)?;
    append_label(alloc, text, standing)?;
    text.extend_from_slice(b"];\n".as_slice())
}

/// Appends the edge to a refusal; nothing if there is none.
fn append_refused(
    alloc: Global,
    text: &mut Vec<u8>,
    standing: Standing,
    refusal: Option<Refusal>,
) -> Result<(), AllocError>
    ensures { OnOk result (text.new.items ≡ text.old.items ++ refused_edge standing refusal) }
{
    let Some(refusal) = refusal else {
        return Ok(());
    };
    append_id(text, standing.procedure)?;
    append_refused_end(alloc, text, standing, refusal)
}

/// Appends where the edge to a refusal ends, with its label.
fn append_refused_end(
    alloc: Global,
    text: &mut Vec<u8>,
    standing: Standing,
    refusal: Refusal,
) -> Result<(), AllocError>
    ensures { OnOk result (text.new.items ≡ text.old.items ++ refused_end standing refusal) }
{
    append_address(text, b" -> \"".as_slice(), standing.at)?;
    append_refusal(alloc, text, refusal)?;
    append_red_label(alloc, text, standing)
}

/// Appends the label of a red edge, and its end.
fn append_red_label(alloc: Global, text: &mut Vec<u8>, standing: Standing) -> Result<(), AllocError>
    ensures { OnOk result (text.new.items ≡ text.old.items ++ (edge_label standing ++ codes ", color=red];\n")) }
{
    append_label(alloc, text, standing)?;
    text.extend_from_slice(b", color=red];\n".as_slice())
}

/// Appends the end of the name at which an edge ends, and its label: where the edge begins, and how many bytes the procedure has on the
/// stack there.
fn append_label(alloc: Global, text: &mut Vec<u8>, standing: Standing) -> Result<(), AllocError>
    ensures { OnOk result (text.new.items ≡ text.old.items ++ edge_label standing) }
{
    append_address(text, b"\" [label=\"".as_slice(), standing.at)?;
    let depth = standing.depth;
    let shown = format!(in alloc; ": {depth}\"")?;
    text.extend_from_slice(shown.as_bytes())
}
