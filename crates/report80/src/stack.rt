//! The stack of a program: what its procedures need, and the longest chain of calls.

ghost use Rattle.std.specs.Prelude.{◌≡◌, ◌≤◌, ◌++◌, OnOk, codes};
ghost use Rattle.verify80_calls.specs.ListText.{chain_text};
ghost use Rattle.report80.specs.{PageText.part_text, StackText.chart_text};

use crate::part::append_part;
use image80::Image;
use image80_text::PublicTable;
use page80::Page;
use std::alloc::{AllocError, Global};
use verify80_calls::{Link, Node, Procedure, append_node_line, chain_text, longest_chain};

/// Appends the chart of the bytes of stack that each procedure needs; those of the longest chain are marked.
pub(crate) fn append_chart(
    alloc: Global,
    page: &mut Page,
    image: &Image,
    publics: &PublicTable,
    nodes: &[Node],
) -> Result<(), AllocError>
    ensures { OnOk result (page.new
        ≡ page.old ++ part_text (codes "Stack by procedure") (chart_text image.now publics.now nodes.now)) }
{
    page.heading(b"Stack by procedure".as_slice())?;
    append_bars(alloc, page, image, publics, nodes)
}

/// Appends the chart itself.
fn append_bars(
    alloc: Global,
    page: &mut Page,
    image: &Image,
    publics: &PublicTable,
    nodes: &[Node],
) -> Result<(), AllocError>
    ensures { OnOk result (page.new ≡ page.old ++ chart_text image.now publics.now nodes.now) }
{
    let chain = longest_chain(alloc, nodes)?;
    page.begin_chart()?;
    append_rows(alloc, page, image, publics, nodes, &chain)?;
    page.end_chart()
}

/// Appends the row of each procedure.
fn append_rows(
    alloc: Global,
    page: &mut Page,
    image: &Image,
    publics: &PublicTable,
    nodes: &[Node],
    chain: &[Link],
) -> Result<(), AllocError>
    ensures { OnOk result (page.new ≡ page.old ++ chart_text image.now publics.now nodes.now) }
{
    for node in nodes {
        let mut line = Vec::new(alloc);
        append_node_line(alloc, &mut line, image, publics, node)?;
        page.bar(alloc, &line, share_of(nodes, node), is_marked(chain, node))?;
    }
    Ok(())
}

/// How much of the main program's bound a procedure's is, in thousandths.
fn share_of(nodes: &[Node], node: &Node) -> u16
    ensures { result ≤ 1000 }
{
    let whole = match nodes {
        [main, ..] => main.bound.clamp(1, 65536),
        [] => 1,
    };
    (node.bound.min(whole) * 1000 / whole).min(1000) as u16
}

/// Whether a procedure is one of a chain of calls.
fn is_marked(chain: &[Link], node: &Node) -> bool {
    match node.procedure {
        Procedure::Main => true,
        Procedure::Entry(entry) => chain.iter().any(|link| link.call.target == entry),
    }
}

/// Appends the calls of the longest chain.
pub(crate) fn append_chain(
    alloc: Global,
    page: &mut Page,
    image: &Image,
    publics: &PublicTable,
    nodes: &[Node],
) -> Result<(), AllocError>
    ensures { OnOk result (page.new
        ≡ page.old ++ part_text (codes "Longest chain") (chain_text image.now publics.now nodes.now)) }
{
    let lines = chain_text(alloc, image, publics, nodes)?;
    append_part(page, b"Longest chain".as_slice(), &lines)
}
