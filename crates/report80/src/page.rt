//! The pages of images.

ghost use Rattle.std.specs.Prelude.{◌≡◌, ◌++◌, IfOk, OnOk, codes};
ghost use Rattle.image80.specs.RegionsText.{regions_text};
ghost use Rattle.page80.specs.Reading.{shown_in};
ghost use Rattle.report80.specs.MemoryText.{map_text};
ghost use Rattle.report80.specs.PageText.{calls_text, image_text, others_text, part_text, program_text, refused_text, stack_text};

use crate::drawing::append_drawing;
use crate::memory::{append_map, append_sums};
use crate::names::append_names;
use crate::part::append_part;
use crate::stack::{append_chain, append_chart};
use image80::{Image, Regions, write_regions};
use image80_text::PublicTable;
use page80::Page;
use std::alloc::{AllocError, Global};
use verify80_calls::{CallGraph, list_text};

/// What is known of a program that the verifier accepts.
#[derive(Clone, Copy)]
pub struct Findings<'a> {
    /// The verifier's report, as lines.
    pub verdict: &'a [u8],
    /// The program's procedures and their calls.
    pub graph: &'a CallGraph,
    /// The names of addresses.
    pub publics: &'a PublicTable,
    /// The program's stores and jumps, as lines.
    pub stores: &'a [u8],
}

/// The page of a program that the verifier accepts.
///
/// # Errors
/// `AllocError` if memory runs out.
pub fn program_page(
    alloc: Global,
    image: &Image,
    findings: Findings<'_>,
) -> Result<Vec<u8>, AllocError>
    ensures { let known = findings.entry in IfOk result (λ html. shown_in html.items
        ≡ image_text image.now known.verdict.now ++ program_text image.now known.publics.now known.graph.now known.stores.now) }
{
    let mut page = begun_page(alloc, image, findings.verdict)?;
    append_program(alloc, &mut page, image, findings)?;
    page.into_bytes()
}

/// What is known of an image that the verifier refuses.
#[derive(Clone, Copy)]
pub struct RefusedFindings<'a> {
    /// The refusals, and on which conditions they hold, as lines.
    pub verdict: &'a [u8],
    /// The calls that are reached, as lines.
    pub calls: &'a [u8],
    /// The names of addresses.
    pub publics: &'a PublicTable,
}

/// The page of an image that the verifier refuses.
///
/// # Errors
/// `AllocError` if memory runs out.
pub fn refused_page(
    alloc: Global,
    image: &Image,
    findings: RefusedFindings<'_>,
) -> Result<Vec<u8>, AllocError>
    ensures { let known = findings.entry in IfOk result (λ html. shown_in html.items
        ≡ image_text image.now known.verdict.now ++ refused_text known.publics.now known.calls.now) }
{
    let mut page = begun_page(alloc, image, findings.verdict)?;
    append_reached(alloc, &mut page, findings.calls, findings.publics)?;
    page.into_bytes()
}

/// Appends the calls that are reached of an image that the verifier refuses, and the names.
fn append_reached(
    alloc: Global,
    page: &mut Page,
    calls: &[u8],
    publics: &PublicTable,
) -> Result<(), AllocError>
    ensures { OnOk result (page.new ≡ page.old ++ refused_text publics.now calls.now) }
{
    append_part(page, b"Calls".as_slice(), calls)?;
    append_names(alloc, page, publics)
}

/// The page with what every image has.
fn begun_page(alloc: Global, image: &Image, verdict: &[u8]) -> Result<Page, AllocError>
    ensures { IfOk result (λ page. page ≡ image_text image.now verdict.now) }
{
    let mut page = Page::new(alloc, image.name.bytes())?;
    page.headline(image.name.bytes())?;
    append_part(&mut page, b"Verdict".as_slice(), verdict)?;
    append_memory(alloc, &mut page, image)?;
    page.heading(b"Sums".as_slice())?;
    append_sums(alloc, &mut page, image)?;
    Ok(page)
}

/// Appends the regions of an image, as a picture and as lines.
fn append_memory(alloc: Global, page: &mut Page, image: &Image) -> Result<(), AllocError>
    ensures { let regions = image.now.regions in
        OnOk result (page.new ≡ page.old ++ part_text (codes "Memory") (map_text regions ++ regions_text regions)) }
{
    page.heading(b"Memory".as_slice())?;
    append_map(alloc, page, &image.regions)?;
    append_regions(alloc, page, &image.regions)
}

/// Appends the text of regions.
fn append_regions(alloc: Global, page: &mut Page, regions: &Regions) -> Result<(), AllocError>
    ensures { OnOk result (page.new ≡ page.old ++ regions_text regions.now) }
{
    let mut lines = Vec::new(alloc);
    write_regions(alloc, regions, &mut lines)?;
    page.table(&lines)
}

/// Appends what is known of a program.
fn append_program(
    alloc: Global,
    page: &mut Page,
    image: &Image,
    findings: Findings<'_>,
) -> Result<(), AllocError>
    ensures { let known = findings.entry in OnOk result (page.new
        ≡ page.old ++ program_text image.now known.publics.now known.graph.now known.stores.now) }
{
    let Findings {
        graph,
        publics,
        stores,
        ..
    } = findings;
    append_stack(alloc, page, image, publics, graph)?;
    append_calls(alloc, page, image, publics, graph)?;
    append_others(alloc, page, stores, publics)
}

/// Appends the stack of a program: what its procedures need, and the longest chain.
fn append_stack(
    alloc: Global,
    page: &mut Page,
    image: &Image,
    publics: &PublicTable,
    graph: &CallGraph,
) -> Result<(), AllocError>
    ensures { OnOk result (page.new ≡ page.old ++ stack_text image.now publics.now graph.now) }
{
    append_chart(alloc, page, image, publics, graph.nodes())?;
    append_chain(alloc, page, image, publics, graph.nodes())
}

/// Appends a program's stores and jumps, and the names.
fn append_others(
    alloc: Global,
    page: &mut Page,
    stores: &[u8],
    publics: &PublicTable,
) -> Result<(), AllocError>
    ensures { OnOk result (page.new ≡ page.old ++ others_text publics.now stores.now) }
{
    append_part(page, b"Stores and jumps".as_slice(), stores)?;
    append_names(alloc, page, publics)
}

/// Appends the calls of a program, as a drawing and as lines.
fn append_calls(
    alloc: Global,
    page: &mut Page,
    image: &Image,
    publics: &PublicTable,
    graph: &CallGraph,
) -> Result<(), AllocError>
    ensures { OnOk result (page.new ≡ page.old ++ calls_text image.now publics.now graph.now) }
{
    let lines = list_text(alloc, image, publics, graph)?;
    page.heading(b"Calls".as_slice())?;
    append_drawing(alloc, page, image, publics, graph.nodes())?;
    page.table(&lines)
}
