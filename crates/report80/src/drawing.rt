//! The calls of a program as a drawing: a box for each procedure, and a line for each that calls another.

ghost use Rattle.std.specs.Prelude.{◌≡◌, ◌++◌, OnOk};
ghost use Rattle.page80.specs.Pictures.{IsPoint, IsWithin};
ghost use Rattle.report80.specs.DrawingText.{IsBoard, box_text, boxes_text, drawing_text};

use crate::layout::{Edge, Place, edges_of, places_of};
use image80::Image;
use image80_text::{PublicTable, append_name};
use page80::{Area, Frame, Page, Paint, Point};
use std::alloc::{AllocError, Global};
use text80::word_digits;
use verify80_calls::{Link, Node, Procedure, longest_chain};

/// The most procedures that are drawn.
const MOST_BOXES: usize = 60;

/// Appends the drawing of the procedures and their calls, if there aren't too many.
pub(crate) fn append_drawing(
    alloc: Global,
    page: &mut Page,
    image: &Image,
    publics: &PublicTable,
    nodes: &[Node],
) -> Result<(), AllocError>
    ensures { OnOk result (page.new ≡ page.old ++ drawing_text image.now publics.now nodes.now) }
{
    if nodes.len() > MOST_BOXES {
        return Ok(());
    }
    let edges = edges_of(alloc, nodes)?;
    let places = places_of(alloc, nodes.len(), &edges)?;
    let chain = longest_chain(alloc, nodes)?;
    let frame = frame_of(&places);
    page.begin_picture(alloc, frame)?;
    append_lines(alloc, page, frame, nodes, &chain, &places, &edges)?;
    append_boxes(alloc, page, frame, image, publics, nodes, &places)?;
    page.end_picture()
}

/// The size of a drawing with boxes in these places.
fn frame_of(places: &[Place]) -> Frame
    ensures { IsBoard result }
{
    let mut columns = 0u16;
    let mut rows = 0u16;
    for place in places {
        columns = columns.max(place.column);
        rows = rows.max(place.row);
    }
    Frame {
        width: columns.min(59) * 160 + 150,
        height: rows.min(59) * 50 + 50,
    }
}

/// Where the box of a place is; within the drawing in any case.
fn area_of(frame: Frame, place: Place) -> Area
    requires { IsBoard frame }
    ensures { IsWithin frame result }
{
    Area {
        x: (place.column.min(59) * 160 + 5).min(frame.width - 145),
        y: (place.row.min(59) * 50 + 5).min(frame.height - 45),
        width: 140,
        height: 40,
    }
}

/// Appends the lines between boxes.
fn append_lines(
    alloc: Global,
    page: &mut Page,
    frame: Frame,
    nodes: &[Node],
    chain: &[Link],
    places: &[Place],
    edges: &[Edge],
) -> Result<(), AllocError>
    requires { IsBoard frame }
    ensures { OnOk result (page.new ≡ page.old) }
{
    for edge in edges {
        if let Some(from) = places.get(edge.from)
            && let Some(to) = places.get(edge.to)
        {
            let (from, to) = (right_of(frame, *from), left_of(frame, *to));
            page.line(alloc, frame, from, to, paint_of(nodes, chain, *edge))?;
        }
    }
    Ok(())
}

/// The middle of the right side of a box.
fn right_of(frame: Frame, place: Place) -> Point
    requires { IsBoard frame }
    ensures { IsPoint frame result }
{
    let area = area_of(frame, place);
    Point {
        x: area.x + area.width,
        y: area.y + area.height / 2,
    }
}

/// The middle of the left side of a box.
fn left_of(frame: Frame, place: Place) -> Point
    requires { IsBoard frame }
    ensures { IsPoint frame result }
{
    let area = area_of(frame, place);
    Point {
        x: area.x,
        y: area.y + area.height / 2,
    }
}

/// How a line is painted: as a part of the longest chain if a call of it leads along the line.
fn paint_of(nodes: &[Node], chain: &[Link], edge: Edge) -> Paint {
    let (Some(from), Some(to)) = (nodes.get(edge.from), nodes.get(edge.to)) else {
        return Paint::Other;
    };
    let is_chain = chain.iter().any(|link| link.call.target == to.address
        && from.calls.contains(&link.call));
    if is_chain { Paint::Chain } else { Paint::Other }
}

/// Appends the box of each procedure.
fn append_boxes(
    alloc: Global,
    page: &mut Page,
    frame: Frame,
    image: &Image,
    publics: &PublicTable,
    nodes: &[Node],
    places: &[Place],
) -> Result<(), AllocError>
    requires { IsBoard frame }
    ensures { OnOk result (page.new ≡ page.old ++ boxes_text image.now publics.now nodes.now) }
{
    let mut index = 0usize;
    for node in nodes {
        let place = places
            .get(index)
            .copied()
            .unwrap_or(Place { column: 0, row: 0 });
        append_box(
            alloc,
            page,
            frame,
            image,
            publics,
            node,
            area_of(frame, place),
        )?;
        index = index.saturating_add(1);
    }
    Ok(())
}

/// Appends the box of a procedure: its address and name, and its bound.
fn append_box(
    alloc: Global,
    page: &mut Page,
    frame: Frame,
    image: &Image,
    publics: &PublicTable,
    node: &Node,
    area: Area,
) -> Result<(), AllocError>
    requires frame { IsBoard frame }
    requires within { IsWithin frame area }
    ensures { OnOk result (page.new ≡ page.old ++ box_text image.now publics.now node.now) }
{
    let bound = node.bound;
    let mut name = Vec::from_slice(alloc, &word_digits(node.address))?;
    append_name(
        alloc,
        publics,
        image.regions.code(),
        node.address,
        &mut name,
    )?;
    let need = format!(in alloc; "BOUND {bound}")?;
    page.shape(alloc, frame, area, Paint::Outline)?;
    let upper = Area {
        height: area.height / 2,
        ..area
    };
    page.label(alloc, frame, upper, &name)?;
    let lower = Area {
        y: area.y + area.height / 2,
        height: area.height / 2,
        ..area
    };
    page.label(alloc, frame, lower, need.as_bytes())
}
