//! Pictures: shapes and labels.

ghost use Rattle.std.specs.Prelude.{◌≡◌, [], ◌∷◌, ◌++◌, IfOk, OnOk};
ghost use Rattle.page80.specs.Pieces.{EndsTag, IsMarkup, IsTagBegun, StaysInTag};
ghost use Rattle.page80.specs.Pictures.{IsFrame, IsPoint, IsSmall, IsSmallPoint, IsWithin};
ghost use Rattle.page80.specs.Scales.{scale_text};

use crate::page::Page;
use crate::style::SCALE;
use crate::tag::{append_attribute, append_in_tag, end_tag, number_digits};
use std::alloc::{AllocError, Global};

/// How large a picture is, in units of its own: 1 to 9999 each way.
#[derive(Clone, Copy)]
pub struct Frame {
    pub width: u16,
    pub height: u16,
}

/// A rectangle of a picture, by its upper left corner.
#[derive(Clone, Copy)]
pub struct Area {
    pub x: u16,
    pub y: u16,
    pub width: u16,
    pub height: u16,
}

/// A point of a picture.
#[derive(Clone, Copy)]
pub struct Point {
    pub x: u16,
    pub y: u16,
}

/// What a shape stands for.
#[derive(Clone, Copy)]
pub enum Paint {
    /// Addresses of code.
    Code,
    /// Addresses of data.
    Data,
    /// The stack.
    Stack,
    /// All of memory.
    Memory,
    /// A box of a drawing.
    Outline,
    /// A part of the longest chain.
    Chain,
    /// Anything else.
    Other,
}

impl Page {
    /// Begins a picture of this size.
    ///
    /// # Errors
    /// `AllocError` if memory runs out; then nothing was appended.
    pub fn begin_picture(&mut self, alloc: Global, frame: Frame) -> Result<(), AllocError>
        requires { IsFrame frame }
        ensures { OnOk result (self.new ≡ self.old) }
    {
        let tag = picture_tag(alloc, frame)?;
        self.markup(&tag)
    }

    /// Ends a picture.
    ///
    /// # Errors
    /// `AllocError` if memory runs out; then nothing was appended.
    pub fn end_picture(&mut self) -> Result<(), AllocError>
        ensures { OnOk result (self.new ≡ self.old) }
    {
        self.markup(b"</svg></div>".as_slice())
    }

    /// Begins a picture of all of memory, as wide as the page.
    ///
    /// # Errors
    /// `AllocError` if memory runs out; then nothing was appended.
    pub fn begin_strip(&mut self, alloc: Global, frame: Frame) -> Result<(), AllocError>
        requires { IsFrame frame }
        ensures { OnOk result (self.new ≡ self.old) }
    {
        let tag = strip_tag(alloc, frame)?;
        self.markup(&tag)
    }

    /// Ends a picture of all of memory, with a scale of addresses and what the colors stand for.
    ///
    /// # Errors
    /// `AllocError` if memory runs out; then nothing was appended.
    pub fn end_strip(&mut self) -> Result<(), AllocError>
        ensures { OnOk result (self.new ≡ self.old ++ scale_text) }
    {
        self.put(SCALE)
    }

    /// Appends a rectangle within a picture of this size, with a text that a browser shows where a pointer rests on it, and a
    /// line feed.
    ///
    /// # Errors
    /// `AllocError` if memory runs out; a part of it may then have been appended.
    pub fn titled_shape(
        &mut self,
        alloc: Global,
        frame: Frame,
        area: Area,
        paint: Paint,
        text: &[u8],
    ) -> Result<(), AllocError>
        requires frame { IsFrame frame }
        requires within { IsWithin frame area }
        ensures { OnOk result (self.new ≡ self.old ++ text.now ++ 10 ∷ []) }
    {
        let tag = shape_tag(alloc, area, paint, b"><title>".as_slice())?;
        self.markup(&tag)?;
        self.text(text)?;
        self.put(b"</title></rect>\n".as_slice())
    }

    /// Appends a rectangle within a picture of this size; it shows no text.
    ///
    /// # Errors
    /// `AllocError` if memory runs out; then nothing was appended.
    pub fn shape(
        &mut self,
        alloc: Global,
        frame: Frame,
        area: Area,
        paint: Paint,
    ) -> Result<(), AllocError>
        requires frame { IsFrame frame }
        requires within { IsWithin frame area }
        ensures { OnOk result (self.new ≡ self.old) }
    {
        let tag = shape_tag(alloc, area, paint, b"/>".as_slice())?;
        self.markup(&tag)
    }

    /// Appends a text and a line feed: the text is in an area of a picture of this size, and cut off at its right edge.
    ///
    /// # Errors
    /// `AllocError` if memory runs out; a part of it may then have been appended.
    pub fn label(
        &mut self,
        alloc: Global,
        frame: Frame,
        area: Area,
        text: &[u8],
    ) -> Result<(), AllocError>
        requires frame { IsFrame frame }
        requires within { IsWithin frame area }
        ensures { OnOk result (self.new ≡ self.old ++ text.now ++ 10 ∷ []) }
    {
        let tag = label_tag(alloc, area)?;
        self.markup(&tag)?;
        self.text(text)?;
        self.put(b"</text></svg>\n".as_slice())
    }

    /// Appends a line between two points within a picture of this size; it shows no text.
    ///
    /// # Errors
    /// `AllocError` if memory runs out; then nothing was appended.
    pub fn line(
        &mut self,
        alloc: Global,
        frame: Frame,
        from: Point,
        to: Point,
        paint: Paint,
    ) -> Result<(), AllocError>
        requires frame { IsFrame frame }
        requires from { IsPoint frame from }
        requires to { IsPoint frame to }
        ensures { OnOk result (self.new ≡ self.old) }
    {
        let tag = line_tag(alloc, from, to, paint)?;
        self.markup(&tag)
    }
}

/// The beginning of a picture.
fn picture_tag(alloc: Global, frame: Frame) -> Result<Vec<u8>, AllocError>
    requires { IsFrame frame }
    ensures { IfOk result (λ tag. IsMarkup tag.items) }
{
    let begin = b"<div class=\"wide\"><svg role=\"img\"".as_slice();
    let mut tag = Vec::from_slice(alloc, begin)?;
    append_attribute(&mut tag, b" width=\"".as_slice(), frame.width)?;
    append_view(&mut tag, frame)?;
    end_tag(&mut tag, b">".as_slice())?;
    Ok(tag)
}

/// The beginning of a picture of all of memory.
fn strip_tag(alloc: Global, frame: Frame) -> Result<Vec<u8>, AllocError>
    requires { IsFrame frame }
    ensures { IfOk result (λ tag. IsMarkup tag.items) }
{
    let begin = b"<svg class=\"strip\" role=\"img\" preserveAspectRatio=\"none\"".as_slice();
    let mut tag = Vec::from_slice(alloc, begin)?;
    append_view(&mut tag, frame)?;
    end_tag(&mut tag, b">".as_slice())?;
    Ok(tag)
}

/// Appends the units of a picture to its tag.
fn append_view(tag: &mut Vec<u8>, frame: Frame) -> Result<(), AllocError>
    requires begun { IsTagBegun tag.old.items }
    requires frame { IsFrame frame }
    ensures { OnOk result (IsTagBegun tag.new.items) }
{
    append_in_tag(tag, b" viewBox=\"0 0 ".as_slice())?;
    append_in_tag(tag, &number_digits(frame.width))?;
    append_attribute(tag, b" ".as_slice(), frame.height)
}

/// A rectangle, up to its text, or to its end.
fn shape_tag(alloc: Global, area: Area, paint: Paint, end: &[u8]) -> Result<Vec<u8>, AllocError>
    requires small { IsSmall area }
    requires end { EndsTag end.now }
    ensures { IfOk result (λ tag. IsMarkup tag.items) }
{
    let mut tag = Vec::from_slice(alloc, b"<rect".as_slice())?;
    append_in_tag(&mut tag, class_of(paint))?;
    append_area(&mut tag, area)?;
    end_tag(&mut tag, end)?;
    Ok(tag)
}

/// Appends an area to a tag.
fn append_area(tag: &mut Vec<u8>, area: Area) -> Result<(), AllocError>
    requires begun { IsTagBegun tag.old.items }
    requires small { IsSmall area }
    ensures { OnOk result (IsTagBegun tag.new.items) }
{
    append_attribute(tag, b" x=\"".as_slice(), area.x)?;
    append_attribute(tag, b" y=\"".as_slice(), area.y)?;
    append_attribute(tag, b" width=\"".as_slice(), area.width)?;
    append_attribute(tag, b" height=\"".as_slice(), area.height)
}

/// A text in an area, up to its first byte.
fn label_tag(alloc: Global, area: Area) -> Result<Vec<u8>, AllocError>
    requires { IsSmall area }
    ensures { IfOk result (λ tag. IsMarkup tag.items) }
{
    let mut tag = Vec::from_slice(alloc, b"<svg".as_slice())?;
    append_area(&mut tag, area)?;
    end_tag(&mut tag, b"><text x=\"4\" y=\"14\">".as_slice())?;
    Ok(tag)
}

/// A line.
fn line_tag(alloc: Global, from: Point, to: Point, paint: Paint) -> Result<Vec<u8>, AllocError>
    requires from { IsSmallPoint from }
    requires to { IsSmallPoint to }
    ensures { IfOk result (λ tag. IsMarkup tag.items) }
{
    let mut tag = Vec::from_slice(alloc, b"<line".as_slice())?;
    append_in_tag(&mut tag, class_of(paint))?;
    append_attribute(&mut tag, b" x1=\"".as_slice(), from.x)?;
    append_attribute(&mut tag, b" y1=\"".as_slice(), from.y)?;
    append_attribute(&mut tag, b" x2=\"".as_slice(), to.x)?;
    append_attribute(&mut tag, b" y2=\"".as_slice(), to.y)?;
    end_tag(&mut tag, b"/>".as_slice())?;
    Ok(tag)
}

/// The class of a shape, by which the style paints it.
fn class_of(paint: Paint) -> &'static [u8]
    ensures { StaysInTag result.now }
{
    match paint {
        Paint::Code => b" class=\"code\"".as_slice(),
        Paint::Data => b" class=\"data\"".as_slice(),
        Paint::Stack => b" class=\"stack\"".as_slice(),
        Paint::Memory => b" class=\"memory\"".as_slice(),
        Paint::Outline => b" class=\"box\"".as_slice(),
        Paint::Chain => b" class=\"chain\"".as_slice(),
        Paint::Other => b" class=\"other\"".as_slice(),
    }
}
