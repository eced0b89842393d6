//! A page of HTML: its text, escaped, and its pictures.
//!
//! Proved: what the page shows, read without its tags, is the text that was put into it, in order; text can't become markup.
//!
//! | Item | What it is |
//! |---|---|
//! | [`Page`] | a page that is being written: headings, paragraphs, tables, charts and pictures |
//! | [`Frame`], [`Area`], [`Point`], [`Paint`] | how large a picture is, where its parts are, and what they stand for |
//! | [`escaped_text_is_shown`] | text in a page is shown as it is, and has no markup, as a contract |
#![tactic(auto)]

mod laws;
mod page;
mod picture;
mod style;
mod table;
mod tag;

pub use laws::escaped_text_is_shown;
pub use page::Page;
pub use picture::{Area, Frame, Paint, Point};
