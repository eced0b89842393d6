//! Tables of answers.

ghost use Rattle.std.specs.Prelude.{◌≡◌};
ghost use Rattle.board80.specs.Answers.{answer_to};

use crate::place::Place;
use std::marker::Model;

/// A byte that was put out, and the answer to it.
#[derive(Clone, Copy, PartialEq, Eq)]
pub struct Row {
    /// The byte that was put out.
    pub byte: u8,
    /// The answer.
    pub answer: u8,
}

/// Answers by the last byte that was put out at a port or stored at a cell.
#[derive(Drop)]
pub struct Table {
    /// Where the byte is put out.
    pub source: Place,
    /// The answers to bytes, by these bytes, each of which has one row.
    pub rows: Vec<Row>,
    /// The answer to every other byte, and before any byte is put out.
    pub other: u8,
}

impl Model for Table {
    ghost use Rattle.board80.specs.Table.{TableRows};

    ghost Value = { TableRows };

    ghost view = { λ t. record { source = t.source; rows = t.rows.items; other = t.other } };
}

impl Table {
    /// The answer to a byte that was put out.
    pub fn answer_to(&self, byte: u8) -> u8
        ensures { result ≡ answer_to self.now byte }
    {
        for row in &self.rows {
            if row.byte == byte {
                return row.answer;
            }
        }
        self.other
    }
}
