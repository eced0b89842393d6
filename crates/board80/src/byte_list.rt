//! Lists of answers.

ghost use Rattle.std.specs.Prelude.{◌≡◌, ◌<◌, length, slice_index};
ghost use Rattle.board80.specs.Answers.{byte_at, bytes_of};

use std::marker::Model;

/// Bytes in brackets, at least one.
#[derive(Drop)]
pub struct Group {
    /// The first byte.
    pub first: u8,
    /// The other bytes, in order.
    pub others: Vec<u8>,
}

impl Model for Group {
    ghost use Rattle.board80.specs.Group.{GroupBytes};

    ghost Value = { GroupBytes };

    ghost view = { λ g. record { first = g.first; others = g.others.items } };
}

/// The bytes that an item repeats.
#[derive(Drop)]
pub enum Bytes {
    /// A byte, written without brackets.
    One(u8),
    /// Bytes in brackets.
    Group(Group),
}

impl Bytes {
    /// How many they are, at least one.
    fn count(&self) -> u64
        ensures count { result ≡ length (bytes_of self.now) }
        ensures some { 0 < result }
    {
        match self {
            Bytes::One(_) => 1,
            Bytes::Group(group) => 1 + group.others.len() as u64,
        }
    }

    /// The byte at an index, which must be below their number.
    fn at(&self, index: u64) -> u8
        requires { index < length (bytes_of self.now) }
        ensures { result ≡ slice_index (bytes_of self.now) index }
    {
        match self {
            Bytes::One(byte) => *byte,
            Bytes::Group(group) => {
                if index == 0 {
                    group.first
                } else {
                    group.others[index as usize - 1]
                }
            }
        }
    }
}

/// Bytes that come a number of times, one after another.
#[derive(Drop)]
pub struct Item {
    /// The bytes.
    pub bytes: Bytes,
    /// How many times they come, at least once.
    pub times: u64,
}

/// The bytes that a place answers, one at each read: those of items, and then, if there are any, bytes that come again
/// and again for ever.
#[derive(Drop)]
pub struct ByteList {
    /// The items, in order.
    pub items: Vec<Item>,
    /// The bytes that come for ever behind the items.
    pub for_ever: Option<Bytes>,
}

impl Model for ByteList {
    ghost use Rattle.board80.specs.ByteList.{ListedBytes};

    ghost Value = { ListedBytes };

    ghost view = { λ l. record { items = l.items.items; for_ever = l.for_ever } };
}

impl ByteList {
    /// The byte at an index, counted from 0 on: what is answered at the read after `index` others; `None` past the end of a
    /// list that ends. The time grows with the number of items.
    pub fn byte_at(&self, index: u64) -> Option<u8>
        ensures { result ≡ byte_at self.now index }
    {
        let mut left = index;
        for item in &self.items {
            let count = item.bytes.count();
            if left / count < item.times {
                return Some(item.bytes.at(left % count));
            }
            left -= item.times * count;
        }
        match &self.for_ever {
            Some(bytes) => Some(bytes.at(left % bytes.count())),
            None => None,
        }
    }
}
