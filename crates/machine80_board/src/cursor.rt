//! Lists of answers, byte by byte.

ghost use Rattle.std.specs.Prelude.{◌≡◌, ◌+◌, ◌<◌, ℕ, length, slice_index, IfSome};
ghost use Rattle.board80.specs.Answers.{byte_at, bytes_of};
ghost use Rattle.board80.specs.ByteList.{ListedBytes};
ghost use Rattle.machine80_board.specs.Cursor.{IsAt, IsReady, MovesInItem, MovesInTurn};

use board80::{ByteList, Bytes, Item};

/// How far a list of answers was given.
#[derive(Clone, Copy, PartialEq, Eq)]
pub struct Cursor {
    /// The index of the next item, or the number of items behind the last.
    item: usize,
    /// How many times all bytes of that item came.
    turn: u64,
    /// How many bytes of the present turn were given.
    place: u64,
}

impl Cursor {
    /// A cursor before the first byte of any list.
    pub(crate) fn start() -> Cursor
        ensures { (list : ListedBytes) → IsAt list result 0 }
    {
        Cursor {
            item: 0,
            turn: 0,
            place: 0,
        }
    }

    /// The next byte of the list, which must be the same one each time; `None` past the end of a list that ends. What was
    /// given before costs no time.
    pub(crate) fn next(&mut self, list: &ByteList) -> Option<u8>
        ensures byte { (given : ℕ) → IsAt list.now self.old given → result ≡ byte_at list.now given }
        ensures moved { (given : ℕ) → IsAt list.now self.old given → IfSome result (λ _. IsAt list.now self.new (given + 1)) }
    {
        self.pass_used(&list.items);
        if self.item < list.items.len() {
            return Some(self.next_of(&list.items[self.item]));
        }
        match &list.for_ever {
            Some(bytes) => Some(self.next_in_turn(bytes)),
            None => None,
        }
    }

    /// Passes items that are used up.
    fn pass_used(&mut self, items: &[Item])
        ensures kept { (list : ListedBytes) (given : ℕ) → list.items ≡ items.now → IsAt list self.old given → IsAt list self.new given }
        ensures ready { IsReady items.now self.new }
    {
        while self.item < items.len() && items[self.item].times <= self.turn {
            self.item += 1;
            self.turn = 0;
            self.place = 0;
        }
    }

    /// The next byte of the item, which must not be used up.
    fn next_of(&mut self, item: &Item) -> u8
        requires { self.old.turn < item.now.times }
        ensures byte { self.old.place < length (bytes_of item.now.bytes) → result ≡ slice_index (bytes_of item.now.bytes) self.old.place }
        ensures moved { MovesInItem (length (bytes_of item.now.bytes)) self.old self.new }
    {
        let byte = self.next_in_turn(&item.bytes);
        if self.place == 0 && self.turn < item.times {
            self.turn += 1;
        }
        byte
    }

    /// The next byte of the bytes, after which the cursor stands before the one behind it, or before the first again.
    fn next_in_turn(&mut self, bytes: &Bytes) -> u8
        ensures byte { self.old.place < length (bytes_of bytes.now) → result ≡ slice_index (bytes_of bytes.now) self.old.place }
        ensures moved { MovesInTurn (length (bytes_of bytes.now)) self.old self.new }
    {
        let count = count_of(bytes);
        let here = self.place.min(count - 1);
        self.place = if here + 1 < count { here + 1 } else { 0 };
        byte_in(bytes, here)
    }
}

/// How many bytes they are, at least one.
fn count_of(bytes: &Bytes) -> u64
    ensures count { result ≡ length (bytes_of bytes.now) }
    ensures some { 0 < result }
{
    match bytes {
        Bytes::One(_) => 1,
        Bytes::Group(group) => 1 + group.others.len() as u64,
    }
}

/// The byte at an index, which must be below their number.
fn byte_in(bytes: &Bytes, index: u64) -> u8
    requires { index < length (bytes_of bytes.now) }
    ensures { result ≡ slice_index (bytes_of bytes.now) index }
{
    match bytes {
        Bytes::One(byte) => *byte,
        Bytes::Group(group) => {
            if index == 0 {
                group.first
            } else {
                group.others[index as usize - 1]
            }
        }
    }
}
