//! A dump with the addresses of each byte, by which code is looked for in it.

ghost use Rattle.std.specs.Prelude.{◌≡◌, ◌+◌, ◌<◌, ◌≤◌, IfOk};
ghost use Rattle.rom80_find.specs.Blocks.{AreFound};
ghost use Rattle.rom80_find.specs.Dump.{dump_of};
ghost use Rattle.rom80_find.specs.Marks.{IsRow};

use crate::bytes::{BLOCK, block_from, bytes_of};
use crate::dump::Dump;
use crate::marks::{marks_of, row_of_marks};
use std::alloc::{AllocError, Global};
use std::marker::Model;

/// The number of addresses of an 8080.
pub(crate) const ADDRESSES: usize = 65536;

/// A dump with the addresses of each byte, which are listed once, for however many modules are looked for. A contract sees the dump.
#[derive(Drop)]
pub(crate) struct IndexedDump<'a> {
    dump: Dump<'a>,
    marks: Vec<u64>,
    bytes: Vec<u8>,
}

impl<'a> Model for IndexedDump<'a> {
    ghost use Rattle.rom80_find.specs.Dump.{DumpValue, dump_of};
    ghost use Rattle.rom80_find.specs.Blocks.{IsIndexed};

    ghost Value = { DumpValue };

    ghost view = { λ d. dump_of d.dump };

    ghost invariant = { λ d. IsIndexed (dump_of d.dump) d.marks.items d.bytes.items };
}

impl<'a> IndexedDump<'a> {
    /// Lists the addresses of each byte of a dump, and its bytes by their addresses.
    pub(crate) fn of(alloc: Global, dump: Dump<'a>) -> Result<IndexedDump<'a>, AllocError>
        ensures { IfOk result (λ indexed. indexed ≡ dump_of dump.entry) }
    {
        let marks = marks_of(alloc, dump)?;
        let bytes = bytes_of(alloc, dump)?;
        Ok(IndexedDump { dump, marks, bytes })
    }

    /// Returns the dump, without its list.
    pub(crate) fn dump(&self) -> Dump<'a>
        ensures { dump_of result ≡ self.now }
    {
        self.dump
    }

    /// Returns a bit for each address, set if the dump has the byte `row` there, or for row 256 if it has any; then the same bits again.
    pub(crate) fn row(&self, row: usize) -> &[u64]
        requires { row < 257 }
        ensures { IsRow self.now row result.now }
    {
        row_of_marks(&self.marks, row)
    }

    /// Returns the bytes of the dump at the addresses from `first` on, as many as are compared at once; 0000 follows FFFF. A byte that
    /// the dump doesn't have can be any.
    pub(crate) fn block_from(&self, first: usize) -> &[u8; BLOCK]
        requires { first + 4096 ≤ 131072 }
        ensures { AreFound self.now first result.now }
    {
        block_from(&self.bytes, first)
    }
}
