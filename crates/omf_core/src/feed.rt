//! Records of a file that comes in pieces.

ghost use Rattle.std.specs.Prelude.{◌≡◌, ◌<◌, ◌++◌, [], None, Some, Err, IfOk, IfErr, OnOk};
ghost use Rattle.omf_core.specs.declared.fault.RecordFault.{RecordFault as RecordFaultValue};
ghost use Rattle.omf_core.specs.Feed.{CountsRecords, LastingRecordFault, ReadsUpTo};

use crate::{FeedFault, RecordFault, RecordKind, next_record};
use std::alloc::Global;
use std::marker::Model;

/// Takes a file in pieces and counts its whole records. A contract sees the bytes of the pieces
/// that were taken and the fault that was found. (8080 Object Module Formats: a file is a sequence
/// of records, and an end-of-file record is its last.)
#[derive(Debug, Drop)]
pub struct Feed {
    /// The bytes of the pieces that were taken.
    bytes: Vec<u8>,
    /// How far `bytes` are read.
    read: Progress,
    /// The fault that was found; every later piece is answered with it.
    kept: Option<RecordFault>,
}

/// How far the bytes of a [`Feed`] are read.
#[derive(Clone, Copy, Debug)]
pub(crate) struct Progress {
    /// The place after the last whole record.
    at: usize,
    /// The number of whole records before `at`.
    count: usize,
    /// Whether the last whole record is an end-of-file record, after which nothing is read.
    ended: bool,
}

impl Model for Feed {
    ghost use Rattle.omf_core.specs.Feed.{FeedValue, ReadsUpTo};

    ghost Value = { FeedValue };

    ghost view = { λ feed. record { bytes = feed.bytes.items; kept = feed.kept } };

    ghost invariant = { λ feed. ReadsUpTo feed.bytes.items feed.read.at feed.read.count feed.read.ended };
}

impl Feed {
    /// A feed that has taken no bytes. It takes no memory yet; its bytes will be allocated from
    /// `alloc`.
    pub fn new(alloc: Global) -> Feed
        ensures { result ≡ record { bytes = []; kept = None } }
    {
        Feed {
            bytes: Vec::new(alloc),
            read: Progress {
                at: 0,
                count: 0,
                ended: false,
            },
            kept: None,
        }
    }

    /// Takes a piece of the file, and returns the number of whole records in all bytes so far; an
    /// end-of-file record is the last one counted. Later pieces complete a record that is cut off
    /// by the end of this one.
    ///
    /// # Errors
    /// `Record` exactly if an earlier piece was answered so, or the records of all bytes so far,
    /// with this piece, have a fault whatever bytes follow. The fault is kept for all later pieces,
    /// and the bytes of this one aren't taken. `Memory` only if memory runs out; the feed is
    /// unchanged.
    pub fn piece(&mut self, piece: &[u8]) -> Result<usize, FeedFault>
        ensures kept { (fault : RecordFaultValue) → self.old.kept ≡ Some fault
            → (result ≡ Err (FeedFault.Record fault)) × (self.new ≡ self.old) }
        ensures taken { OnOk result (self.new ≡ record { bytes = self.old.bytes ++ piece.now; kept = None }) }

        // The count is that of all bytes so far, of which no fault lasts.
        ensures counted { IfOk result (λ count. CountsRecords (self.old.bytes ++ piece.now) count) }
        ensures none_lasts { OnOk result ((fault : RecordFaultValue) → LastingRecordFault (self.old.bytes ++ piece.now) fault →
            ⊥) }

        // A fault lasts of all bytes so far, and is kept.
        ensures fault { (fault : RecordFaultValue) → self.old.kept ≡ None → result ≡ Err (FeedFault.Record fault)
            → LastingRecordFault (self.old.bytes ++ piece.now) fault
            × (self.new ≡ record { bytes = self.old.bytes; kept = Some fault }) }
        ensures memory { result ≡ Err FeedFault.Memory → self.new ≡ self.old }
    {
        if let Some(fault) = self.kept {
            return Err(FeedFault::Record(fault));
        }
        let taken = self.bytes.len();
        if self.bytes.extend_from_slice(piece).is_err() {
            return Err(FeedFault::Memory);
        }
        match read_on(&self.bytes, self.read) {
            Ok(read) => {
                self.read = read;
                Ok(read.count)
            }
            Err(fault) => {
                self.bytes.truncate(taken);
                self.kept = Some(fault);
                Err(FeedFault::Record(fault))
            }
        }
    }

    /// The bytes of the pieces that were taken. It takes no memory.
    pub fn bytes(&self) -> &[u8]
        ensures { result.now ≡ self.now.bytes }
    {
        self.bytes.as_slice()
    }
}

/// Reads on from `before`: counts whole records up to the end-of-file record or as far as the bytes
/// go, and returns the new progress. `Err` is the fault of a record that isn't just cut off.
/// `before` must be how far these bytes, or a front of them, were read.
fn read_on(bytes: &[u8], before: Progress) -> Result<Progress, RecordFault>
    requires { ReadsUpTo bytes.now before.at before.count before.ended }
    ensures read { IfOk result (λ read. ReadsUpTo bytes.now read.at read.count read.ended) }
    ensures counted { IfOk result (λ read. CountsRecords bytes.now read.count) }
    ensures none_lasts { OnOk result ((fault : RecordFaultValue) → LastingRecordFault bytes.now fault → ⊥) }
    ensures fault { IfErr result (λ fault. LastingRecordFault bytes.now fault) }
{
    let mut read = before;
    while !read.ended {
        match next_record(bytes, read.at) {
            Ok((record, after)) => {
                read = Progress {
                    at: after,
                    count: read.count + 1,
                    ended: record.kind == RecordKind::EndOfFile.byte(),
                };
            }
            Err(fault) if fault.is_truncated() => return Ok(read),
            Err(fault) => return Err(fault),
        }
    }
    Ok(read)
}
