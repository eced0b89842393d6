//! What holds of all spellings, whatever calls are made. Each law is ensured by a function that does nothing:
//! a layer above that calls it has the law in its proof.

ghost use Rattle.omf_core.specs.Laws.{OneRecordAtEachPlace, NoSpellingBeginsAnother, NoFaultExactlyAtRecords, RecordsStay, FaultsStay, TruncatedCanBeCompleted};
ghost use Rattle.omf_core.specs.Laws.{OtherFaultsStay, TruncatedCanBeSpoilt, WrittenIsSpelled, SpelledIsWritten, OneListBeginsTheOther, OneListAtEachStretch};
ghost use Rattle.omf_core.specs.Laws.{ListsJoin, ListGrows, ListsStay, WrittenListIsSpelled, OneNameAtEachPlace, NamesExactlyWhereHeld, WrittenNameIsSpelled};
ghost use Rattle.omf_core.specs.FeedLaws.{OneRecordFault, OneCount, LastingFaultsLast, CountedHaveNone};

/// Bytes spell at most one record at a place.
#[tactic(auto, using(crate::proofs::Spelled::one_record))]
pub fn one_record_at_each_place()
    ensures { OneRecordAtEachPlace }
{}

/// The bytes of one record are never a proper prefix of those of another.
#[tactic(auto, using(crate::proofs::Spelled::no_spelling_begins_another))]
pub fn no_spelling_begins_another()
    ensures { NoSpellingBeginsAnother }
{}

/// A place in a file has no record fault exactly if a record is spelled there.
#[tactic(auto, using(crate::proofs::Spelled::no_fault_exactly_at_records))]
pub fn no_fault_exactly_at_records()
    ensures { NoFaultExactlyAtRecords }
{}

/// A record that bytes spell at a place is spelled there whatever bytes follow.
#[tactic(auto, using(crate::proofs::Spelled::records_stay))]
pub fn records_stay()
    ensures { RecordsStay }
{}

/// A record fault `BadSum` or `ZeroLength` at a place is reported there whatever bytes follow.
#[tactic(auto, using(crate::proofs::Spelled::faults_stay))]
pub fn faults_stay()
    ensures { FaultsStay }
{}

/// A record whose fault is `Truncated` can be completed: some bytes that follow make it whole.
#[tactic(auto, using(crate::proofs::Completed::truncated_can_be_completed))]
pub fn truncated_can_be_completed()
    ensures { TruncatedCanBeCompleted }
{}

/// A record fault is `Truncated` with the place that was read, or is reported whatever bytes
/// follow.
pub fn other_faults_stay()
    ensures { OtherFaultsStay }
{}

/// A record that is cut off can be spoilt: some bytes that follow give it a wrong sum.
pub fn truncated_can_be_spoilt()
    ensures { TruncatedCanBeSpoilt }
{}

/// The bytes that are written for a record spell it, at any place in a file.
pub fn written_is_spelled()
    ensures { WrittenIsSpelled }
{}

/// Only the bytes that are written for a record spell it.
#[tactic(auto, using(crate::proofs::SpelledWritten::spelled_is_written))]
pub fn spelled_is_written()
    ensures { SpelledIsWritten }
{}

/// Of two lists of records that bytes spell from one place on, one is a prefix of the other.
#[tactic(auto, using(crate::proofs::SpelledRecords::one_list_begins_the_other))]
pub fn one_list_begins_the_other()
    ensures { OneListBeginsTheOther }
{}

/// The bytes between two places spell at most one list of records.
#[tactic(auto, using(crate::proofs::SpelledRecords::one_list_at_each_stretch))]
pub fn one_list_at_each_stretch()
    ensures { OneListAtEachStretch }
{}

/// If bytes spell one list of records up to a place and another from there on, they spell both
/// joined.
#[tactic(auto, using(crate::proofs::SpelledRecords::lists_join))]
pub fn lists_join()
    ensures { ListsJoin }
{}

/// If bytes spell a list of records up to a place and a record there, they spell the list with it.
#[tactic(auto, using(crate::proofs::SpelledRecords::list_grows))]
pub fn list_grows()
    ensures { ListGrows }
{}

/// A list of records that bytes spell is spelled whatever bytes follow.
#[tactic(auto, using(crate::proofs::SpelledRecords::lists_stay))]
pub fn lists_stay()
    ensures { ListsStay }
{}

/// The bytes that are written for records, one after another, spell them, at any place in a file.
#[tactic(auto, using(crate::proofs::SpelledRecords::written_list_is_spelled))]
pub fn written_list_is_spelled()
    ensures { WrittenListIsSpelled }
{}

/// Bytes spell at most one name at a place.
#[tactic(auto, using(crate::proofs::SpelledNames::one_name))]
pub fn one_name_at_each_place()
    ensures { OneNameAtEachPlace }
{}

/// A name is spelled at a place exactly if the test for one holds of the bytes from there on.
#[tactic(auto, using(crate::proofs::SpelledNames::names_exactly_where_held))]
pub fn names_exactly_where_held()
    ensures { NamesExactlyWhereHeld }
{}

/// A name's length byte and its bytes spell the name, at any place in a file.
#[tactic(auto, using(crate::proofs::SpelledNames::written_name_is_spelled))]
pub fn written_name_is_spelled()
    ensures { WrittenNameIsSpelled }
{}

/// The records of a file have at most one first fault.
pub fn one_record_fault()
    ensures { OneRecordFault }
{}

/// The bytes of a file have one number of whole records.
pub fn one_count()
    ensures { OneCount }
{}

/// A record fault that bytes have whatever follows is one that they have with any bytes after them.
#[tactic(auto, using(crate::proofs::FeedLemmas::lasting_faults_last))]
pub fn lasting_faults_last()
    ensures { LastingFaultsLast }
{}

/// Bytes whose whole records are counted have no fault that lasts whatever bytes follow.
pub fn counted_have_none()
    ensures { CountedHaveNone }
{}
