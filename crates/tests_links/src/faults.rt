//! Faults that no command prints, or that it prints by other types, and their numbers.

use omf_body::BodyFault;
use omf_core::{NameFault, PutFault};
use omf_library::{LibraryFault, LibraryPutFault};
use omf_module::{Cause, ModuleFault, PartsFault};
use std::test::Fail;

#[test]
fn faults_are_printed_by_name(rt: HostRuntime) -> Result<(), Fail> {
    let memory = ModuleFault {
        at: 0,
        cause: Cause::Memory,
    };
    let text = format!(in rt.alloc();
        "{} {} {} {} {} {} {} {memory} {} {}",
        PutFault::TooLong,
        PutFault::Memory,
        NameFault::BadName,
        NameFault::Memory,
        BodyFault::UnknownKind(0x30),
        BodyFault::BadBody(0x2E),
        BodyFault::BadName,
        PartsFault::Rule,
        PartsFault::Memory
    )?;
    assert!(rt;
        text.as_str()
            == "TooLong Memory BadName Memory UnknownKind 30 BadBody 2E BadName Memory Rule Memory"
    );
    Ok(())
}

#[test]
fn library_faults_have_their_numbers(rt: HostRuntime) {
    let codes = [
        LibraryFault::NotLibrary.code(),
        LibraryFault::CountDiffers(2, 1).code(),
        LibraryFault::NoEnd(10).code(),
        LibraryFault::Memory.code(),
        LibraryPutFault::TooLarge.code(),
        LibraryPutFault::Memory.code(),
    ];
    assert!(rt; codes == [2, 3, 4, 5, 1, 2]);
}
