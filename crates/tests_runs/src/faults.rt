//! The texts of faults that the program prints by other types or never.

use image80::RegionsFault;
use loader80::{InputsFault, SessionFault};
use loader80_text::BundleFault;
use std::test::Fail;

#[test]
fn faults_are_shown_by_name(rt: HostRuntime) -> Result<(), Fail> {
    let text = format!(in rt.alloc();
        "{} {} {} {} {} {} {} {}",
        SessionFault::Read(2),
        SessionFault::Write,
        SessionFault::Regions(RegionsFault::Memory),
        SessionFault::Inputs(3),
        SessionFault::Memory,
        InputsFault::BadLine(4),
        InputsFault::Memory,
        BundleFault::Session(SessionFault::TooLong(3))
    )?;
    assert!(rt; text.as_str() == "Read 2 Write Memory Inputs 3 Memory BadLine 4 Memory TooLong 3");
    Ok(())
}
