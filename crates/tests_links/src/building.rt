//! A main program and a subroutine, linked and located in one call. What `link` and `locate` make of them is in the program's tests.

use crate::linking::CALLER_AND_CALLEE;
use laws80::build;
use omf_core::Name;
use omf_module::read_file;
use place80::Options;
use std::test::Fail;

#[test]
fn a_call_goes_to_its_subroutine(rt: HostRuntime) -> Result<(), Fail> {
    let roots = read_file(rt.alloc(), &CALLER_AND_CALLEE)?;
    let name = Name::new(rt.alloc(), b"PROGRAM")?;
    let built = build(rt.alloc(), &name, &roots, &[], &Options::default())?;
    assert_eq!(rt; built.image.start, 0x3000);
    assert_eq!(rt; built.image.byte(0x3000), 0xCD);
    Ok(())
}
