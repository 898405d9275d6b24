//! Finds the sections missing from the sets on some reels.
use super::reel::SECOND_BAD;
use std::alloc::Global;
use std::io::Read;
use std::test::Fail;
use tape_label::Field;
use tape_run::{Catalogue, Lack, RunFault, check_set};

/// Returns the first incomplete section in all sets on the reels.
fn first_lack<R: Read>(alloc: Global, reels: &mut [R]) -> Result<Option<Lack>, RunFault> {
    let mut catalogue = Catalogue::new(alloc);
    for reel in reels {
        catalogue.add(reel)?;
    }
    let report = check_set(alloc, &catalogue)?;
    Ok(report.lacks.as_slice().first().copied())
}

#[test]
fn a_bad_copy_lacks_a_section(rt: HostRuntime) -> Result<(), Fail> {
    let lack = Lack {
        set_id: Field::of_bytes(*b"ABC001"),
        file: 1,
        sect: 1,
    };
    assert!(rt; first_lack(rt.alloc(), &mut [SECOND_BAD])? == Some(lack));
    Ok(())
}
