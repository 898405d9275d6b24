//! Tests of recovering the files of one volume, whose image is opened only once.
use crate::devices::Narrow;
use crate::image::{HDR1, HDR2, Image, VOL1, set_id};
use crate::now::Name;
use crate::volumes::EOF_ONE;
use std::alloc::{AllocError, Global};
use std::process::Abort;
use std::test::Fail;
use tape_blocks::Form;
use tape_run::{EngineFault, Locations, Mounted, OutSink, Session, extract_located, find_files};

const SECOND: &str = "HDR1LEDGER           ABC00100010002000100 00000 00000 000000";

const END_OF_SECOND: &str = "EOF1LEDGER           ABC00100010002000100 00000 00000 000001";

/// Returns a volume with two files of one record each, of 80 letters A and of 80 letters B.
fn two_files(alloc: Global) -> Result<Image, AllocError> {
    let mut image = Image::new(alloc);
    image.headers(&[VOL1, HDR1, HDR2])?;
    image.block(&[b'A'; 80])?;
    image.trailers(&[EOF_ONE])?;
    image.headers(&[SECOND, HDR2])?;
    image.block(&[b'B'; 80])?;
    image.trailers(&[END_OF_SECOND])?;
    image.end()?;
    Ok(image)
}

/// Returns the outcome of a file, and the first byte of its records if it is complete.
fn extracted<'a>(
    alloc: Global,
    shelf: &mut Vec<Option<&'a [u8]>>,
    mounted: &mut Option<Mounted<&'a [u8]>>,
    locations: &Locations,
    file: u16,
) -> Result<(Result<Option<u64>, EngineFault>, Option<u8>), Fail> {
    let sink = OutSink::new(alloc, Narrow::new(alloc, 100, true), Form::Lines);
    let mut session = Session::new(alloc, set_id(), file, sink)?;
    let mut name = Name {
        is_free: true,
        there: None,
    };
    let answer = extract_located(
        &mut session,
        shelf,
        mounted,
        locations,
        Form::Lines,
        &mut name,
    );
    let first = match name.there {
        Some(out) => out.taken.first().copied(),
        None => None,
    };
    Ok((answer, first))
}

/// Fails unless the files `files` of the volume, recovered in this order from a source that yields
/// its image once, have the outcomes `records`.
fn come_to<H: Abort + AllocGlobal>(
    rt: &H,
    files: &[u16],
    records: &[(Option<u64>, Option<u8>)],
) -> Result<(), Fail> {
    let alloc = rt.alloc();
    let image = two_files(alloc)?;
    let met = find_files(
        alloc,
        &mut Vec::from_slice(alloc, &[Some(image.bytes.as_slice())])?,
    )?;
    let mut shelf = Vec::from_slice(alloc, &[Some(image.bytes.as_slice())])?;
    let mut mounted = None;
    for (file, (count, first)) in files.iter().zip(records) {
        let found = extracted(alloc, &mut shelf, &mut mounted, &met.locations, *file)?;
        assert!(rt; found == (Ok(*count), *first), "file {file}");
    }
    Ok(())
}

/// The second file is read after the first. The first cannot be read after the second, and a file
/// that no label mentions has no section.
#[test]
fn images_stay_mounted(rt: HostRuntime) -> Result<(), Fail> {
    let (first, second) = ((Some(1), Some(b'A')), (Some(1), Some(b'B')));
    come_to(&rt, &[1, 2], &[first, second])?;
    come_to(&rt, &[2, 1], &[second, (None, None)])?;
    come_to(
        &rt,
        &[3, 1, 3, 2],
        &[(None, None), first, (None, None), second],
    )
}
