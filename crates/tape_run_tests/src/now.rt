//! Tests of files whose records are written as they are read, to writers and names that fail.

ghost use Rattle.std.specs.Prelude.{None};

use crate::devices::Narrow;
use crate::extract::shelf_of;
use crate::image::set_id;
use crate::volumes::cut;
use std::alloc::Global;
use std::test::Fail;
use tape_blocks::Form;
use tape_core::SinkFault;
use tape_run::{EngineFault, OutSink, Place, RunFault, Session, WriteFailed, extract_streaming};
use tape_set::Want;

/// A name that an output gets if it is free.
#[derive(Drop)]
pub struct Name {
    pub is_free: bool,
    pub there: Option<Narrow>,
}

impl Place<Narrow> for Name {
    ghost stands = { λ _. None };

    fn place(&mut self, out: Narrow) -> Result<(), WriteFailed> {
        if !self.is_free {
            return Err(WriteFailed);
        }
        self.there = Some(out);
        Ok(())
    }
}

/// The number of bytes of the example image, the number of bytes of its records that the output
/// accepts, whether it can be flushed, and whether its name is free; then the result, the report,
/// and the number of bytes of the file that has the name.
type Row<'a> = (
    usize,
    usize,
    bool,
    bool,
    Result<Option<Want>, EngineFault>,
    &'a str,
    Option<usize>,
);

/// The result if the third block is missing.
const THIRD: Option<Want> = Some(Want {
    file: 1,
    sect: 1,
    block: 2,
    part: 0,
});

/// The result if a record could not be written when the parts of its block arrived.
const REFUSED: Result<Option<Want>, EngineFault> = Err(EngineFault::Run(RunFault::Sink(
    SinkFault::Device,
)));

const FAILED: Result<Option<Want>, EngineFault> = Err(EngineFault::WriteFailed);

const ROWS: &[Row<'_>] = &[
    (
        2484,
        2025,
        true,
        true,
        Ok(None),
        "REEL 1 COMPLETE\nCOMPLETE 25\n",
        Some(2025),
    ),
    (
        1884,
        2025,
        true,
        true,
        Ok(THIRD),
        "REEL 1 REEL ENDED\nAWAITS 1 1 2\n",
        None,
    ),
    (2484, 100, true, true, REFUSED, "", None),
    (2484, 2024, true, true, REFUSED, "", None),
    (2484, 2025, false, true, FAILED, "REEL 1 COMPLETE\n", None),
    (2484, 2025, true, false, FAILED, "REEL 1 COMPLETE\n", None),
];

/// Returns whether the result is that of `row`.
fn comes_to(alloc: Global, row: &Row<'_>) -> Result<bool, Fail> {
    let (length, left, flushes, is_free, wanted, lines, there) = row;
    let image = cut(alloc, *length)?;
    let out = Narrow::new(alloc, *left, *flushes);
    let mut session = Session::new(alloc, set_id(), 1, OutSink::new(alloc, out, Form::Lines))?;
    let mut shelf = shelf_of(alloc, &mut [Some(image.bytes.as_slice())])?;
    let mut report = Vec::new(alloc);
    let mut name = Name {
        is_free: *is_free,
        there: None,
    };
    let answer = extract_streaming(
        &mut session,
        &mut shelf,
        Form::Lines,
        &mut name,
        &mut report,
    );
    let stands = name.there.map(|out| out.taken.len());
    Ok(answer == *wanted && report.as_slice() == lines.as_bytes() && stands == *there)
}

/// While something is missing, and if something fails, no file gets the name.
#[test]
fn outputs_that_fail(rt: HostRuntime) -> Result<(), Fail> {
    for (number, row) in ROWS.iter().enumerate() {
        assert!(rt; comes_to(rt.alloc(), row)?, "row {number}");
    }
    Ok(())
}
