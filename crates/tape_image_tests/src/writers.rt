//! Checks of a writer, call by call.

use super::checks::{same_count, same_write_fault};
use std::io::Write;
use std::process::Abort;
use tape_image::{ImageWriteFault, ImageWriter};

/// A call to a writer.
#[derive(Clone, Copy)]
pub(super) enum Call<'a> {
    Block(&'a [u8]),
    Mark,
    Finish,
}

impl Call<'_> {
    /// Makes the call, and returns its fault if it is refused.
    pub(super) fn on<W: Write + Drop>(
        self,
        writer: &mut ImageWriter<W>,
    ) -> Option<ImageWriteFault> {
        let answer = match self {
            Call::Block(content) => writer.block(content),
            Call::Mark => writer.mark(),
            Call::Finish => writer.finish(),
        };
        answer.err()
    }
}

/// A call, its fault if it is refused, and the size of the image after it.
pub(super) type Row<'a> = (Call<'a>, Option<ImageWriteFault>, u64);

/// Makes the calls of the rows one after another, and checks their results.
pub(super) fn answers<W: Write + Drop>(
    rt: &impl Abort,
    writer: &mut ImageWriter<W>,
    rows: &[Row<'_>],
) {
    for (row, (call, fault, size)) in rows.iter().enumerate() {
        same_write_fault(rt, row, call.on(writer), *fault);
        same_count(rt, row, writer.size(), *size);
    }
}
