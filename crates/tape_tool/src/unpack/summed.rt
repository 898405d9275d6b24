//! Files whose SHA-256 checksums are computed while they are written.

ghost use Rattle.std.specs.Prelude.{None};

use crate::extract::Draft;
use crate::fault::FileFault;
use crate::screen::Progress;
use sha2::{Digest, Sha256};
use std::alloc::Global;
use std::fs::File;
use std::io;
use std::io::{BufWriter, Read, Write};
use tape_run::{BlockRun, Place, WriteFailed};
use tape_set::Want;

/// The number of bytes that are read at a time.
const PIECE: usize = 4_096;

/// What the lists of a directory say of a file that is to be written.
#[derive(Drop)]
pub struct Listed {
    /// Whether it is needed.
    pub is_wanted: bool,
    /// The checksum, once the file has its name.
    pub sum: Option<[u8; 32]>,
    /// Where its blocks came from, in order.
    pub runs: Vec<BlockRun>,
    /// The first part of the file that is missing, after a recovery on its stage.
    pub want: Option<Want>,
    /// The number of its sections that were complete on its stage before.
    pub staged: u16,
    /// The numbers of the images with a doubtful copy of that section, counted from 0.
    pub doubtful: Vec<usize>,
}

impl Listed {
    /// Creates what is known of a file before it is read.
    pub fn new(alloc: Global, is_wanted: bool) -> Listed {
        Listed {
            is_wanted,
            sum: None,
            runs: Vec::new(alloc),
            want: None,
            staged: 0,
            doubtful: Vec::new(alloc),
        }
    }
}

/// An output that computes the checksum of its bytes on request.
#[derive(Drop)]
pub struct Summed<W> {
    out: W,
    sum: Option<Sha256>,
}

impl<W> Summed<W> {
    /// Creates a writer to `out`, to which nothing was written.
    pub fn new(out: W, is_wanted: bool) -> Summed<W> {
        Summed {
            out,
            sum: if is_wanted { Some(Sha256::new()) } else { None },
        }
    }

    /// Returns the checksum of the bytes that were written, if it was requested. It is not computed
    /// any further.
    pub fn sum(&mut self) -> Option<[u8; 32]> {
        self.sum.take().map(|sum| sum.finalize())
    }
}

impl<W: Write> Write for Summed<W> {
    #[inline(always)]
    fn write(&mut self, buf: &[u8]) -> io::Result<usize> {
        let count = self.out.write(buf)?;
        if let (Some(sum), Some(written)) = (&mut self.sum, buf.get(..count)) {
            sum.update(written);
        }
        Ok(count)
    }

    fn flush(&mut self) -> io::Result<()> {
        self.out.flush()
    }
}

/// A new file that computes the checksum of its bytes on request.
pub type SummedFile = Summed<BufWriter<File>>;

/// The draft of an output, and the checksum of the file that got the output's name.
#[derive(Drop)]
pub struct SummedDraft<'a, R: Progress> {
    pub draft: Draft<'a, R>,
    pub found: Option<[u8; 32]>,
}

impl<R: Progress> Place<SummedFile> for SummedDraft<'_, R> {
    ghost stands = { λ _. None };

    fn place(&mut self, out: SummedFile) -> Result<(), WriteFailed> {
        let Summed { out, sum } = out;
        self.draft.place(out)?;
        self.found = sum.map(|sum| sum.finalize());
        Ok(())
    }
}

/// An output that gets its name when it is flushed.
#[derive(Drop)]
pub struct SummedOutput<'a, R: Progress> {
    pub place: SummedDraft<'a, R>,
    out: SummedFile,
}

impl<'a, R: Progress> SummedOutput<'a, R> {
    /// Creates an output for a new file.
    pub fn new(draft: Draft<'a, R>, out: BufWriter<File>, is_wanted: bool) -> SummedOutput<'a, R> {
        SummedOutput {
            place: SummedDraft { draft, found: None },
            out: Summed::new(out, is_wanted),
        }
    }
}

impl<R: Progress> Write for SummedOutput<'_, R> {
    fn write(&mut self, buf: &[u8]) -> io::Result<usize> {
        self.out.write(buf)
    }

    fn flush(&mut self) -> io::Result<()> {
        self.out.flush()?;
        self.place.draft.take()?;
        self.place.found = self.out.sum();
        Ok(())
    }
}

/// Returns the checksum of the next `length` bytes of `file`.
pub fn sum_of(file: &mut File, length: u64) -> Result<[u8; 32], FileFault> {
    let mut sum = Sha256::new();
    let mut buffer = [0; PIECE];
    let mut left = length;
    for _ in 0..length.div_ceil(PIECE as u64) {
        let room = left.min(PIECE as u64) as usize;
        file.read_exact(&mut buffer[..room])
            .map_err(|_| FileFault::ReadFailed)?;
        sum.update(&buffer[..room]);
        left = left.saturating_sub(PIECE as u64);
    }
    Ok(sum.finalize())
}
