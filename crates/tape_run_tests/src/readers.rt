//! A reader that fails, and a sink that only counts.

ghost use Rattle.std.specs.Prelude.{◌≡◌, ◌≤◌};
ghost use Rattle.tape_core.specs.Crash.{lost};
ghost use Rattle.tape_core.specs.Known.{most_staged};

use std::io;
use std::io::{Error, ErrorKind, Read};
use tape_blocks::Part;
use tape_core::{Checkpoint, PartSink, SinkFault};

/// A reader that returns its bytes, and then fails.
#[derive(Drop)]
pub struct Failing<'a>(pub &'a [u8]);

impl Read for Failing<'_> {
    fn read(&mut self, buf: &mut [u8]) -> io::Result<usize> {
        if self.0.is_empty() {
            return Err(Error::from(ErrorKind::Interrupted));
        }
        self.0.read(buf)
    }
}

/// A sink that counts parts and their weight, and stores none: it contains no list of parts.
#[derive(Drop)]
pub struct Counting {
    pub parts: u64,
    pub weighs: u64,
    pub refused: u64,
    ghost bounded: { weighs ≤ most_staged },
}

impl PartSink for Counting {
    ghost use Rattle.tape_core.specs.declared.sink.SinkFault.TheVariants.{Full};

    ghost holds = { λ sink parts. ⊥ };

    ghost weighs = { λ sink. sink.weighs };

    ghost refusals = { λ sink. sink.refused };

    ghost refuses_change = { λ _ fault _. fault ≡ Full };

    ghost crashes = { λ sink. lost };

    ghost returned_now = { λ sink t back there none. none };

    ghost survived_now = { λ sink t none. none };

    fn put(&mut self, part: Part<'_>) -> Result<(), SinkFault> {
        let heavy = 5 + part.bytes.len() as u64;
        if heavy > 999_999_999_999_999 - self.weighs {
            self.refused = self.refused.saturating_add(1);
            return Err(SinkFault::Full);
        }
        self.weighs += heavy;
        self.parts = self.parts.saturating_add(1);
        Ok(())
    }

    fn cut_to(&mut self, point: &Checkpoint) -> Result<(), SinkFault> {
        self.weighs = point.staged;
        Ok(())
    }

    fn keep(&mut self, _point: &Checkpoint) -> Result<(), SinkFault> {
        Ok(())
    }

    fn weight(&self) -> u64 {
        self.weighs
    }
}
