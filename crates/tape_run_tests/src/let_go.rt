//! Tests that each image is closed before the next one is opened.
ghost use Rattle.std.specs.Prelude.{⊤, length};

use crate::image::set_id;
use crate::sections::{first_of_two, second_of_two};
use std::alloc::{AllocError, Global};
use std::cell::Cell;
use std::io;
use std::io::Read;
use std::process::Abort;
use std::test::Fail;
use tape_blocks::Form;
use tape_core::MemorySink;
use tape_run::{ImageSource, Session, Wording, check_to, extract_to, find_files, survey_to};

/// A reel that is in use until it is dropped.
struct Lent<'a> {
    bytes: &'a [u8],
    out: &'a Cell<u8>,
}

impl Drop for Lent<'_> {
    fn drop(self) {
        self.out.set(self.out.get().saturating_sub(1));
        let Lent { bytes: _, out: _ } = self;
    }
}

impl Read for Lent<'_> {
    fn read(&mut self, buf: &mut [u8]) -> io::Result<usize> {
        self.bytes.read(buf)
    }
}

/// A source of reels that counts how many of them are in use.
#[derive(Drop)]
struct Lender<'a> {
    reels: &'a [&'a [u8]],
    out: &'a Cell<u8>,
    /// The number of reels that were lent.
    lent: u8,
    /// The number of reels that were lent while another one was in use.
    held: u8,
}

impl<'a> ImageSource<Lent<'a>> for Lender<'a> {
    ghost size = { λ lender. length lender.reels.now };

    ghost gives = { λ _ _ _ _. ⊤ };

    fn count(&self) -> usize {
        self.reels.len()
    }

    fn mount(&mut self, number: usize) -> Result<Option<Lent<'a>>, AllocError> {
        let Some(bytes) = self.reels.get(number) else {
            return Ok(None);
        };
        if self.out.get() > 0 {
            self.held = self.held.saturating_add(1);
        }
        self.lent = self.lent.saturating_add(1);
        self.out.set(self.out.get().saturating_add(1));
        Ok(Some(Lent {
            bytes: *bytes,
            out: self.out,
        }))
    }
}

/// A function that reads images.
#[derive(Clone, Copy, Debug)]
enum Engine {
    Check,
    Survey,
    Files,
    Extract,
}

/// Reads the images of `shelf`.
fn read(alloc: Global, engine: Engine, shelf: &mut Lender<'_>) -> Result<(), Fail> {
    let mut report = Vec::new(alloc);
    match engine {
        Engine::Check => {
            check_to(alloc, shelf, &mut report)?;
        }
        Engine::Survey => {
            survey_to(alloc, shelf, &["1", "2"], Wording::Words, &mut report)?;
        }
        Engine::Files => {
            find_files(alloc, shelf)?;
        }
        Engine::Extract => {
            let mut session = Session::new(alloc, set_id(), 1, MemorySink::new(alloc))?;
            let mut out = Vec::new(alloc);
            extract_to(&mut session, shelf, Form::Lines, &mut out, &mut report)?;
        }
    }
    Ok(())
}

/// Fails unless each reel is lent once, and none while another one is in use.
fn lets_go<H: Abort + AllocGlobal>(rt: &H, engine: Engine, reels: &[&[u8]]) -> Result<(), Fail> {
    let out = Cell::new(0);
    let mut shelf = Lender {
        reels,
        out: &out,
        lent: 0,
        held: 0,
    };
    read(rt.alloc(), engine, &mut shelf)?;
    let (lent, held) = (usize::from(shelf.lent), shelf.held);
    assert!(rt;
        lent == reels.len() && held == 0 && out.get() == 0,
        "{engine:?}"
    );
    Ok(())
}

const ENGINES: &[Engine] = &[
    Engine::Check,
    Engine::Survey,
    Engine::Files,
    Engine::Extract,
];

#[test]
fn images_are_let_go(rt: HostRuntime) -> Result<(), Fail> {
    let (first, second) = (first_of_two(rt.alloc())?, second_of_two(rt.alloc())?);
    for engine in ENGINES {
        lets_go(
            &rt,
            *engine,
            &[first.bytes.as_slice(), second.bytes.as_slice()],
        )?;
    }
    Ok(())
}
