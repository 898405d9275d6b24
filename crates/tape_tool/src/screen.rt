//! The streams of the system, with a line on its terminal that shows how far the images have been
//! read.
//!
//! The line is printed on standard error if that is a terminal, and otherwise never. It is removed
//! before anything else is printed. Output is printed in whole lines, so it never follows a part of
//! one.

ghost use Rattle.std.specs.Prelude.{◌≡◌, false, None};

use crate::relabel::LabelPlans;
use crate::uncounted::Uncounted;
use std::alloc::Global;
use std::cell::Cell;
use std::fmt::Display;
use std::io;
use std::io::ErrorKind;
use std::time::{Clock, Duration, Instant};
pub use tape_writer::system::Host;

/// The streams of a system, which show how far the images have been read, and what is remembered
/// about the images.
pub trait Progress: Print + Eprint + AllocGlobal + Clone + Drop {
    type System: Host;

    /// Returns the system, for all but its streams.
    fn host(&self) -> &Self::System;

    /// Shows that `bytes` bytes of image number `image` of `count` were read, if there is a
    /// terminal.
    fn show(&self, image: usize, count: usize, bytes: u64);

    /// Returns the sections, found so far, whose blocks are not counted.
    fn uncounted(&self) -> &Uncounted;

    /// Returns how the labels of the images are changed.
    fn plans(&self) -> &LabelPlans;
}

/// The time in milliseconds between two prints of the line, and before the first one.
const PAUSE: u64 = 500;

/// Overwrites the line, which is shorter, with spaces. Every terminal can do this.
const CLEARED: &str = "\r                                                            \r";

/// The state of the line.
#[derive(Clone, Copy)]
pub struct Line {
    /// When the line was printed last, or when the run began. `None` if it is never printed.
    since: Option<Instant>,
    /// Whether the line is on the terminal.
    is_shown: bool,
    /// Whether standard output is a pipe that nobody reads any more.
    pub is_closed: bool,
}

impl Line {
    /// Creates the state of a line that was not printed yet, given whether there is a terminal for
    /// it.
    pub fn new<R: Clock>(rt: &R, is_terminal: bool) -> Line
        ensures { is_terminal ≡ false → result.since ≡ None }
    {
        Line {
            since: if is_terminal {
                Instant::now(rt).ok()
            } else {
                None
            },
            is_shown: false,
            is_closed: false,
        }
    }
}

/// A system, with the line on its terminal.
#[derive(Clone, Drop)]
pub struct Screen<'a, R> {
    pub rt: &'a R,
    /// The state of the line.
    pub line: &'a Cell<Line>,
    /// The sections whose blocks are not counted.
    pub uncounted: &'a Uncounted,
    /// How labels are changed.
    pub plans: &'a LabelPlans,
}

impl<R: Host> Screen<'_, R> {
    /// Removes the line from the terminal.
    pub fn clear(&self) {
        let line = self.line.get();
        if line.is_shown {
            let _ = self.rt.eprint(CLEARED);
            self.line.set(Line {
                is_shown: false,
                ..line
            });
        }
    }

    /// Returns the result of a print, and records whether it found the pipe closed.
    fn noted<T>(&self, printed: io::Result<T>) -> io::Result<T>
        ensures { result ≡ printed }
    {
        if let Err(error) = &printed
            && error.kind() == ErrorKind::BrokenPipe
        {
            let line = self.line.get();
            self.line.set(Line {
                is_closed: true,
                ..line
            });
        }
        printed
    }
}

impl<R: Host> Progress for Screen<'_, R> {
    type System = R;

    fn host(&self) -> &R {
        self.rt
    }

    fn uncounted(&self) -> &Uncounted {
        self.uncounted
    }

    fn plans(&self) -> &LabelPlans {
        self.plans
    }

    fn show(&self, image: usize, count: usize, bytes: u64) {
        if let Some(since) = self.line.get().since
            && let Ok(now) = Instant::now(self.rt)
            && now.duration_since(since) >= Duration::from_millis(PAUSE)
        {
            self.clear();
            let (rt, read) = (self.rt, bytes / 1_000_000);
            let line = self.line.get();
            let printed = rt.eprint(format_args!("image {image} of {count}: {read} MB"));
            self.line.set(Line {
                // After an error nothing more is printed.
                since: if printed.is_ok() { Some(now) } else { None },
                is_shown: printed.is_ok(),
                ..line
            });
        }
    }
}

impl<R: Host> Print for Screen<'_, R> {
    fn print<D: Display + Drop>(&self, value: D) -> io::Result<()> {
        self.clear();
        self.noted(self.rt.print(value))
    }

    fn println<D: Display + Drop>(&self, value: D) -> io::Result<()> {
        self.clear();
        self.noted(self.rt.println(value))
    }

    fn write_all(&self, bytes: &[u8]) -> io::Result<()> {
        self.clear();
        self.noted(Print::write_all(self.rt, bytes))
    }

    fn write_some(&self, bytes: &[u8]) -> io::Result<usize> {
        self.clear();
        self.noted(self.rt.write_some(bytes))
    }
}

impl<R: Host> Eprint for Screen<'_, R> {
    fn eprint<D: Display + Drop>(&self, value: D) -> io::Result<()> {
        self.clear();
        self.rt.eprint(value)
    }

    fn eprintln<D: Display + Drop>(&self, value: D) -> io::Result<()> {
        self.clear();
        self.rt.eprintln(value)
    }
}

impl<R: Host> Alloc for Screen<'_, R> {
    type A = Global;

    fn alloc(&self) -> Global {
        self.rt.alloc()
    }
}
