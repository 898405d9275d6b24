//! A program in a fake system, which provides its arguments and standard input, an image of one
//! mark, and records its output and the files that it opens. Files and memory are those of the real
//! system, except that an image named `FUL001.tap` accepts no bytes, and that `program` is the
//! program's own file.
use std::alloc::{AllocError, Allocator, Global};
use std::cell::{Cell, RefCell};
use std::env::{Env, FillError};
use std::fmt::Display;
use std::fs::{File, Files, Metadata, OpenOptions};
use std::io;
use std::io::{BufRead, ErrorKind, Input, Lines, Write};
use std::path::PathBuf;
use std::rt::Runtime;
use std::test::Fail;
use std::time::{Clock, Duration};

/// A peculiarity of the system: what it refuses, or does in addition.
#[derive(Clone, Copy)]
pub enum Odd<'a> {
    Nothing,
    /// Looking up this name fails with this error.
    Look(&'a str, ErrorKind),
    /// Opening this name fails with this error.
    Open(&'a str, ErrorKind),
    /// Giving a file a second name fails with this error.
    Link(ErrorKind),
    /// No file can be renamed.
    Rename,
    /// No file can be removed.
    Remove,
    /// When the first name is opened, a file appears under the second.
    Comes(&'a str, &'a str),
    /// Standard error is a terminal, and is full after this number of texts.
    Terminal(usize),
    /// Standard output accepts nothing.
    Full,
    /// Standard output is a pipe that nobody reads.
    Pipe,
    /// No argument is text.
    NoText,
}

/// A program to test. That it is a parameter lets this crate be proved beside the program.
pub trait Program {
    /// Runs the program on `system`, and returns its exit status.
    fn run(&self, system: &FakeSystem<'_>, is_terminal: bool) -> u8;
}

/// A system with arguments and streams of its own.
#[derive(Clone, Copy)]
pub struct FakeSystem<'a> {
    rt: HostRuntime,
    words: &'a [String],
    odd: Odd<'a>,
    records: &'a Records,
}

/// What a run leaves on the system.
#[derive(Drop)]
struct Records {
    out: RefCell<String>,
    told: RefCell<String>,
    /// The paths that were opened, each followed by a space, or by a question mark and a space if
    /// opening it failed.
    opened: RefCell<String>,
    /// The time in seconds, which advances when the clock is read.
    time: Cell<u64>,
    /// The number of texts that standard error got.
    texts: Cell<usize>,
}

impl FakeSystem<'_> {
    /// Fails if the test specifies that looking up `path` fails.
    fn look(&self, path: &str) -> io::Result<()> {
        match self.odd {
            Odd::Look(name, kind) if path == name => Err(io::Error::from(kind)),
            _ => Ok(()),
        }
    }
}

/// Appends `value` to `page`.
fn note<D: Display + Drop>(page: &RefCell<String>, value: D) -> io::Result<()> {
    match page.try_borrow_mut() {
        Ok(mut page) => Ok(write!(page, "{value}")?),
        Err(_) => Err(io::Error::from(ErrorKind::Other)),
    }
}

impl Files for FakeSystem<'_> {
    type File = File;

    type Dir = <HostRuntime as Files>::Dir;

    fn open_file(&self, how: &OpenOptions, path: &str) -> io::Result<File> {
        if let Odd::Comes(name, other) = self.odd
            && path == name
        {
            File::create(&self.rt, other)?.write_all(b"mine")?;
        }
        let opened = match self.odd {
            Odd::Open(name, kind) if path == name => Err(io::Error::from(kind)),
            _ if path.ends_with("/FUL001.tap") => {
                OpenOptions::new().write(true).open(&self.rt, "/dev/full")
            }
            _ if path == "/proc/self/exe" => self.rt.open_file(how, "program"),
            _ => self.rt.open_file(how, path),
        };
        note(&self.records.opened, path)?;
        note(
            &self.records.opened,
            if opened.is_ok() { " " } else { "? " },
        )?;
        opened
    }

    fn open_dir(&self, path: &str) -> io::Result<Self::Dir> {
        self.rt.open_dir(path)
    }

    fn metadata(&self, path: &str) -> io::Result<Metadata> {
        self.look(path)?;
        Files::metadata(&self.rt, path)
    }

    fn symlink_metadata(&self, path: &str) -> io::Result<Metadata> {
        self.look(path)?;
        self.rt.symlink_metadata(path)
    }

    fn copy(&self, from: &str, to: &str) -> io::Result<u64> {
        self.rt.copy(from, to)
    }

    fn rename(&self, from: &str, to: &str) -> io::Result<()> {
        match self.odd {
            Odd::Rename => Err(io::Error::from(ErrorKind::Other)),
            _ => self.rt.rename(from, to),
        }
    }

    fn canonicalize<B: Allocator>(&self, alloc: B, path: &str) -> io::Result<PathBuf<B>> {
        self.rt.canonicalize(alloc, path)
    }

    fn hard_link(&self, original: &str, link: &str) -> io::Result<()> {
        match self.odd {
            Odd::Link(kind) => Err(io::Error::from(kind)),
            _ => self.rt.hard_link(original, link),
        }
    }

    fn remove_file(&self, path: &str) -> io::Result<()> {
        match self.odd {
            Odd::Remove => Err(io::Error::from(ErrorKind::Other)),
            _ => self.rt.remove_file(path),
        }
    }

    fn create_dir(&self, path: &str) -> io::Result<()> {
        self.rt.create_dir(path)
    }

    fn remove_dir(&self, path: &str) -> io::Result<()> {
        self.rt.remove_dir(path)
    }

    fn remove_dir_all<B: Allocator>(&self, alloc: B, path: &str) -> io::Result<()> {
        self.rt.remove_dir_all(alloc, path)
    }
}

impl Env for FakeSystem<'_> {
    fn arg(&self, i: usize, buf: &mut [u8]) -> Result<usize, FillError> {
        let Some(word) = self.words.get(i) else {
            return Err(FillError::NotPresent);
        };
        let bytes = word.as_bytes();
        if bytes.len() > buf.len() {
            return Err(FillError::TooLong);
        }
        buf[..bytes.len()].copy_from_slice(bytes);
        if matches!(self.odd, Odd::NoText) && i > 0 && bytes.len() > 0 {
            buf[0] = 0xFF;
        }
        Ok(bytes.len())
    }

    fn var(&self, _name: &str, _buf: &mut [u8]) -> Result<usize, FillError> {
        Err(FillError::NotPresent)
    }

    fn var_at(&self, _i: usize, _buf: &mut [u8]) -> Result<usize, FillError> {
        Err(FillError::NotPresent)
    }
}

impl Clock for FakeSystem<'_> {
    fn monotonic(&self) -> io::Result<Duration> {
        let time = self.records.time.get().saturating_add(1);
        self.records.time.set(time);
        Ok(Duration::from_secs(time))
    }

    fn since_1970(&self) -> io::Result<Duration> {
        self.rt.since_1970()
    }
}

impl Print for FakeSystem<'_> {
    fn print<D: Display + Drop>(&self, value: D) -> io::Result<()> {
        match self.odd {
            Odd::Full => Err(io::Error::from(ErrorKind::StorageFull)),
            Odd::Pipe => Err(io::Error::from(ErrorKind::BrokenPipe)),
            _ => note(&self.records.out, value),
        }
    }

    fn println<D: Display + Drop>(&self, value: D) -> io::Result<()> {
        self.print(value)?;
        self.print("\n")
    }

    fn write_all(&self, bytes: &[u8]) -> io::Result<()> {
        match str::from_utf8(bytes) {
            Ok(text) => self.print(text),
            Err(_) => Err(io::Error::from(ErrorKind::InvalidData)),
        }
    }
}

impl Eprint for FakeSystem<'_> {
    fn eprint<D: Display + Drop>(&self, value: D) -> io::Result<()> {
        let texts = self.records.texts.get().saturating_add(1);
        self.records.texts.set(texts);
        match self.odd {
            Odd::Terminal(most) if texts > most => Err(io::Error::from(ErrorKind::StorageFull)),
            _ => note(&self.records.told, value),
        }
    }

    fn eprintln<D: Display + Drop>(&self, value: D) -> io::Result<()> {
        self.eprint(value)?;
        self.eprint("\n")
    }
}

impl Input for FakeSystem<'_> {
    type Reader = &'static [u8];

    fn read_line<A: Allocator + Clone>(&self, buf: &mut String<A>) -> io::Result<usize> {
        self.rt.read_line(buf)
    }

    fn lines<A: Allocator>(&self, alloc: A) -> Lines<&'static [u8], A> {
        self.reader().lines(alloc)
    }

    fn reader(&self) -> &'static [u8] {
        b"\0\0\0\0\xff\xff\xff\xff"
    }
}

impl Alloc for FakeSystem<'_> {
    type A = Global;

    fn alloc(&self) -> Global {
        self.rt.alloc()
    }
}

impl Runtime for FakeSystem<'_> {}

/// Returns the arguments in `line`, after the program's name. Two quotes represent an empty
/// argument.
///
/// # Errors
///
/// Returns `AllocError` if memory was refused.
pub fn words_of(alloc: Global, line: &str) -> Result<Vec<String>, AllocError> {
    let mut words = Vec::new(alloc);
    words.push(String::from_str(alloc, "out/tape")?)?;
    for word in line.split_whitespace() {
        words.push(String::from_str(alloc, if word == "''" { "" } else { word })?)?;
    }
    Ok(words)
}

/// The text that removes the line from the terminal.
const CLEARED: &str = "\r                                                            \r";

/// The results of a run.
#[derive(Drop)]
pub struct Seen {
    /// The exit status.
    pub status: u8,
    /// The text on standard output.
    pub out: String,
    /// The texts on standard error. A line that was removed ends with `<`.
    pub told: String,
    /// The paths that were opened, each with a question mark if that failed.
    pub opened: String,
}

/// Runs `program` with the arguments in `line`, on a system with the peculiarity `odd`.
///
/// # Errors
///
/// Fails if memory was refused, or if a file is opened before the numbers of the standard streams
/// were checked.
pub fn called<P: Program>(
    rt: &HostRuntime,
    program: &P,
    line: &str,
    odd: Odd<'_>,
) -> Result<Seen, Fail> {
    let words = words_of(rt.alloc(), line)?;
    let records = Records {
        out: RefCell::new(String::new(rt.alloc())),
        told: RefCell::new(String::new(rt.alloc())),
        opened: RefCell::new(String::new(rt.alloc())),
        time: Cell::new(0),
        texts: Cell::new(0),
    };
    let system = FakeSystem {
        rt: *rt,
        words: words.as_slice(),
        odd,
        records: &records,
    };
    let status = program.run(&system, matches!(odd, Odd::Terminal(_)));
    let (opened, texts) = (records.opened.into_inner(), records.told.into_inner());
    // The numbers of the standard streams are checked first.
    let Some(opened) = opened.as_str().strip_prefix("/ ") else {
        return Err(Fail::from("the root is opened first"));
    };
    let mut told = String::new(rt.alloc());
    for (number, text) in texts.as_str().split(CLEARED).enumerate() {
        told.push_str(if number > 0 { "<\n" } else { "" })?;
        told.push_str(text)?;
    }
    Ok(Seen {
        status,
        out: records.out.into_inner(),
        told,
        opened: opened.to_string(rt.alloc())?,
    })
}
