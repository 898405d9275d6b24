//! Scripts: runs of the program with a command line, and the files before and after them. Each test
//! has a directory of its own.
//!
//! Each line of a script is a step, after any spaces. FILE is a path, and TEXT the rest of the
//! line, in which a backslash and two hexadecimal digits represent a byte. A line that begins with
//! `#` is a comment.
//!
//! - `N: LINE` runs the program with the arguments LINE, and checks that it ends with status N, or
//!   with the fault N, as the line about the fault names it. `N: LINE | LINE ..` does so for each
//!   LINE. `N$ LINE` checks all output and errors, too, and `$ LINE` the same for status 0.
//!   ` => TEXT` at the end of any of these means the same as the next line `~ TEXT`.
//! - The next lines are further results: `> TEXT` a line of output, or `> ..` any output,
//!   `| TEXT` a text in the output, `! TEXT` a line of errors after that about the fault, or
//!   `~ TEXT` a text in the errors, which are then not compared, and `? FILE ..` the files that
//!   it opens, each with `?` if that fails. Without a line `?` they are not compared. `* ODD`
//!   makes the system peculiar: see `odd_of`.
//! - `folder FILE ..`, `put FILE TEXT`, `fill FILE COUNT TEXT`, `link FILE TARGET` and
//!   `name FILE OTHER` create directories, a file, a file of so many copies of the text, a link and
//!   a second name. `remove FILE` removes a file; `allow FILE MODE` sets its permissions, and
//!   `cut FILE LENGTH` its length.
//! - `worked FILE ..` creates the example image, `front FILE LENGTH` its first bytes,
//!   `damaged FILE BLOCK` an image with an unreadable block, `lost FILE` one without its second
//!   block, `lost_damaged FILE BLOCK` one with both, `first FILE` and `second FILE` the volumes of
//!   the example file on two, `first_damaged FILE BLOCK` the first one with an unreadable block,
//!   `records FILE` its records, and `second_file FILE` a volume without the first file of its set.
//!   `ebcdic FILE`, `booted FILE`, `marked FILE`, `unnamed FILE` and `uncounted FILE` create the
//!   example image as other systems write it, `late FILE CLASS` one with an item of SIMH's extended
//!   format, and `own FILE`, `again FILE` and `twins FILE` others with odd identifiers or numbers:
//!   see `example`. `spoil FILE ITEM` makes an item of an image unreadable, and `omit FILE ITEM`
//!   takes it out; items are counted from 0.
//! - `has FILE TEXT`, `at FILE OFFSET TEXT`, `length FILE COUNT`, `is_worked FILE`,
//!   `missing FILE ..` and `allowed FILE MODE` check the contents of a file, the bytes at an
//!   offset, the length, that it is the example image or does not exist, and its permissions.
//!   `modified FILE SECONDS` checks when it was written, in seconds from 1970 on, and `new FILE`
//!   that this was in this century.

use crate::fake_system::{Odd, Program, Seen, called};
use crate::steps::take;
use std::alloc::{AllocError, Global};
use std::io::ErrorKind;
use std::test::Fail;
use std::{env, fs};

/// A run, and its expected results.
#[derive(Drop)]
struct Run<'a> {
    /// The arguments of the run, or of several ones, separated by ` | `.
    lines: &'a str,
    odd: Odd<'a>,
    status: &'a str,
    out: String,
    told: String,
    /// Texts in the errors or, if false, in the output.
    parts: Vec<(bool, &'a str)>,
    opened: Option<&'a str>,
    /// Whether all output, and all errors, are compared.
    is_out_compared: bool,
    is_told_compared: bool,
}

impl<'a> Run<'a> {
    /// Returns the run in the line `step` of a script, or `None` if it is another step.
    fn new(alloc: Global, step: &'a str) -> Result<Option<Run<'a>>, AllocError> {
        let whole = step.split_once("$ ");
        let Some((wanted, lines)) = whole.or(step.split_once(": ")) else {
            return Ok(None);
        };
        let is_fault = wanted.contains(" fault ");
        let mut told = String::new(alloc);
        let status = match wanted {
            _ if is_fault => {
                told.push_str("tape: ")?;
                push_line(&mut told, wanted)?;
                "1"
            }
            "" => "0",
            _ if wanted.len() > 1 && wanted != "141" => return Ok(None),
            status => status,
        };
        let (lines, part) = lines.split_once(" => ").unwrap_or((lines, ""));
        let mut run = Run {
            lines,
            odd: Odd::Nothing,
            status,
            out: String::new(alloc),
            told,
            parts: Vec::new(alloc),
            opened: None,
            is_out_compared: whole.is_some(),
            is_told_compared: whole.is_some() || is_fault,
        };
        if !part.is_empty() {
            run.expect("~", part)?;
        }
        Ok(Some(run))
    }

    /// Adds the expected result in a line of the script. Returns false if the line is another step.
    fn expect(&mut self, word: &'a str, text: &'a str) -> Result<bool, AllocError> {
        match word {
            ">" if text == ".." => self.is_out_compared = false,
            ">" => push_line(&mut self.out, text)?,
            "|" => self.parts.push((false, text))?,
            "!" => {
                self.is_told_compared = true;
                push_line(&mut self.told, text)?;
            }
            "~" => {
                self.is_told_compared = false;
                self.parts.push((true, text))?;
            }
            "?" => self.opened = Some(text),
            "*" => self.odd = odd_of(text),
            _ => return Ok(false),
        }
        Ok(true)
    }

    /// Runs `program` with the arguments in `line`, and fails unless it has the expected results.
    fn check_one<P: Program>(&self, rt: &HostRuntime, program: &P, line: &str) -> Result<(), Fail> {
        let seen = called(rt, program, line, self.odd)?;
        if self.expects(&seen) {
            return Ok(());
        }
        Err(Fail::from(format!(in rt.alloc();
            "{line}: {}\n{}{}{}",
            seen.status, seen.out, seen.told, seen.opened
        )?))
    }

    /// Returns whether a run has the expected results.
    fn expects(&self, seen: &Seen) -> bool {
        let (out, told) = (seen.out.as_str(), seen.told.as_str());
        let is_status = self
            .status
            .parse::<u8>()
            .is_ok_and(|status| status == seen.status);
        let is_ended = seen.status != 1 || told.ends_with('\n');
        let is_out = !self.is_out_compared || out == self.out.as_str();
        let is_told = !self.is_told_compared || told.trim_end() == self.told.as_str().trim_end();
        let opened = seen.opened.as_str().trim_end();
        let is_opened = match self.opened {
            Some(paths) => opened == paths,
            None => true,
        };
        let has_parts = self.parts.as_slice().iter().all(|(is_error, part)| {
            (if *is_error { told } else { out }).contains(*part)
        });
        is_status && is_ended && is_out && is_told && is_opened && has_parts
    }

    /// Runs `program` with each of the lines.
    fn check<P: Program>(&self, rt: &HostRuntime, program: &P) -> Result<(), Fail> {
        for line in self.lines.split(" | ") {
            self.check_one(rt, program, line)?;
        }
        Ok(())
    }
}

/// The peculiarities of the system without arguments, and their names.
const ODDITIES: &[(&str, Odd<'_>)] = &[
    ("rename", Odd::Rename),
    ("remove", Odd::Remove),
    ("full", Odd::Full),
    ("pipe", Odd::Pipe),
    ("no_text", Odd::NoText),
];

/// Returns a peculiarity of the system, as a script names it.
fn odd_of(text: &str) -> Odd<'_> {
    for (name, odd) in ODDITIES {
        if *name == text {
            return *odd;
        }
    }
    let (word, rest) = text.split_once(' ').unwrap_or((text, ""));
    let (path, other) = rest.split_once(' ').unwrap_or((rest, ""));
    match word {
        "look" => Odd::Look(path, kind_of(other)),
        "open" => Odd::Open(path, kind_of(other)),
        "link" => Odd::Link(kind_of(path)),
        "comes" => Odd::Comes(path, other),
        "terminal" => Odd::Terminal(path.parse::<usize>().unwrap_or(0)),
        _ => Odd::Nothing,
    }
}

/// Error kinds, and their names in scripts.
const KINDS: &[(&str, ErrorKind)] = &[
    ("denied", ErrorKind::PermissionDenied),
    ("exists", ErrorKind::AlreadyExists),
    ("full", ErrorKind::StorageFull),
    ("lost", ErrorKind::NotFound),
    ("stale", ErrorKind::StaleNetworkFileHandle),
    ("unsupported", ErrorKind::Unsupported),
];

/// Returns an error kind, as a script names it.
fn kind_of(word: &str) -> ErrorKind {
    for (name, kind) in KINDS {
        if *name == word {
            return *kind;
        }
    }
    ErrorKind::TimedOut
}

fn push_line(page: &mut String, text: &str) -> Result<(), AllocError> {
    page.push_str(text)?;
    page.push('\n')
}

/// Creates the directory `folder`, and executes the steps of `script` there, as `follow` does.
///
/// # Errors
///
/// Those of `follow`, and the system's error if the directory cannot be created.
pub fn follow_in<P: Program>(
    rt: &HostRuntime,
    program: &P,
    folder: &str,
    script: &str,
) -> Result<(), Fail> {
    fs::create_dir(rt, folder)?;
    env::set_current_dir(rt, folder)?;
    follow(rt, program, script)
}

/// Executes the steps of `script` in order, the runs with `program`.
///
/// # Errors
///
/// Fails at the first step that has not its expected result, with its line.
pub fn follow<P: Program>(rt: &HostRuntime, program: &P, script: &str) -> Result<(), Fail> {
    let mut run: Option<Run<'_>> = None;
    for line in script.lines() {
        let line = line.trim_start();
        let (word, rest) = line.split_once(' ').unwrap_or((line, ""));
        if let Some(run) = &mut run {
            if run.expect(word, rest)? {
                continue;
            }
            run.check(rt, program)?;
        }
        run = None;
        if word.is_empty() || word == "#" {
            continue;
        }
        run = Run::new(rt.alloc(), line)?;
        if run.is_none() && !take(rt, word, rest)? {
            return Err(Fail::from(line.to_string(rt.alloc())?));
        }
    }
    match &run {
        Some(run) => run.check(rt, program),
        None => Ok(()),
    }
}
