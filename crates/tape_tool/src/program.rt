//! Runs of the program and their ends.

ghost use Rattle.std.specs.Prelude.{◌≡◌, ◌≢◌, Bool, IfErr};
ghost use Rattle.clap.specs.Words.{kind_of};
ghost use Rattle.tape_tool.specs.Ends.{exit_status, no_words_end, words_end, IsRefusalEnd};
ghost use Rattle.tape_tool.specs.Ends.{end_of, check_end, extract_end, stage_end};

use crate::build_note::print_note;
use crate::check::check;
use crate::command_line::{Order, call_of, error_in};
use crate::command_spec::CommandSpec;
use crate::convert::convert_image;
use crate::explain::{FaultSite, explain_missing, report_fault};
use crate::extract::extract;
use crate::fault::{FileFault, OUT_OF_MEMORY, ToolFault};
use crate::help;
use crate::init::init;
use crate::list::list;
use crate::merge::merge;
use crate::refusal::Refusal;
use crate::relabel::LabelPlans;
use crate::salvage::salvage;
use crate::screen::{Host, Line, Progress, Screen};
use crate::show::show;
use crate::stage::show::StageEnding;
use crate::stage::stage;
use crate::uncounted::Uncounted;
use crate::unpack::unpack;
use crate::write::run::write;
use clap::error::ErrorKind;
use std::cell::Cell;
use std::env::{Env, FillError};
use std::fs::File;
use std::os::fd::AsRawFd;
use std::{env, fmt, io};
use tape_run::EngineFault;
use tape_set::Want;

/// The end of a run of the program.
#[derive(Clone, Copy, PartialEq, Eq)]
pub enum End {
    /// The program did what was asked, or printed help.
    Done,
    /// A fault occurred, which is reported on one line.
    Faulted(ToolFault),
    /// The command line is invalid.
    WrongWords,
    /// The program did what was asked, but something is missing.
    Incomplete,
    /// Standard output is a pipe that its reader has closed, so the run ended early.
    Closed,
}

impl End {
    /// Returns the exit status.
    pub fn status(&self) -> u8
        ensures { result ≡ exit_status self.now }
    {
        match self {
            End::Done => 0,
            End::Faulted(_) => 1,
            End::WrongWords => 2,
            End::Incomplete => 3,
            End::Closed => 141,
        }
    }
}

/// Returns how a command with the result `done` ends.
pub fn end_of(done: Result<(), ToolFault>) -> End
    ensures { result ≡ end_of done }
{
    match done {
        Ok(()) => End::Done,
        Err(fault) => End::Faulted(fault),
    }
}

/// Returns how a check ends, given whether it found all sections.
pub fn check_end(checked: Result<bool, EngineFault>) -> End
    ensures { result ≡ check_end checked }
{
    match checked {
        Ok(true) => End::Done,
        Ok(false) => End::Incomplete,
        Err(fault) => End::Faulted(ToolFault::from(fault)),
    }
}

/// Returns how `extract` ends, given the part of the file that is still missing, if any.
pub fn extract_end(answer: Result<Option<Want>, EngineFault>) -> End
    ensures { result ≡ extract_end answer }
{
    match answer {
        Ok(None) => End::Done,
        Ok(Some(_)) => End::Incomplete,
        Err(fault) => End::Faulted(ToolFault::from(fault)),
    }
}

/// Returns how `stage` ends: with success only if nothing is missing or damaged.
pub fn stage_end(answer: Result<StageEnding, ToolFault>) -> End
    ensures { result ≡ stage_end answer }
{
    match answer {
        Ok(StageEnding::Whole(None)) => End::Done,
        Ok(_) => End::Incomplete,
        Err(fault) => End::Faulted(fault),
    }
}

/// Returns how a run ends for which the argument parser has only a text, given whether the text was
/// printed.
pub fn words_end(kind: ErrorKind, printed: bool) -> End
    ensures { result ≡ words_end kind printed }
{
    match kind {
        ErrorKind::OutOfMemory => End::Faulted(OUT_OF_MEMORY),
        ErrorKind::DisplayHelp | ErrorKind::DisplayVersion if printed => End::Done,
        ErrorKind::DisplayHelp | ErrorKind::DisplayVersion => {
            End::Faulted(ToolFault::File(FileFault::WriteFailed))
        }
        _ => End::WrongWords,
    }
}

/// Returns how a run ends that could not get its arguments, because memory ran out or an argument
/// is not text.
pub fn no_words_end(kind: io::ErrorKind) -> End
    ensures { result ≡ no_words_end kind }
{
    match kind {
        io::ErrorKind::OutOfMemory => End::Faulted(OUT_OF_MEMORY),
        _ => End::WrongWords,
    }
}

/// The end of a run whose output could not be written.
const CANNOT_WRITE: End = End::Faulted(ToolFault::File(FileFault::WriteFailed));

/// Runs the program, reports a fault, and returns the exit status. The line that shows progress is
/// printed only if standard error is a terminal, and explanations are printed there unless they are
/// declined. If the reader of standard output has closed its pipe, nothing is reported.
pub fn run_on<R: Host>(rt: &R, is_terminal: bool) -> u8 {
    let line = Cell::new(Line::new(rt, is_terminal));
    let uncounted = &Uncounted::new(rt.alloc());
    let plans = &LabelPlans::new(rt.alloc());
    let screen = &Screen {
        rt,
        line: &line,
        uncounted,
        plans,
    };
    // These files stay open until the run ends.
    let kept = keep_numbers(rt);
    let words = match &kept {
        Ok(_) => words_of(screen),
        Err(fault) => Err(End::Faulted(*fault)),
    };
    let (end, explained) = match &words {
        Ok(words) => perform(screen, words.as_slice(), is_terminal),
        Err(end) => (*end, None),
    };
    if end == CANNOT_WRITE && line.get().is_closed {
        return End::Closed.status();
    }
    if let End::Faulted(fault) = end {
        report_fault(screen, fault, explained);
    }
    screen.clear();
    end.status()
}

/// The number of standard error, the last standard stream.
const LAST: i32 = 2;

/// The error number of a process that has reached its limit of open files.
const EMFILE: i32 = 24;

/// Keeps files open under the numbers of closed standard streams. Otherwise the next file to be
/// opened would get such a number, and would receive the program's output.
///
/// As on a closed stream, nothing is read from these files, and writing to them fails.
///
/// # Errors
///
/// Returns `File` with `NotOpened` if no file can be opened although a number is free, or
/// `OUT_OF_MEMORY`.
fn keep_numbers<R: Host>(rt: &R) -> Result<Vec<File>, ToolFault> {
    let mut kept = Vec::new(rt.alloc());
    for _ in 0..=LAST {
        // A directory has no bytes to read. If the root directory may not be read, a device that
        // accepts no bytes and returns none takes its place.
        match File::open(rt, "/").or_else(|_| File::open(rt, "/dev/null")) {
            Ok(file) if file.as_raw_fd() > LAST => break,
            Ok(file) => kept.push(file).map_err(|_| OUT_OF_MEMORY)?,
            // No number is free, so no other file can get one of these.
            Err(error) if error.raw_os_error() == Some(EMFILE) => break,
            Err(_) => return Err(ToolFault::File(FileFault::NotOpened)),
        }
    }
    Ok(kept)
}

/// Returns the arguments of the command line, beginning with the program's name. If they cannot be
/// obtained, returns how the run ends.
fn words_of<R: Progress>(rt: &R) -> Result<Vec<String>, End>
    ensures { IfErr result (λ end. end ≢ End.Done) }
{
    match env::args(rt.host()) {
        Ok(words) => words
            .collect(rt.alloc())
            .map_err(|_| End::Faulted(OUT_OF_MEMORY)),
        Err(error) => {
            let end = no_words_end(error.kind());
            if end != End::WrongWords {
                return Err(end);
            }
            let _ = rt.eprint(help::NO_TEXT);
            // The first argument that is not UTF-8 is printed, unless it is longer than the buffer.
            let mut room = [0; 4096];
            for number in 1..usize::MAX {
                match rt.host().arg(number, &mut room) {
                    Ok(len) if str::from_utf8(&room[..len]).is_ok() => {}
                    Ok(len) => {
                        let bytes = &room[..len];
                        let _ = rt.eprint(OddWord { number, bytes });
                        break;
                    }
                    Err(FillError::NotPresent) => break,
                    Err(_) => {}
                }
            }
            Err(end)
        }
    }
}

/// The line for an argument that is not UTF-8: its number, from 1, and its bytes.
#[derive(Clone, Copy, Drop)]
struct OddWord<'a> {
    number: usize,
    bytes: &'a [u8],
}

impl fmt::Display for OddWord<'_> {
    fn fmt<W: fmt::Write>(&self, f: &mut fmt::Formatter<W>) -> fmt::Result {
        write!(f, "  word {}: ", self.number)?;
        for byte in self.bytes {
            match *byte {
                b'\\' => f.write_str("\\\\")?,
                b' '..=b'~' => f.write_char(char::from(*byte))?,
                byte => write!(f, "\\x{byte:02X}")?,
            }
        }
        f.write_str("\n")
    }
}

/// Executes a command line, whose first argument is the program's name. Returns how the run ends,
/// and the site of a fault if it is to be explained.
fn perform<'a, R: Progress>(
    rt: &R,
    words: &'a [String],
    is_terminal: bool,
) -> (End, Option<FaultSite<'a>>) {
    let call = match call_of(rt.alloc(), words) {
        Ok(call) => call,
        Err(error) => return (refuse(rt, &error), None),
    };
    let requested = is_requested(rt.host(), call.explained);
    let explained = requested.unwrap_or(is_terminal);
    // Names before the lines of a run that succeeds are printed on request only.
    let names = requested == Some(true);
    let (mut site, mut awaited) = (FaultSite::Unknown, None);
    let end = match execute(rt, &call.order, names, &mut awaited, &mut site) {
        Ok(end) => end,
        Err(refusal) => end_refused(rt, call.spec, refusal),
    };
    if explained && end == End::Incomplete {
        explain_missing(rt, &call.order, awaited);
    }
    (end, explained.then_some(site))
}

/// Returns whether explanations are requested or declined: by the command line, which says
/// `explained`, otherwise by the environment.
fn is_requested<R: Host>(rt: &R, explained: Option<bool>) -> Option<bool> {
    if explained.is_some() {
        return explained;
    }
    match env::var(rt, "TAPE_EXPLAIN") {
        Ok(value) if !value.as_str().is_empty() => Some(value.as_str() != "0"),
        _ => None,
    }
}

/// Executes a command. If `names`, `extract` names each image before it is read; `awaited` is then
/// the part of the file that it expects next. On error, `site` says where it occurred.
fn execute<'a, R: Progress>(
    rt: &R,
    order: &Order<'a>,
    names: bool,
    awaited: &mut Option<Want>,
    site: &mut FaultSite<'a>,
) -> Result<End, Refusal> {
    match order {
        Order::List(order) => list(rt, *order, site),
        Order::Show(order) => show(rt, order, site),
        Order::Init(order) => Ok(end_of(init(rt, order, site))),
        Order::Check(named, form, relabels) => check(rt, named, *form, relabels, site),
        Order::Write(order) => write(rt, order, site),
        Order::Extract(order) => extract(rt, order, names, awaited, site),
        Order::Unpack(order) => unpack(rt, order, site),
        Order::Salvage(order) => salvage(rt, order, site),
        Order::Stage(order) => stage(rt, order, site),
        Order::Merge(order) => merge(rt, order, site),
        Order::Convert(order) => convert_image(rt, *order, site),
    }
}

/// Prints the text of the argument parser: help to standard output, a usage error to standard
/// error. How the program was built follows its version.
fn refuse<R: Progress>(rt: &R, error: &clap::Error) -> End
    ensures { (printed : Bool) × (result ≡ words_end (kind_of error.now) printed) }
{
    let kind = error.kind();
    // Out of memory is a fault, and is reported on the line of a fault.
    let printed = kind != ErrorKind::OutOfMemory
        && error.print(rt).is_ok()
        && (kind != ErrorKind::DisplayVersion || print_note(rt).is_ok());
    words_end(kind, printed)
}

/// Ends a run whose command is refused for the reason `refusal`.
fn end_refused<R: Progress>(rt: &R, spec: &CommandSpec, refusal: Refusal) -> End
    ensures { IsRefusalEnd refusal result }
{
    match refusal {
        Refusal::Faulted(fault) => End::Faulted(fault),
        _ => refuse(rt, &error_in(rt.alloc(), spec, "", refusal)),
    }
}
