//! The steps of a script other than runs: they create, change and check files.

use crate::image::{damage, example, payroll};
use std::alloc::Global;
use std::fs;
use std::fs::{OpenOptions, Permissions};
use std::os::unix;
use std::os::unix::fs::{MetadataExt, PermissionsExt};
use std::test::Fail;

/// A step, without its arguments.
#[derive(Clone, Copy)]
enum Step {
    Folder,
    Put,
    Fill,
    Link,
    Name,
    Remove,
    Allow,
    Cut,
    Worked,
    Front,
    Example,
    Spoil,
    Omit,
    Records,
    Missing,
    Has,
    At,
    Modified,
    New,
    Length,
    IsWorked,
    Allowed,
}

/// The words of the steps.
const STEPS: &[(&str, Step)] = &[
    ("folder", Step::Folder),
    ("put", Step::Put),
    ("fill", Step::Fill),
    ("link", Step::Link),
    ("name", Step::Name),
    ("remove", Step::Remove),
    ("allow", Step::Allow),
    ("cut", Step::Cut),
    ("worked", Step::Worked),
    ("front", Step::Front),
    ("damaged", Step::Example),
    ("lost", Step::Example),
    ("lost_damaged", Step::Example),
    ("first", Step::Example),
    ("first_damaged", Step::Example),
    ("second", Step::Example),
    ("second_file", Step::Example),
    ("ebcdic", Step::Example),
    ("booted", Step::Example),
    ("marked", Step::Example),
    ("unnamed", Step::Example),
    ("uncounted", Step::Example),
    ("own", Step::Example),
    ("again", Step::Example),
    ("twins", Step::Example),
    ("late", Step::Example),
    ("spoil", Step::Spoil),
    ("omit", Step::Omit),
    ("records", Step::Records),
    ("missing", Step::Missing),
    ("has", Step::Has),
    ("at", Step::At),
    ("modified", Step::Modified),
    ("new", Step::New),
    ("length", Step::Length),
    ("is_worked", Step::IsWorked),
    ("allowed", Step::Allowed),
];

/// Executes the step with this word and these arguments. Returns whether it had its expected
/// result, and false if there is no such step.
pub fn take(rt: &HostRuntime, word: &str, rest: &str) -> Result<bool, Fail> {
    for (name, step) in STEPS {
        if *name == word {
            return changes(rt, *step, word, rest);
        }
    }
    Ok(false)
}

/// Executes a step that creates or changes files.
fn changes(rt: &HostRuntime, step: Step, word: &str, rest: &str) -> Result<bool, Fail> {
    let (path, text) = rest.split_once(' ').unwrap_or((rest, ""));
    let number = text.parse::<usize>().unwrap_or(usize::MAX);
    match step {
        Step::Folder => Ok(rest.split(' ').all(|path| fs::create_dir(rt, path).is_ok())),
        Step::Put => put(rt, path, bytes_of(rt.alloc(), text)?.as_slice()),
        Step::Fill => fill(rt, path, text),
        Step::Link => Ok(unix::fs::symlink(rt, text, path).is_ok()),
        Step::Name => Ok(fs::hard_link(rt, text, path).is_ok()),
        Step::Remove => Ok(fs::remove_file(rt, path).is_ok()),
        Step::Allow => Ok(fs::set_permissions(rt, path, mode_of(text)).is_ok()),
        Step::Cut => {
            let file = OpenOptions::new().write(true).open(rt, path)?;
            Ok(file.set_len(number as u64).is_ok())
        }
        Step::Worked => {
            for path in rest.split(' ') {
                put_example(rt, path, word, 0)?;
            }
            Ok(true)
        }
        Step::Front => {
            let bytes = example(rt.alloc(), word, 0)?;
            put(rt, path, bytes.as_slice().get(..number).unwrap_or(&[]))
        }
        Step::Example => put_example(rt, path, word, number),
        Step::Spoil => put_damaged(rt, path, number, false),
        Step::Omit => put_damaged(rt, path, number, true),
        Step::Records => put(rt, path, payroll(rt.alloc())?.as_slice()),
        Step::Missing => Ok(rest.split(' ').all(|path| fs::read(rt, path).is_err())),
        step => is_found(rt, step, path, text),
    }
}

/// Executes a step that checks the file at `path`.
fn is_found(rt: &HostRuntime, step: Step, path: &str, text: &str) -> Result<bool, Fail> {
    let number = text.parse::<u64>().unwrap_or(u64::MAX);
    match step {
        Step::Has => holds(rt, path, bytes_of(rt.alloc(), text)?.as_slice()),
        Step::At => has_text(rt, path, text),
        Step::Modified => Ok(fs::metadata(rt, path)?.mtime().unsigned_abs() == number),
        Step::New => Ok(fs::metadata(rt, path)?.mtime() >= 978_307_200),
        Step::Length => Ok(fs::metadata(rt, path)?.len() == number),
        Step::IsWorked => holds(rt, path, example(rt.alloc(), "worked", 0)?.as_slice()),
        Step::Allowed => {
            let mode = fs::metadata(rt, path)?.permissions().mode() & 0o7777;
            Ok(mode == mode_of(text).mode())
        }
        _ => Ok(false),
    }
}

/// Creates a file with the example image, or with a variant of it: see `example`.
fn put_example(rt: &HostRuntime, path: &str, name: &str, bad: usize) -> Result<bool, Fail> {
    put(rt, path, example(rt.alloc(), name, bad)?.as_slice())
}

/// Makes item `number` of an image unreadable, or takes it out.
fn put_damaged(rt: &HostRuntime, path: &str, number: usize, is_lost: bool) -> Result<bool, Fail> {
    let bytes = fs::read(rt, path)?;
    let bytes = damage(rt.alloc(), bytes.as_slice(), number, is_lost)?;
    put(rt, path, bytes.as_slice())
}

/// Returns `text` with the bytes that it represents.
fn bytes_of(alloc: Global, text: &str) -> Result<Vec<u8>, Fail> {
    let mut bytes = Vec::new(alloc);
    for (number, part) in text.split('\\').enumerate() {
        let mut part = part;
        if let (Some(digits), Some(rest)) = (part.get(..2), part.get(2..))
            && number > 0
        {
            bytes.extend_from_slice(hex::decode(alloc, digits)?.as_slice())?;
            part = rest;
        }
        bytes.extend_from_slice(part.as_bytes())?;
    }
    Ok(bytes)
}

fn mode_of(text: &str) -> Permissions {
    Permissions::from_mode(u32::from_str_radix(text, 8).unwrap_or(0))
}

/// Writes `bytes` to the file at `path`, which is created if it does not exist. Returns true.
///
/// # Errors
///
/// Returns the system's error.
pub fn put(rt: &HostRuntime, path: &str, bytes: &[u8]) -> Result<bool, Fail> {
    fs::write(rt, path, bytes)?;
    Ok(true)
}

/// Creates a file with so many copies of a text as `text` says.
fn fill(rt: &HostRuntime, path: &str, text: &str) -> Result<bool, Fail> {
    let (count, piece) = text.split_once(' ').unwrap_or((text, ""));
    let piece = bytes_of(rt.alloc(), piece)?;
    let mut bytes = Vec::new(rt.alloc());
    for _ in 0..count.parse::<u32>().unwrap_or(0) {
        bytes.extend_from_slice(piece.as_slice())?;
    }
    put(rt, path, bytes.as_slice())
}

/// Returns whether the contents of the file at `path` are exactly `bytes`.
///
/// # Errors
///
/// Returns the system's error if the file cannot be read.
pub fn holds(rt: &HostRuntime, path: &str, bytes: &[u8]) -> Result<bool, Fail> {
    Ok(fs::read(rt, path)?.as_slice() == bytes)
}

/// Returns whether the file at `path` contains a text at an offset, as `text` says.
fn has_text(rt: &HostRuntime, path: &str, text: &str) -> Result<bool, Fail> {
    let (place, text) = text.split_once(' ').unwrap_or((text, ""));
    let place = place.parse::<usize>().unwrap_or(usize::MAX);
    let text = bytes_of(rt.alloc(), text)?;
    let bytes = fs::read(rt, path)?;
    let rest = bytes.as_slice().get(place..).unwrap_or(&[]);
    Ok(rest.starts_with(text.as_slice()))
}
