//! The kind of a file that may not be a SIMH image, by its first bytes.
use crate::convert::{format_of, is_simh};
use crate::screen::Progress;
use crate::shown::Shown;
use std::alloc::Global;
use std::fs::File;
use std::io::Read;
use std::rt::Runtime;
use std::{fs, io};
use tape_run::{Container, KIND_BYTES, container_of, container_text};

/// Reads the first bytes of the file at `path`, and returns its kind. Returns `None` if the path
/// names no file that can be read twice.
pub fn kind_of<R: Runtime>(rt: &R, alloc: Global, path: &str) -> Option<Container> {
    if !fs::metadata(rt, path).ok()?.is_file() {
        return None;
    }
    let mut front = Vec::from_elem(alloc, 0u8, KIND_BYTES).ok()?;
    let count = read_front(rt, path, front.as_mut_slice())?;
    Some(container_of(front.as_slice().get(..count)?))
}

/// Reads the first bytes of the file at `path`, and returns their number.
fn read_front<R: Runtime>(rt: &R, path: &str, front: &mut [u8]) -> Option<usize> {
    File::open(rt, path).ok()?.read(front).ok()
}

/// Names on standard error the images of kinds that are not read, such as compressed ones, and the
/// programs that make SIMH images of them. Those that are read only in normal form are named if the
/// images were read as they are.
pub fn name_unread<R: Progress>(rt: &R, names: &[&str], as_they_are: bool) {
    for name in names {
        let kind = kind_of(rt.host(), rt.alloc(), *name).unwrap_or(Container::Unknown);
        let end = match format_of(kind) {
            None => "",
            Some(_) if as_they_are => ", or add --again",
            Some(_) => continue,
        };
        if !is_simh(kind) {
            let (name, text) = (Shown(*name), container_text(kind));
            let _ = rt.eprint(format_args!("  {name}: {text}{end}\n"));
        }
    }
}

/// Returns the error with which reading the file at `path` fails, if any. A pipe or a device is not
/// opened, since that might block.
pub fn unread<R: Runtime>(rt: &R, path: &str) -> Option<io::Error> {
    match fs::metadata(rt, path) {
        Ok(found) if found.is_file() || found.is_dir() => {
            File::open(rt, path)
                .and_then(|mut file| file.read(&mut [0]))
                .err()
        }
        Ok(_) => None,
        Err(error) => Some(error),
    }
}
