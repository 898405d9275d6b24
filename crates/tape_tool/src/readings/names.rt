//! The names of readings: the path of an image, and what is read of it.

use std::alloc::{AllocError, Global};

/// What follows the path in the name of an image of SIMH's extended format whose first bytes do not
/// show it.
const EXTENDED: &str = "\0";

/// Splits the name of a reading into the path of its image and the byte offset at which it begins.
/// The offset follows a NUL, which no path contains; without one the reading is the first.
pub fn place_in(name: &str) -> (&str, u64) {
    match name.split_once('\0') {
        Some((path, digits)) => (path, digits.parse::<u64>().unwrap_or(0)),
        None => (name, 0),
    }
}

/// Returns whether an image with this name is read as one of SIMH's extended format.
pub fn is_extended_name(name: &str) -> bool {
    name.ends_with(EXTENDED)
}

/// Renames the image at `path`, as one of SIMH's extended format.
pub fn name_extended(all: &mut [String], path: &str) -> Result<(), AllocError> {
    for name in all.iter_mut() {
        if name.as_str() == path {
            name.push_str(EXTENDED)?;
        }
    }
    Ok(())
}

/// Returns whether `all`, the names of the readings of `count` images, has others than those of the
/// images.
pub fn has_others(all: &[String], count: usize) -> bool {
    all.len() > count || all.iter().any(|name| is_extended_name(name.as_str()))
}

/// Returns copies of names.
pub fn own(alloc: Global, names: &[&str]) -> Result<Vec<String>, AllocError> {
    let mut all = Vec::new(alloc);
    for name in names {
        all.push(String::from_str(alloc, *name)?)?;
    }
    Ok(all)
}

/// Returns these names.
pub fn names_in<'n>(alloc: Global, all: &'n [String]) -> Result<Vec<&'n str>, AllocError> {
    let mut names = Vec::new(alloc);
    for name in all {
        names.push(name.as_str())?;
    }
    Ok(names)
}

/// Returns the number of the image of which the reading with number `number` is one.
pub fn image_of(names: &[&str], number: usize) -> usize {
    let Some(name) = names.get(number) else {
        return number;
    };
    let path = place_in(*name).0;
    names
        .iter()
        .position(|name| *name == path)
        .unwrap_or(number)
}

/// Returns the name of a reading as it is printed: that of its image, with `@` and the byte offset
/// at which it begins, unless that is 0.
pub fn printed_name(alloc: Global, name: &str) -> Result<String, AllocError> {
    match place_in(name) {
        (path, 0) => String::from_str(alloc, path),
        (path, start) => format!(in alloc; "{path}@{start}"),
    }
}

/// Returns the names of readings as they are printed.
pub fn printed_names(alloc: Global, names: &[String]) -> Result<Vec<String>, AllocError> {
    let mut printed = Vec::new(alloc);
    for name in names {
        printed.push(printed_name(alloc, name.as_str())?)?;
    }
    Ok(printed)
}
