//! The list of the checksums of files, as `sha256sum` prints it and reads it.
ghost use Rattle.std.specs.Prelude.{◌≡◌, ◌++◌, [], IfOk, IfSome, OnOk};
ghost use Rattle.tape_tool.specs.Sums.{escaped_byte, sum_line, sums_text, with_sum};

use indexmap::IndexMap;
use std::alloc::{AllocError, Global};

/// The checksums of files, by their names, in the order in which they were added.
#[derive(Drop)]
pub struct Sums {
    pub(crate) sums: IndexMap<Vec<u8>, [u8; 32]>,
}

/// Appends a byte of a name.
fn put_byte(text: &mut Vec<u8>, byte: u8) -> Result<(), AllocError>
    ensures { OnOk result (text.new.items ≡ text.old.items ++ escaped_byte byte) }
{
    match byte {
        b'\\' => text.extend_from_slice(b"\\\\")?,
        b'\n' => text.extend_from_slice(b"\\n")?,
        b'\r' => text.extend_from_slice(b"\\r")?,
        _ => text.push(byte)?,
    }
    Ok(())
}

/// Appends the line of a file.
fn put_line(
    alloc: Global,
    text: &mut Vec<u8>,
    name: &[u8],
    sum: &[u8; 32],
) -> Result<(), AllocError>
    ensures { OnOk result (text.new.items ≡ text.old.items ++ sum_line name.now sum.now) }
{
    let mut shown = Vec::new(alloc);
    for byte in name {
        put_byte(&mut shown, *byte)?;
    }
    if shown.len() != name.len() {
        text.push(b'\\')?;
    }
    let digits = hex::encode(alloc, sum.as_slice())?;
    text.extend_from_slice(digits.as_bytes())?;
    text.extend_from_slice(b"  ")?;
    text.extend_from_slice(shown.as_slice())?;
    text.push(b'\n')?;
    Ok(())
}

/// Returns the name in a line without its line feed, and its checksum in `sum`, if it has both.
/// Escapes are replaced whether or not the line is marked as having some.
fn read_line(
    alloc: Global,
    line: &[u8],
    sum: &mut [u8; 32],
) -> Result<Option<Vec<u8>>, AllocError> {
    let rest = line.strip_prefix(b"\\").unwrap_or(line);
    let Some((digits, rest)) = rest.split_at_checked(64) else {
        return Ok(None);
    };
    let Some(shown) = rest.strip_prefix(b"  ") else {
        return Ok(None);
    };
    if shown.is_empty() || hex::decode_to_slice(digits, sum).is_err() {
        return Ok(None);
    }
    let mut name = Vec::new(alloc);
    let mut is_escape = false;
    for byte in shown {
        let (was_escape, byte) = (is_escape, *byte);
        is_escape = byte == b'\\' && !was_escape;
        match byte {
            b'\\' if !was_escape => {}
            b'n' if was_escape => name.push(b'\n')?,
            b'r' if was_escape => name.push(b'\r')?,
            byte => name.push(byte)?,
        }
    }
    Ok(if str::from_utf8(name.as_slice()).is_ok() {
        Some(name)
    } else {
        None
    })
}

impl Sums {
    /// Creates an empty list.
    pub fn new(alloc: Global) -> Sums
        ensures { sums_text result.sums.entries ≡ [] }
    {
        Sums {
            sums: IndexMap::new(alloc),
        }
    }

    /// Returns the text of the list.
    pub fn text(&self, alloc: Global) -> Result<Vec<u8>, AllocError>
        ensures { IfOk result (λ text. text.items ≡ sums_text self.now.sums.entries) }
    {
        let mut text = Vec::new(alloc);
        for (name, sum) in &self.sums {
            put_line(alloc, &mut text, name.as_slice(), sum)?;
        }
        Ok(text)
    }

    /// Returns the list that has this text. Returns `None` if no list has it.
    pub fn of(alloc: Global, text: &[u8]) -> Result<Option<Sums>, AllocError>
        ensures { IfOk result (λ found.
            IfSome found (λ sums. sums_text sums.sums.entries ≡ text.now)) }
    {
        let mut sums = Sums::new(alloc);
        let mut sum = [0; 32];
        for line in text.split(|byte| *byte == b'\n') {
            if line.is_empty() {
                continue;
            }
            match read_line(alloc, line, &mut sum)? {
                Some(name) => sums.add(name, sum)?,
                None => return Ok(None),
            }
        }
        // Reading accepts more than what is written.
        let written = sums.text(alloc)?;
        Ok(if written.as_slice() == text {
            Some(sums)
        } else {
            None
        })
    }

    /// Adds a file, or replaces its checksum.
    pub fn add(&mut self, name: Vec<u8>, sum: [u8; 32]) -> Result<(), AllocError>
        ensures { OnOk result
            (self.new.sums.entries ≡ with_sum self.old.sums.entries name sum) }
    {
        self.sums.insert(name, sum).map_err(|_| AllocError)?;
        Ok(())
    }

    /// Returns whether the list has a file of this name.
    pub fn has(&self, name: &[u8]) -> bool {
        self.sums.contains_key(name)
    }
}
