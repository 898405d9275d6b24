//! The survey of images.

ghost use Rattle.std.specs.Prelude.{◌≡◌, map, string_bytes, length, IfOk};
ghost use Rattle.tape_c.specs.Surveyed.{Opens, SurveysInto, SurveysTo, numbers_to, bytes_of};

use crate::end::{ALL, End, NO_MEMORY, give, give_nothing};
use std::alloc::{AllocError, Global};
use std::marker::Model;
use tape_run::{EngineFault, ImageSource, Wording, survey_to};

/// The state of a survey that was given completely, and says that something is missing.
const MISSING: u32 = 8;

/// An image in memory.
#[repr(C)]
#[derive(Clone, Copy)]
pub struct Image<'a> {
    /// Its bytes.
    pub bytes: &'a [u8],
}

/// Images that are opened by their numbers, any number of times.
#[derive(Drop)]
struct Shelf<'a> {
    images: &'a [Image<'a>],
}

impl<'a> Model for Shelf<'a> {
    ghost use Rattle.std.specs.Prelude.{List, ℕ};
    ghost use Rattle.tape_c.specs.Surveyed.{bytes_of};

    ghost Value = { List (List ℕ) };

    ghost view = { λ shelf. bytes_of shelf.images.now };
}

impl<'a> ImageSource<&'a [u8]> for Shelf<'a> {
    ghost size = { λ shelf. length shelf };

    ghost gives = { Opens };

    fn count(&self) -> usize {
        self.images.len()
    }

    fn mount(&mut self, number: usize) -> Result<Option<&'a [u8]>, AllocError> {
        match self.images.get(number) {
            Some(image) => Ok(Some(image.bytes)),
            None => Ok(None),
        }
    }
}

/// Writes the rows that `tape survey --tsv` prints for images to `out`. The images are read as they
/// are, not in normal form, and have their numbers as names, counted from 1.
///
/// Allocates what `survey_to` does, and the names.
#[unsafe(no_mangle)]
pub extern "C" fn tape_survey<'a>(alloc: Global, images: &'a [Image<'a>], out: &mut [u8]) -> End
    ensures { SurveysInto (bytes_of images.now) out.old out.new result }
{
    let mut text = Vec::new(alloc);
    match survey(alloc, images, &mut text) {
        Ok(true) => give(text.as_slice(), out, 0, ALL),
        Ok(false) => give(text.as_slice(), out, 0, MISSING),
        Err(_) => give_nothing(NO_MEMORY),
    }
}

/// Appends the rows to `text`, and returns whether all is well.
fn survey<'a>(
    alloc: Global,
    images: &'a [Image<'a>],
    text: &mut Vec<u8>,
) -> Result<bool, EngineFault>
    ensures { IfOk result (SurveysTo (bytes_of images.now) text.old.items text.new.items) }
{
    let names = numbers_to(alloc, images.len())?;
    let words = words_of(alloc, names.as_slice())?;
    let mut shelf = Shelf { images };
    survey_to(alloc, &mut shelf, words.as_slice(), Wording::Rows, text)
}

/// Returns the numbers from 1 to `last` as texts.
fn numbers_to(alloc: Global, last: usize) -> Result<Vec<String>, AllocError>
    ensures { IfOk result (λ names. map string_bytes names.items ≡ numbers_to last) }
{
    let mut names = Vec::new(alloc);
    for number in 0..last {
        names.push(format!(in alloc; "{}", number + 1)?)?;
    }
    Ok(names)
}

/// Returns the texts as they are lent by `texts`.
fn words_of<'a>(alloc: Global, texts: &'a [String]) -> Result<Vec<&'a str>, AllocError>
    ensures { IfOk result (λ words. map (λ w. w.now) words.items ≡ map string_bytes texts.now) }
{
    let mut words = Vec::new(alloc);
    for text in texts {
        words.push(text.as_str())?;
    }
    Ok(words)
}
