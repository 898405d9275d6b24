//! The found files that are to be unpacked.
ghost use Rattle.std.specs.Prelude.{◌≡◌, ◌≢◌, ◌↔◌, ◌∷◌, ℕ, List, IsTrue, IfSome, IfNone};
ghost use Rattle.tape_run.specs.UnpackChoice.{Fits, Means, IsOfSet, Chosen};

use super::SetFile;
use crate::text::{put_decimal, put_trimmed};
use arrayvec::ArrayVec;
use tape_label::Field;

/// The files that are chosen: of one set or of all sets, and of these sets all files, or those that
/// some words mean.
#[derive(Clone, Copy)]
pub struct FileChoice<'a> {
    /// The set, or `None` for all sets.
    pub set_id: Option<Field<6>>,
    /// Words that mean files: a number, or a name in which `*` represents any characters. An empty
    /// list means every file.
    pub words: &'a [&'a str],
}

impl FileChoice<'_> {
    /// Returns whether a file is chosen.
    pub fn chooses(&self, file: &SetFile) -> bool
        ensures { IsTrue result ↔ Chosen self.now file.now }
    {
        is_of_set(self.set_id, file)
            && (self.words.is_empty() || self.words.iter().any(|word| means(word, file)))
    }
}

/// Returns whether a file belongs to this set, if a set is named.
pub fn is_of_set(set_id: Option<Field<6>>, file: &SetFile) -> bool
    ensures { IsTrue result ↔ IsOfSet set_id file.now }
{
    match set_id {
        Some(set_id) => file.set_id == set_id,
        None => true,
    }
}

/// Returns whether a word means this file: the word is the file's number, or a pattern that the
/// file's name fits; `*` represents any characters.
pub fn means(word: &str, file: &SetFile) -> bool
    ensures { IsTrue result ↔ Means word.now file.now }
{
    let mut number = ArrayVec::<u8, 20>::new();
    put_decimal(&mut number, u64::from(file.file));
    let mut name = ArrayVec::<u8, 17>::new();
    put_trimmed(&mut name, &file.file_id);
    word.as_bytes() == number.as_slice() || fits(word.as_bytes(), &name)
}

/// Returns the rest of a pattern after its first character, if that is a `*`.
fn after_star(pattern: &[u8]) -> Option<&[u8]>
    ensures some { IfSome result (λ others. pattern.now ≡ 42 ∷ others.now) }
    ensures none { IfNone result ((others : List ℕ) → pattern.now ≢ 42 ∷ others) }
{
    match pattern.split_first() {
        Some((first, others)) if *first == b'*' => Some(others),
        _ => None,
    }
}

/// Returns the rests of a pattern and of a word after their first characters, if these are equal.
fn after_same<'a>(pattern: &'a [u8], word: &'a [u8]) -> Option<(&'a [u8], &'a [u8])>
    ensures some { IfSome result (λ rests. (c : ℕ) × (pattern.now ≡ c ∷ rests.0.now)
        × (word.now ≡ c ∷ rests.1.now)) }
    ensures none { IfNone result ((c : ℕ) (others rest : List ℕ) → pattern.now ≡ c ∷ others
        → word.now ≢ c ∷ rest) }
{
    let (first, others) = pattern.split_first()?;
    let (byte, rest) = word.split_first()?;
    if first == byte {
        Some((others, rest))
    } else {
        None
    }
}

/// Returns whether a word fits a pattern, in which each `*` represents any characters.
fn fits(pattern: &[u8], word: &[u8]) -> bool
    ensures { IsTrue result ↔ Fits pattern.now word.now }
{
    let (mut left, mut rest) = (pattern, word);
    // The pattern after the last `*`, and the rest of the word that it is compared with.
    let mut after = pattern;
    let mut from: &[u8] = &[];
    'characters: loop {
        if let Some(others) = after_star(left) {
            left = others;
            after = others;
            from = rest;
        } else if let Some((others, bytes)) = after_same(left, rest) {
            left = others;
            rest = bytes;
        } else if left.is_empty() && rest.is_empty() {
            return true;
        } else if let Some((_, bytes)) = from.split_first() {
            left = after;
            rest = bytes;
            from = bytes;
        } else {
            return false;
        }
    }
}
