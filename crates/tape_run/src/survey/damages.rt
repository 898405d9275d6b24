//! The part of a survey about the damaged sections on an image.
ghost use Rattle.std.specs.Prelude.{◌≡◌, IfOk, Some, string_bytes};
ghost use Rattle.tape_run.specs.SurveyLine.{damage_text, damaged_text, damages_text, dispute_text};

use crate::section::{SectionKey, SectionLine, SectionState};
use std::alloc::{AllocError, Global};
use std::fmt;

/// Returns the fault of a section in the given state.
pub(super) fn damage_text(state: SectionState) -> &'static str
    ensures { result.now ≡ damage_text state }
{
    match state {
        SectionState::Good => "is good",
        SectionState::Bad => "has unreadable blocks",
        SectionState::Count => "has a wrong block count",
        SectionState::Cut => "is truncated",
    }
}

/// A damaged section.
#[derive(Clone, Copy)]
struct DamagedText<'a>(&'a str, &'a SectionLine);

impl fmt::Display for DamagedText<'_> {
    ghost output = { λ text. Some (damaged_text text.0.now text.1.now) };

    fn fmt<W: fmt::Write>(&self, f: &mut fmt::Formatter<W>) -> fmt::Result {
        let (between, line) = (self.0, self.1);
        let (file, sect, blocks) = (line.file, line.sect, line.blocks);
        let damage = damage_text(line.state);
        write!(
            f,
            "{between}section {sect} of file {file} {damage}, blocks found: {blocks}"
        )
    }
}

/// The damaged sections on an image.
#[derive(Clone, Copy)]
pub(super) struct DamagesText<'a>(pub(super) &'a str, pub(super) &'a [SectionLine]);

impl fmt::Display for DamagesText<'_> {
    ghost output = { λ text. Some (damages_text text.0.now text.1.now) };

    fn fmt<W: fmt::Write>(&self, f: &mut fmt::Formatter<W>) -> fmt::Result {
        for line in self.1 {
            let text = DamagedText(self.0, line);
            write!(f, "{text}")?;
        }
        Ok(())
    }
}

/// Returns the section on an image whose complete copies differ, if any, after the text `between`.
pub(super) fn dispute_text(
    alloc: Global,
    between: &str,
    dispute: Option<SectionKey>,
) -> Result<String, AllocError>
    ensures { IfOk result (λ text. string_bytes text ≡ dispute_text between.now dispute) }
{
    let Some(SectionKey { file, sect, .. }) = dispute else {
        return Ok(String::new(alloc));
    };
    format!(in alloc; "{between}section {sect} of file {file}: good copies differ")
}
