//! Checkpoints, the form of a file stored in them, and their valid values.

ghost use Rattle.std.specs.Prelude.{◌≡◌, ◌↔◌, ◌<◌, ◌≤◌, ◌-◌, ◌++◌, ℕ, true, false, length};
ghost use Rattle.std.specs.Prelude.{take, drop, is_some, IfSome, IsSome};
ghost use Rattle.tape_image.specs.Tape.{TapeItem};
ghost use Rattle.tape_blocks.specs.{Judged.begun_behind, Packing.longest_block};
ghost use Rattle.tape_set.specs.{Layout.FileSet, Before.before};
ghost use Rattle.tape_core.specs.Known.{PositionFits, StandFits, IsFileNumber, is_finished};
ghost use Rattle.tape_core.specs.Known.{most_staged, IsForm, may_span, known_of};
ghost use Rattle.tape_core.specs.{Range.in_range, Range.form_in_range, Point.point_of};

use std::marker::Model;
use tape_label::{Field, Format};
use tape_set::Position;

/// A position in the reading of a file, with the weight of the parts kept before it.
///
/// Invariant, which anyone who creates a checkpoint proves: its numbers are in range; the form of
/// the file is known exactly if the position is not the start of the file; a record is unfinished
/// only in formats S and V, and never at the end of the file.
#[derive(Clone, Copy, PartialEq, Eq)]
pub struct Checkpoint {
    /// The number of the file in its set, 1 to 9,999.
    pub file: u16,
    /// Whether a record is unfinished at the position.
    pub begun: bool,
    /// The weight of the parts before the position, at most 999,999,999,999,999: 5 for each part
    /// and 1 for each of its bytes.
    pub staged: u64,
    /// The identifier of the file set.
    pub set_id: Field<6>,
    /// The next part expected: a section from 1 to 9,999, and a part of at most 99,999; `None` at
    /// the end of the file.
    pub position: Position,
    /// The form of the file; `None` at the start of the file.
    pub known: Option<Known>,
}

// In contracts a checkpoint is the record of these six fields.
impl Model for Checkpoint {
    ghost use Rattle.tape_core.specs.Point.{Point, IsPoint, point_of};

    ghost Value = { Point };

    ghost view = { λ c. point_of c.set_id c.file c.position c.begun c.known c.staged };

    ghost invariant = { λ c. IsPoint
        (point_of c.set_id c.file c.position c.begun c.known c.staged) };

    ghost inverse = { λ p. record {
      set_id = p.set_id;
      file = p.file;
      position = p.position;
      begun = p.begun;
      known = p.known;
      staged = p.staged;
    } };
}

impl Checkpoint {
    ghost use Rattle.tape_core.specs.{Point.IsPoint, State.State, Follows.IsAt, Follows.Delivers};
    ghost use Rattle.tape_core.specs.Table.{saved};
    ghost use Rattle.tape_core.specs.Stands.{Stands, weight_of, inside_block};

    /// Returns the checkpoint with the given values, or `None` if they violate the invariant of the
    /// type.
    pub fn from_parts(
        set_id: Field<6>,
        file: u16,
        position: Position,
        begun: bool,
        known: Option<Known>,
        staged: u64,
    ) -> Option<Checkpoint>
        ensures value { IfSome result (λ point. point
            ≡ point_of set_id file position begun known staged) }
        ensures rules { IsSome result ↔ IsPoint (point_of set_id file position begun known staged) }
        // The result is this function of the arguments.
        ensures range { is_some result
            ≡ in_range (point_of set_id file position begun known staged) }
    {
        let place_fits = match position {
            Position::Awaits { sect, part, .. } => 1 <= sect && sect <= 9_999 && part <= 99_999,
            Position::Finished => !begun,
        };
        if !place_fits
            || file == 0
            || file > 9_999
            || known.is_some() == position.is_start()
            || begun && !may_span(&known)
            || staged > MOST_STAGED
        {
            return None;
        }
        Some(Checkpoint::of(set_id, file, position, begun, known, staged))
    }

    /// Returns the checkpoint with the given values, which must satisfy the invariant.
    pub(crate) fn of(
        set_id: Field<6>,
        file: u16,
        position: Position,
        begun: bool,
        known: Option<Known>,
        staged: u64,
    ) -> Checkpoint
        requires numbered { IsFileNumber file }
        requires stands { StandFits position begun known }
        requires light { staged ≤ most_staged }
        ensures { result ≡ point_of set_id file position begun known staged }
    {
        Checkpoint {
            file,
            begun,
            staged,
            set_id,
            position,
            known,
        }
    }

    /// Returns the position. The contract also states the invariant of the checkpoint.
    pub fn position(&self) -> Position
        ensures value { result ≡ self.now.position }
        ensures fits { IsPoint self.now }
    {
        self.position
    }

    /// Returns the checkpoint inside a block, if `self` is the checkpoint after that block. `p` is
    /// a position in the block, `part` the number of the block's parts that are kept, `staged` the
    /// weight of all parts kept, and `begun` says whether the last part kept leaves a record
    /// unfinished.
    pub fn inside_block(&self, p: Position, part: u32, begun: bool, staged: u64) -> Checkpoint
        requires numbers { PositionFits p }
        requires waits { is_finished p ≡ false }
        requires some { (1 ≤ part) × (part ≤ longest_block) }
        requires known { is_some self.now.known ≡ true }
        requires light { staged ≤ most_staged }
        ensures value { result ≡ inside_block self.now p part begun staged }
        // If the block was delivered, and exactly its first `part` parts are kept, the checkpoint
        // is valid.
        ensures stands { (set : FileSet) (old new : State) (item : TapeItem) (n : ℕ)
            → self.now ≡ saved new n → p ≡ old.position → IsAt set old
            → new.set_id ≡ set.set_id → new.file ≡ old.file
            → (d : Delivers set item old new) → d.part < part → part < length d.filled.parts
            → begun ≡ begun_behind old.begun (take (part - d.part) (drop d.part d.filled.parts))
            → staged ≡ weight_of (before set old.file old.position
            ++ take (part - d.part) (drop d.part d.filled.parts))
            → Stands set old.file result (before set old.file old.position
            ++ take (part - d.part) (drop d.part d.filled.parts)) }
    {
        // In a file of another format no record is ever unfinished, so callers need not know the
        // format.
        let begun = begun && may_span(&self.known);
        let position = p.at_part(part);
        Checkpoint::of(self.set_id, self.file, position, begun, self.known, staged)
    }
}

/// The form that all sections of a file share, as stated in their HDR1 and HDR2. Invariant, which
/// anyone who creates a value proves: its numbers are in range.
#[derive(Clone, Copy, PartialEq, Eq)]
pub struct Known {
    /// The record format.
    pub format: Format,
    /// The record length of format F, 1 to 99,999; 0 in the other formats, where readers ignore it.
    pub rec_len: u32,
    /// The number of characters before the first record of each block, 0 to 99.
    pub offset: u8,
    /// The file identifier.
    pub file_id: Field<17>,
}

// In contracts this is the form of the file.
impl Model for Known {
    ghost use Rattle.tape_set.specs.Lawful.{FileForm};
    ghost use Rattle.tape_core.specs.Known.{IsForm};

    ghost Value = { FileForm };

    ghost view = { λ k. record {
      file_id = k.file_id;
      format = k.format;
      rec_len = k.rec_len;
      offset = k.offset;
    } };

    ghost invariant = { λ k. IsForm k.format k.rec_len k.offset };

    ghost inverse = { λ f. record {
      format = f.format;
      rec_len = f.rec_len;
      offset = f.offset;
      file_id = f.file_id;
    } };
}

impl Known {
    /// Returns the form with the given values, or `None` if a value is out of range: the record
    /// length is 1 to 99,999 in format F and 0 in the other formats, and the offset is at most 99.
    pub fn from_parts(format: Format, rec_len: u32, offset: u8, file_id: Field<17>) -> Option<Known>
        ensures value { IfSome result (λ known. known ≡ known_of format rec_len offset file_id) }
        ensures rules { IsSome result ↔ IsForm format rec_len offset }
        // The result is this function of the arguments.
        ensures range { is_some result ≡ form_in_range (known_of format rec_len offset file_id) }
    {
        let fits = match format {
            Format::Fixed => 1 <= rec_len && rec_len <= 99_999,
            _ => rec_len == 0,
        };
        if !fits || offset > 99 {
            return None;
        }
        Some(Known {
            format,
            rec_len,
            offset,
            file_id,
        })
    }
}

/// The maximum weight of staged parts.
pub(crate) const MOST_STAGED: u64 = 999_999_999_999_999;

/// Returns whether the records of the file may continue in the next block.
pub(crate) fn may_span(known: &Option<Known>) -> bool
    ensures { result ≡ may_span known.now }
{
    match known {
        Some(known) => matches!(known.format, Format::Spanned | Format::Variable),
        None => false,
    }
}
