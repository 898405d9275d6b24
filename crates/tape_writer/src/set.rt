//! The writer of a file set.

ghost use Rattle.std.specs.Prelude.{◌≡◌, ◌<◌, ◌≤◌, [], length, IfOk, IfErr, IsOk, Err};
ghost use Rattle.std.specs.List.{AllByRecursion};
ghost use Rattle.tape_writer.specs.{Tapes.Ended, Fields.IsText, Fields.IsTextVolume};
ghost use Rattle.tape_writer.specs.{State.IsWriting, State.HasAsked, Refusals.IsNewFault};

mod begin;
mod write;

use crate::course::{Course, Opened};
use crate::fault::WriteFault;
use crate::fields::{are_text_volumes, is_text, tell_all_widths};
use crate::out::TapeOut;
use crate::phase::Phase;
use crate::tape::Tape;
use std::alloc::Global;
use std::marker::Model;
use tape_label::{Field, Vol1};

/// The maximum number of volumes of a set: labels have four digits for a section's number.
const MOST_VOLUMES: usize = 9_999;

/// Writes a file set on volumes of one capacity, from the first record to the end of the last
/// volume (ECMA-13, 4th edition: the order of labels and tape marks on volumes, file sections).
///
/// The caller begins each file, puts its records, and ends it, one file after another. The writer
/// writes all labels, packs the records into blocks, and changes the volume if a block or the
/// end-of-file labels do not fit. It keeps one block in memory, and the heads and shapes of the
/// files that have ended.
///
/// Its contracts guarantee that the volumes are those of a valid file set: its files, in order,
/// have the given heads and shapes and contain exactly the given records, and a new block or volume
/// begins only if the next item does not fit. No volume is longer than the capacity, including its
/// end-of-medium marker, and no call changes a volume that has ended.
#[derive(Drop)]
pub struct SetWriter<T: TapeOut + Drop> {
    alloc: Global,
    volumes: Vec<Vol1>,
    capacity: u32,
    set_id: Field<6>,
    files: Vec<Opened>,
    phase: Phase,
    tape: Tape<T>,
}

impl<T: TapeOut + Drop> Model for SetWriter<T> {
    ghost use Rattle.tape_writer.specs.State.{SetState, IsSound};

    ghost Value = { SetState T };

    ghost view = { λ w. record {
      out = w.tape.out;
      volumes = w.volumes.items;
      capacity = w.capacity;
      set_id = w.set_id;
      files = w.files.items;
      course = w.tape.course;
      phase = w.phase;
    } };

    ghost invariant = { λ w. IsSound w.volumes.items w.capacity w.tape.course w.phase };
}

/// The fault because of which no writer was created, and the output that was passed.
#[derive(Drop)]
pub struct RefusedWriter<T: TapeOut + Drop> {
    pub fault: WriteFault,
    pub out: T,
}

impl<T: TapeOut + Drop> SetWriter<T> {
    ghost use Rattle.tape_writer.specs.declared.phase.Phase.TheVariants.{Between};

    /// Creates a writer for the set `set_id` on `volumes`, in order, each an image of at most
    /// `capacity` bytes. Does not allocate, and writes nothing. `out` must not contain a volume
    /// yet.
    ///
    /// # Errors
    ///
    /// Returns `BadField` if the set identifier, or a field of a volume other than its version,
    /// contains a byte that is not an a-character; `OutOfVolumes` if there are no volumes;
    /// `TooMany` if there are more than 9,999. A refusal returns `out`, and drops the labels.
    pub fn new(
        alloc: Global,
        set_id: Field<6>,
        volumes: Vec<Vol1>,
        capacity: u32,
        out: T,
    ) -> Result<Self, RefusedWriter<T>>
        ensures field { (IsText set_id × AllByRecursion IsTextVolume volumes.items → ⊥)
            → result ≡ Err (record { fault = WriteFault.BadField; out = out }) }
        ensures none { IsText set_id → AllByRecursion IsTextVolume volumes.items
            → length volumes.items ≡ 0
            → result ≡ Err (record { fault = WriteFault.OutOfVolumes; out = out }) }
        ensures many { IsText set_id → AllByRecursion IsTextVolume volumes.items
            → 9999 < length volumes.items
            → result ≡ Err (record { fault = WriteFault.TooMany; out = out }) }
        ensures ok { IsText set_id → AllByRecursion IsTextVolume volumes.items
            → 0 < length volumes.items → length volumes.items ≤ 9999 → IsOk result }
        ensures due { IfErr result (λ refused. IsNewFault set_id volumes.items refused.fault) }
        ensures back { IfErr result (λ refused. refused.out ≡ out) }
        ensures made { IfOk result (λ w. w ≡ record {
          out = out;
          volumes = volumes.items;
          capacity = capacity;
          set_id = set_id;
          files = [];
          course = record { volume = 0; sect = 0; count = 0; used = 0 };
          phase = Between;
        }) }
        // No file was passed yet.
        ensures told { T.holds out (Ended []) → IfOk result (λ w. IsWriting (T.holds w.out) w []) }
        ensures asked { IfOk result (λ w. HasAsked T.TapeOut w) }
    {
        if !is_text(set_id.bytes()) || !are_text_volumes(&volumes) {
            let fault = WriteFault::BadField;
            return Err(RefusedWriter { fault, out });
        }
        if volumes.is_empty() {
            let fault = WriteFault::OutOfVolumes;
            return Err(RefusedWriter { fault, out });
        }
        if volumes.len() > MOST_VOLUMES {
            let fault = WriteFault::TooMany;
            return Err(RefusedWriter { fault, out });
        }
        tell_all_widths(&volumes);
        let course = Course {
            volume: 0,
            sect: 0,
            count: 0,
            used: 0,
        };
        Ok(SetWriter {
            alloc,
            volumes,
            capacity,
            set_id,
            files: Vec::new(alloc),
            phase: Phase::Between,
            tape: Tape { out, course },
        })
    }

    /// Returns the size of the current or last volume as an image so far, in bytes. The size is 0
    /// before the first file, includes the end-of-medium marker after `finish`, and is the number
    /// of bytes accepted after a failure.
    pub fn used(&self) -> u32
        ensures { result ≡ self.now.course.used }
    {
        self.tape.course.used
    }

    /// Borrows the output.
    pub fn out(&self) -> &T
        ensures { result.now ≡ self.now.out }
    {
        &self.tape.out
    }

    /// Returns the output.
    pub fn into_out(self) -> T
        ensures { result ≡ self.out }
    {
        let SetWriter { tape, .. } = self;
        let Tape { out, .. } = tape;
        out
    }
}
