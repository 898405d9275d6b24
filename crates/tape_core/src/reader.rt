//! The reader of one file.

mod arrivals;
mod judging;
mod label_rules;
mod wide;

ghost use Rattle.std.specs.Prelude.{◌≡◌, ◌≤◌, ◌++◌, ◌∷◌, [], ℕ, List, Bool, Ok, Err, Some, None};
ghost use Rattle.std.specs.Prelude.{IsSome, IfOk, OnOk, OnErr, length, slice_get, if◌then◌else◌};
ghost use Rattle.std.specs.Prelude.{◌≢◌};
ghost use Rattle.tape_image.specs.Tape.{TapeItem, bad};
ghost use Rattle.tape_set.specs.Layout.{FileSet, nth, items, entries};
ghost use Rattle.tape_set.specs.{Before.before, Before.IsIn, Lawful.IsLawful};
ghost use Rattle.tape_set.specs.Reach.{far, passes};
ghost use Rattle.tape_set.specs.Position.{start, want_at, sect_of, block_of};
ghost use Rattle.tape_core.specs.State.{ToldFits, told};
ghost use Rattle.tape_core.specs.Table as Table;

use crate::checkpoint::{Checkpoint, Known};
use crate::event::{Answer, CoreFault, Event, Phase, Reason};
pub use crate::reader::judging::{goes_on_at, shape_of};
use std::marker::Model;
use tape_blocks::Shape;
use tape_label::{Field, same_field};
use tape_set::{Position, Want};

/// Reads one file of a set, item by item, from reels that are mounted in any order. Tracks the
/// position in the file. Does not allocate, and stores no bytes of records.
#[derive(Drop)]
pub struct ReaderCore {
    /// The identifier of the file set.
    set_id: Field<6>,
    /// The number of the file in its set.
    file: u16,
    /// The position: the next part expected.
    position: Position,
    /// Whether a record is unfinished at the position.
    begun: bool,
    /// The form of the file; `None` at the start of the file.
    known: Option<Known>,
    /// The items expected next on the reel.
    phase: Phase,
}

// In contracts a reader is the record of these six fields.
impl Model for ReaderCore {
    ghost use Rattle.tape_core.specs.State.{State, IsState};

    ghost Value = { State };

    ghost view = { λ c. record {
      set_id = c.set_id;
      file = c.file;
      position = c.position;
      begun = c.begun;
      known = c.known;
      phase = c.phase;
    } };

    ghost invariant = { λ c. IsState c.file c.position c.begun c.known c.phase };
}

impl ReaderCore {
    ghost use Rattle.tape_core.specs.Table as Table;
    ghost use Rattle.tape_core.specs.Follows.{reading, IsAt, IsReading, Kept, Idle, Checked};
    ghost use Rattle.tape_core.specs.{Arrive.arrival, Place.rest_of, Place.place_of};
    ghost use Rattle.tape_core.specs.{Behind.behind_of, Known.IsFileNumber, Known.most_staged};
    ghost use Rattle.tape_core.specs.{Follows.IsFinal, Stands.Stands, Stands.weight_of};
    ghost use Rattle.tape_core.specs.Foreign.{starts_set, IsForeignAt, Unmoved};

    /// Creates a reader of file number `file` of the set, at the start of the file. Files are
    /// numbered from 1.
    ///
    /// # Errors
    ///
    /// Returns `FileNumber` if `file` is not 1 to 9,999.
    pub fn new(set_id: Field<6>, file: u16) -> Result<ReaderCore, CoreFault>
        ensures begins { IsFileNumber file → result ≡ Ok (Table.reader_of set_id file) }
        ensures value { IfOk result (λ core. core ≡ Table.reader_of set_id file) }
        // Its position is the start of the file, in every set with this identifier that has the
        // file.
        ensures stands { IfOk result (λ core. (set : FileSet) → set_id ≡ set.set_id
            → IsIn set file start → IsAt set core) }
        ensures refused { (IsFileNumber file → ⊥) → result ≡ Err CoreFault.FileNumber }
    {
        if file == 0 || file > 9_999 {
            return Err(CoreFault::FileNumber);
        }
        Ok(ReaderCore {
            set_id,
            file,
            position: Position::start(),
            begun: false,
            known: None,
            phase: Phase::Over,
        })
    }

    /// Creates a reader at a checkpoint, with no reading in progress.
    pub fn at(checkpoint: &Checkpoint) -> ReaderCore
        ensures { result ≡ place_of checkpoint.now }
    {
        ReaderCore {
            set_id: checkpoint.set_id,
            file: checkpoint.file,
            position: checkpoint.position,
            begun: checkpoint.begun,
            known: checkpoint.known,
            phase: Phase::Over,
        }
    }

    /// Begins reading a new reel. A broken reader stays broken, and a reader whose file is complete
    /// needs no reel.
    pub fn mount(&mut self)
        ensures table { self.new ≡ Table.mount_of self.old }
        // A reader with a position in a file of a set is then at the start of a reading, whatever
        // the volume.
        ensures begins { (set : FileSet) (k : ℕ) → IsAt set self.old
            → IsReading set self.old.position k [] self.new }
        // This also holds for a reel that does not belong to the set.
        ensures foreign { (set : FileSet) (reel : List TapeItem) → IsAt set self.old
            → starts_set set.set_id reel ≡ Bool.false
            → IsForeignAt set.set_id reel self.new.position self.new.phase }
        // Only the phase changes.
        ensures same { rest_of self.new ≡ rest_of self.old }
    {
        self.phase = match (self.phase, self.position) {
            (Phase::Broken, _) => Phase::Broken,
            (_, Position::Finished) => Phase::Over,
            _ => Phase::Volume,
        };
    }

    /// Begins reading after a trailer label, where the reader of an earlier file of the set has
    /// completed a section. This misses nothing that came before. A broken reader stays broken, and
    /// a reader whose file is complete needs no reel.
    pub fn mount_behind(&mut self)
        ensures table { self.new ≡ behind_of self.old }
        ensures same { rest_of self.new ≡ rest_of self.old }
    {
        self.phase = match (self.phase, self.position) {
            (Phase::Broken, _) => Phase::Broken,
            (_, Position::Finished) => Phase::Over,
            _ => Phase::Trailers,
        };
    }

    /// Processes the next event from the reel, and returns its meaning for the file.
    ///
    /// If the file is complete, the answer is always `Complete`. After `BlockCount` it is
    /// `Useless(Broken)` until `restart`, and if no reading is in progress, `Useless(ReelEnded)`.
    /// `Useless` never moves the position; `Reason` describes its causes.
    pub fn step(&mut self, event: Event<'_>) -> Answer
        ensures table { (result, self.new) ≡ Table.step_of self.old (arrival event.entry) }
        // The next item of a volume of a valid set, or a bad item instead of it, extends the
        // reading by one item; the parts delivered are the next parts of the file.
        ensures item { (set : FileSet) (p : Position) (k : ℕ) (good : List Bool) (g : Bool)
            (item : TapeItem) → IsLawful set → IsSome (nth set.volumes k)
            → slice_get (items set k) (length good) ≡ Some item
            → arrival event.entry ≡ Some (if g then item else bad)
            → IsReading set p k good self.old
            → Kept set p k (good ++ g ∷ []) (if g then item else bad) self.old (result, self.new) }
        // Items after a complete volume change nothing.
        ensures behind { (set : FileSet) (p : Position) (k : ℕ) (good : List Bool)
            (item : TapeItem) → IsLawful set → IsSome (nth set.volumes k)
            → length good ≡ length (items set k) → passes good (entries set k) ≡ Bool.true
            → arrival event.entry ≡ Some item
            → IsReading set p k good self.old → Idle set p k good self.old (result, self.new) }
        // A reel that does not belong to the set changes nothing.
        ensures foreign { (set : FileSet) (item : TapeItem) (rest : List TapeItem)
            → arrival event.entry ≡ Some item → IsAt set self.old
            → IsForeignAt set.set_id (item ∷ rest) self.old.position self.old.phase
            → Unmoved set rest self.old (result, self.new) }
        // Complete is answered only at the end of the file.
        ensures complete { result ≡ Answer.Complete → self.new.position ≡ Position.Finished }
        // For any input, a delivered block was checked, and contains the expected part.
        ensures checked { result ≡ Answer.Deliver
            → Checked (arrival event.entry) self.old self.new }
        // For any input, the reader's set and file do not change.
        ensures set_id { self.new.set_id ≡ self.old.set_id }
        ensures file { self.new.file ≡ self.old.file }
        // The end of the reel ends the reading; only the phase changes.
        ensures left { arrival event.entry ≡ None
            → (rest_of self.new ≡ rest_of self.old) × IsFinal result }
    {
        self.advance(event)
    }

    /// Returns the part needed next, or `None` exactly if the file is complete.
    pub fn want(&self) -> Option<Want>
        ensures value { result ≡ want_at self.now.file self.now.position }
        // The result is the part needed next at the position that the reading reaches.
        ensures far { (set : FileSet) (p : Position) (k : ℕ) (good : List Bool) → IsLawful set
            → IsSome (nth set.volumes k) → IsReading set p k good self.now
            → result ≡ want_at self.now.file (far set self.now.file p (reading k good)) }
    {
        self.position.want(self.file)
    }

    /// Returns the position of the reader.
    pub fn position(&self) -> Position
        ensures value { result ≡ self.now.position }
        // The result is the position that the reading reaches.
        ensures far { (set : FileSet) (p : Position) (k : ℕ) (good : List Bool) → IsLawful set
            → IsSome (nth set.volumes k) → IsReading set p k good self.now
            → result ≡ far set self.now.file p (reading k good) }
    {
        self.position
    }

    /// Returns the shape of the file's blocks as far as readers check it: the block length is 0 and
    /// full padding `false`. Returns `None` at the start of the file.
    pub fn shape(&self) -> Option<Shape>
        ensures { Table.Shows self.now.known result }
    {
        match &self.known {
            Some(known) => Some(shape_of(known)),
            None => None,
        }
    }

    /// Returns a checkpoint of the position. `staged` is the weight of the parts kept, at most
    /// 999,999,999,999,999. The checkpoint does not record whether the reader is broken.
    pub fn save(&self, staged: u64) -> Checkpoint
        requires { staged ≤ most_staged }
        ensures value { result ≡ Table.saved self.now staged }
        // If `staged` is the weight of the parts before the position, the checkpoint is valid.
        ensures stands { (set : FileSet) → IsAt set self.now
            → staged ≡ weight_of (before set self.now.file self.now.position)
            → Stands set self.now.file result (before set self.now.file self.now.position) }
    {
        Checkpoint::of(
            self.set_id,
            self.file,
            self.position,
            self.begun,
            self.known,
            staged,
        )
    }

    /// Moves the reader to the checkpoint. This ends a reading in progress, and makes a broken
    /// reader usable again.
    ///
    /// # Errors
    ///
    /// Returns `OtherFile` if the checkpoint belongs to another set or file; then nothing changes,
    /// and a reading in progress continues.
    pub fn restart(&mut self, checkpoint: &Checkpoint) -> Result<(), CoreFault>
        ensures value { (result, self.new) ≡ Table.restart_of self.old checkpoint.now }
        // A reader accepts every checkpoint of its own set and file.
        ensures taken { checkpoint.now.set_id ≡ self.old.set_id
            → checkpoint.now.file ≡ self.old.file → result ≡ Ok tt }
        ensures there { OnOk result (rest_of self.new ≡ place_of checkpoint.now) }
        ensures refused { OnErr result (self.new ≡ self.old) }
    {
        if !same_field(&self.set_id, &checkpoint.set_id) || self.file != checkpoint.file {
            return Err(CoreFault::OtherFile);
        }
        *self = ReaderCore::at(checkpoint);
        Ok(())
    }
}

impl ReaderCore {
    /// Answers that the item was expected, and expects `phase` next.
    pub(crate) fn passed(&mut self, phase: Phase) -> Answer
        requires { ToldFits self.old.begun (told phase) }
        ensures table { (result, self.new) ≡ Table.passed self.old phase }
        ensures silent { result ≢ Answer.Deliver }
    {
        self.phase = phase;
        Answer::Passed
    }

    /// Ends the reading, with the reason `why`.
    pub(crate) fn useless(&mut self, why: Reason) -> Answer
        ensures table { (result, self.new) ≡ Table.useless self.old why }
        ensures silent { result ≢ Answer.Deliver }
    {
        self.phase = Phase::Over;
        Answer::Useless(why)
    }

    /// Ends the reading with the reason `why`, and allows no other reading before a restart.
    pub(crate) fn broken(&mut self, why: Reason) -> Answer
        ensures table { (result, self.new) ≡ Table.broken self.old why }
        ensures silent { result ≢ Answer.Deliver }
    {
        self.phase = Phase::Broken;
        Answer::Useless(why)
    }

    /// Returns the number of the expected section, or 0 if the file is complete.
    pub(crate) fn sect(&self) -> u16
        ensures { result ≡ sect_of self.now.position }
    {
        match self.position {
            Position::Awaits { sect, .. } => sect,
            Position::Finished => 0,
        }
    }

    /// Returns the number of the expected block, or 0 if the file is complete.
    pub(crate) fn block(&self) -> u32
        ensures { result ≡ block_of self.now.position }
    {
        match self.position {
            Position::Awaits { block, .. } => block,
            Position::Finished => 0,
        }
    }
}
