//! The wider reading: files of formats U and V, sections without HDR2, and padding of NULs or
//! spaces.

ghost use Rattle.std.specs.Prelude.{◌≡◌, ◌≢◌, ◌≤◌, ◌++◌, ◌∷◌, [], ℕ, List, Bool, Some, None};
ghost use Rattle.std.specs.Prelude.{IsSome, length, slice_get, if◌then◌else◌};
ghost use Rattle.tape_image.specs.Tape.{TapeItem, bad, block as block'};
ghost use Rattle.tape_label.specs.{Kinds.kind_at, declared.label.LabelFault.LabelFault};
ghost use Rattle.tape_blocks.specs.declared.check.BlockFault.{BlockFault};
ghost use Rattle.tape_set.specs.Layout.{FileSet, nth, items, entries};
ghost use Rattle.tape_set.specs.{Lawful.IsLawful, Reach.passes};
ghost use Rattle.tape_core.specs.Follows.{IsAt, IsReading, IsFinal, Kept, Idle, Checked};
ghost use Rattle.tape_core.specs.Foreign.{IsForeignAt, Unmoved};
ghost use Rattle.tape_core.specs.{Arrive.arrival, Place.rest_of};
ghost use Rattle.tape_core.specs.Table as Table;
ghost use Rattle.tape_core.specs.Wide as Wide;

use crate::event::{Answer, Event, Heading, Phase, Reason};
use crate::reader::ReaderCore;
use crate::reader::judging::shape_of;
use tape_blocks::content;
use tape_label::{Kind, absent_head2, is_further_header, kind, no_kind, read_wide_head2};
use tape_set::Position;

impl ReaderCore {
    /// Processes the next event in the wider reading: as `step`, except that HDR2 is read by
    /// `tape_label::read_wide_head2`, and may be absent. It is absent if HDR1 is followed by a tape
    /// mark, or by `HDR3` to `HDR9` or a user header label.
    pub fn wide_step(&mut self, event: Event<'_>) -> Answer
        ensures table { (result, self.new) ≡ Wide.step_of self.old (arrival event.entry) }
        // The answer is that of `step`, unless `step` refuses the item for a label.
        ensures agrees { ((f : LabelFault)
            → (Table.step_of self.old (arrival event.entry)).0 ≢ Answer.Useless (Reason.BadLabel f))
            → (result, self.new) ≡ Table.step_of self.old (arrival event.entry) }
        // On the volumes of a valid set, behind them, and on a reel that does not belong to the
        // set, all that holds of `step` holds,
        ensures item { (set : FileSet) (p : Position) (k : ℕ) (good : List Bool) (g : Bool)
            (item : TapeItem) → IsLawful set → IsSome (nth set.volumes k)
            → slice_get (items set k) (length good) ≡ Some item
            → arrival event.entry ≡ Some (if g then item else bad)
            → IsReading set p k good self.old
            → Kept set p k (good ++ g ∷ []) (if g then item else bad) self.old (result, self.new) }
        ensures behind { (set : FileSet) (p : Position) (k : ℕ) (good : List Bool)
            (item : TapeItem) → IsLawful set → IsSome (nth set.volumes k)
            → length good ≡ length (items set k) → passes good (entries set k) ≡ Bool.true
            → arrival event.entry ≡ Some item
            → IsReading set p k good self.old → Idle set p k good self.old (result, self.new) }
        ensures foreign { (set : FileSet) (item : TapeItem) (rest : List TapeItem)
            → arrival event.entry ≡ Some item → IsAt set self.old
            → IsForeignAt set.set_id (item ∷ rest) self.old.position self.old.phase
            → Unmoved set rest self.old (result, self.new) }
        // and so does all that holds of `step` for any input.
        ensures complete { result ≡ Answer.Complete → self.new.position ≡ Position.Finished }
        ensures checked { result ≡ Answer.Deliver
            → Checked (arrival event.entry) self.old self.new }
        ensures set_id { self.new.set_id ≡ self.old.set_id }
        ensures file { self.new.file ≡ self.old.file }
        ensures left { arrival event.entry ≡ None
            → (rest_of self.new ≡ rest_of self.old) × IsFinal result }
    {
        self.wide_advance(event)
    }

    /// Processes one item in the wider reading.
    fn wide_advance(&mut self, event: Event<'_>) -> Answer
        ensures table { (result, self.new) ≡ Wide.step_of self.old (arrival event.entry) }
        ensures complete { result ≡ Answer.Complete → self.new.position ≡ Position.Finished }
        ensures checked { result ≡ Answer.Deliver
            → Checked (arrival event.entry) self.old self.new }
        ensures set_id { self.new.set_id ≡ self.old.set_id }
        ensures file { self.new.file ≡ self.old.file }
    {
        if let (Phase::Header2(heading, wanted), Position::Awaits { .. }) = (
            self.phase,
            self.position,
        ) {
            match event {
                Event::Block(block) => return self.wide_second_label(heading, wanted, block),
                Event::Mark => match self.without_second(heading, wanted) {
                    Answer::Passed => {}
                    answer => return answer,
                },
                Event::Bad | Event::ReelEnd => {}
            }
        }
        self.step(event)
    }

    /// Processes a block when HDR2 is expected, in the wider reading.
    fn wide_second_label(&mut self, heading: Heading, wanted: bool, block: &[u8]) -> Answer
        ensures table { (result, self.new)
            ≡ Wide.second_label self.old heading wanted block.now (kind_at block.now) }
        ensures ends_not { result ≢ Answer.Complete }
        ensures set_id { self.new.set_id ≡ self.old.set_id }
        ensures file { self.new.file ≡ self.old.file }
        ensures silent { result ≢ Answer.Deliver }
    {
        match kind(block) {
            Some(Kind::Hdr2) if wanted => self.at_head2(heading, read_wide_head2(block)),
            Some(Kind::Hdr2) => self.passed(Phase::Headers(heading, None)),
            _ if !is_further_header(block) => self.useless(Reason::BadLabel(no_kind(block))),
            _ => self.without_second(heading, wanted),
        }
    }

    /// Processes the absence of HDR2: in the section needed each block is one record.
    fn without_second(&mut self, heading: Heading, wanted: bool) -> Answer
        ensures table { (result, self.new) ≡ Wide.without_second self.old heading wanted }
        ensures ends_not { result ≢ Answer.Complete }
        ensures set_id { self.new.set_id ≡ self.old.set_id }
        ensures file { self.new.file ≡ self.old.file }
        ensures silent { result ≢ Answer.Deliver }
    {
        if wanted {
            return self.at_head2(heading, Ok(absent_head2()));
        }
        self.passed(Phase::Headers(heading, None))
    }

    /// Returns the content of the next block in the wider reading: a data block of the section
    /// needed without padding of NULs or spaces (`tape_blocks::content`), any other block whole.
    pub fn content<'a>(&self, block: &'a [u8]) -> &'a [u8]
        ensures value { result.now ≡ Wide.content_of self.now block.now }
        // The answer of `step` to the content is that to the block, unless `step` refuses the block
        // for its records.
        ensures agrees { ((f : BlockFault) → (Table.step_of self.now (Some (block' block.now))).0
            ≢ Answer.Useless (Reason.BadBlock f))
            → Table.step_of self.now (Some (block' (Wide.content_of self.now block.now)))
            ≡ Table.step_of self.now (Some (block' block.now)) }
    {
        match &self.phase {
            Phase::DataWanted(_, form, _) => content(&shape_of(form), block),
            _ => block,
        }
    }

    /// Returns a block as a reading takes it: its content in the wider one, otherwise all of it.
    pub fn as_read<'a>(&self, wide: bool, block: &'a [u8]) -> &'a [u8]
        ensures value { result.now ≡ Wide.bytes_as wide self.now block.now }
        ensures short { length result.now ≤ length block.now }
    {
        if wide {
            return self.content(block);
        }
        block
    }

    /// Processes the next event in the wider reading, as `wide_step` does with the content of a
    /// block, or, if `wide` is false, as `step` does.
    pub fn step_by(&mut self, wide: bool, event: Event<'_>) -> Answer
        ensures table { (result, self.new) ≡ Wide.step_by wide self.old (arrival event.entry) }
        ensures complete { result ≡ Answer.Complete → self.new.position ≡ Position.Finished }
        ensures checked { result ≡ Answer.Deliver → (bytes : List ℕ)
            × (arrival event.entry ≡ Some (block' bytes))
            × Checked (Some (block' (Wide.bytes_as wide self.old bytes))) self.old self.new }
        ensures set_id { self.new.set_id ≡ self.old.set_id }
        ensures file { self.new.file ≡ self.old.file }
        ensures left { arrival event.entry ≡ None
            → (rest_of self.new ≡ rest_of self.old) × IsFinal result }
    {
        if !wide {
            return self.step(event);
        }
        match event {
            Event::Block(block) => {
                let content = self.content(block);
                self.wide_step(Event::Block(content))
            }
            event => self.wide_step(event),
        }
    }
}
