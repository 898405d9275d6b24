//! The processing of the items of a reel.

ghost use Rattle.std.specs.Prelude.{◌≡◌, ◌≢◌, false, Some, ◌<◌, true, IfSome, IfNone};
ghost use Rattle.tape_image.specs.Tape.{block as block'};
ghost use Rattle.tape_set.specs.{Lawful.most_blocks, Position.block_of};
ghost use Rattle.tape_core.specs.{Arrive.arrival, Follows.Checked, Follows.IsAwaited};
ghost use Rattle.tape_core.specs.{Known.is_finished, State.ToldFits, State.wants_data, State.told};
ghost use Rattle.tape_core.specs.Table as Table;
ghost use Rattle.tape_core.specs.Expects.{Expects};

use crate::event::{Answer, Awaited, Event, Expected, Phase, Reason};
use crate::reader::ReaderCore;
use crate::reader::judging::{judge_awaited, shape_of};
use tape_label::{Kind, LabelFault, is_volume_label, kind, read_head1, read_trail1};
use tape_set::Position;

impl ReaderCore {
    /// Processes one item. A complete file stays complete, whatever the item.
    pub(crate) fn advance(&mut self, event: Event<'_>) -> Answer
        ensures table { (result, self.new) ≡ Table.step_of self.old (arrival event.entry) }
        ensures complete { result ≡ Answer.Complete → self.new.position ≡ Position.Finished }
        ensures checked { result ≡ Answer.Deliver
            → Checked (arrival event.entry) self.old self.new }
    {
        if let Position::Finished = self.position {
            return Answer::Complete;
        }
        match event {
            // Data need no copy of the phase.
            Event::Block(block) if matches!(self.phase, Phase::DataWanted(..)) => {
                self.at_data(block)
            }
            Event::Block(block) => self.at_other_block(block),
            Event::Bad => self.at_bad(),
            Event::Mark => self.at_mark(),
            Event::ReelEnd if matches!(self.phase, Phase::Broken) => self.broken(Reason::Broken),
            Event::ReelEnd => self.useless(Reason::ReelEnded),
        }
    }

    /// Processes a block that is not data of the section needed.
    fn at_other_block(&mut self, block: &[u8]) -> Answer
        requires other { wants_data self.old.phase ≡ false }
        ensures table { (result, self.new) ≡ Table.at_block self.old self.old.phase block.now }
        ensures silent { result ≢ Answer.Deliver }
    {
        let phase = self.phase;
        match phase {
            Phase::Over => self.useless(Reason::ReelEnded),
            Phase::Broken => self.broken(Reason::Broken),
            Phase::Volume if matches!(kind(block), Some(Kind::Vol1)) => {
                self.passed(Phase::VolumeLabels)
            }
            Phase::VolumeLabels if is_volume_label(block) => self.passed(Phase::VolumeLabels),
            Phase::VolumeLabels if matches!(kind(block), Some(Kind::Hdr1)) => {
                self.at_head1(read_head1(block))
            }
            Phase::Volume | Phase::VolumeLabels => self.useless(Reason::NotLabelled),
            Phase::Header2(heading, wanted) => self.second_label(heading, wanted, block),
            Phase::Headers(..) | Phase::DataPassed(_) | Phase::Trailers => Answer::Passed,
            Phase::DataWanted(..) => unreachable!(),
            Phase::TrailerPassed(heading) => self.at_passed_trailer(heading, read_trail1(block)),
            Phase::TrailerWanted(heading, form) => {
                self.at_wanted_trailer(heading, form, read_trail1(block))
            }
            Phase::NextFile => self.at_head1(read_head1(block)),
        }
    }

    /// Processes a tape mark.
    fn at_mark(&mut self) -> Answer
        ensures table { (result, self.new) ≡ Table.at_mark self.old self.old.phase }
        ensures silent { result ≢ Answer.Deliver }
    {
        let phase = self.phase;
        match phase {
            Phase::Over => self.useless(Reason::ReelEnded),
            Phase::Broken => self.broken(Reason::Broken),
            Phase::Volume | Phase::VolumeLabels => self.useless(Reason::NotLabelled),
            Phase::Header2(..) | Phase::TrailerPassed(_) | Phase::TrailerWanted(..) => {
                self.useless(Reason::BadLabel(LabelFault::Identifier))
            }
            Phase::Headers(heading, wanted) => match wanted {
                None => self.passed(Phase::DataPassed(heading)),
                Some(form) => self.passed(Phase::DataWanted(heading, form, 0)),
            },
            Phase::DataPassed(heading) => self.passed(Phase::TrailerPassed(heading)),
            // The mark after the data must follow all blocks that were delivered already.
            Phase::DataWanted(_, _, seen) if seen < self.block() => {
                self.useless(Reason::SectionDiffers)
            }
            Phase::DataWanted(heading, form, _) => self.passed(Phase::TrailerWanted(heading, form)),
            Phase::Trailers => self.passed(Phase::NextFile),
            Phase::NextFile => self.useless(Reason::NotOnReel),
        }
    }

    /// Processes an unreadable item.
    fn at_bad(&mut self) -> Answer
        ensures table { (result, self.new) ≡ Table.at_bad self.old self.old.phase }
        ensures silent { result ≢ Answer.Deliver }
    {
        let phase = self.phase;
        match phase {
            Phase::Over => self.useless(Reason::ReelEnded),
            Phase::Broken => self.broken(Reason::Broken),
            Phase::DataPassed(_) => Answer::Passed,
            // The reading goes on only after a block that was delivered already.
            Phase::DataWanted(heading, form, seen) if seen < self.block() => {
                self.passed(Phase::DataWanted(heading, form, seen + 1))
            }
            _ => self.useless(Reason::BadItem),
        }
    }
}

impl ReaderCore {
    /// Processes a data block: a block that was delivered already is skipped.
    fn at_data(&mut self, block: &[u8]) -> Answer
        requires wanted { wants_data self.old.phase ≡ true }
        requires waits { is_finished self.old.position ≡ false }
        ensures table { (result, self.new) ≡ Table.at_block self.old self.old.phase block.now }
        ensures checked { result ≡ Answer.Deliver
            → Checked (Some (block' block.now)) self.old self.new }
    {
        let Position::Awaits {
            block: number,
            part,
            ..
        } = self.position
        else {
            unreachable!()
        };
        let Phase::DataWanted(_, form, seen) = &mut self.phase else {
            unreachable!()
        };
        if *seen < number {
            *seen += 1;
            return Answer::Passed;
        }
        match judge_awaited(form, number, part, self.begun, block) {
            Err(why) => self.useless(why),
            Ok(end) => {
                self.deliver(end);
                Answer::Deliver
            }
        }
    }

    /// Returns what is known of the block if it is the expected one: if `step` answers `Deliver`.
    /// Then, after its parts were put, `deliver` moves the reader as that step does.
    #[inline(always)]
    pub fn awaited(&self, block: &[u8]) -> Option<Awaited>
        ensures some { IfSome result (IsAwaited self.now block.now) }
        ensures none { IfNone result
            ((Table.step_of self.now (Some (block' block.now))).0 ≢ Answer.Deliver) }
    {
        let Phase::DataWanted(_, form, seen) = &self.phase else {
            return None;
        };
        let Position::Awaits {
            block: number,
            part,
            ..
        } = self.position
        else {
            return None;
        };
        if number > *seen {
            return None;
        }
        match judge_awaited(form, number, part, self.begun, block) {
            Err(_) => None,
            Ok(end) => Some(Awaited {
                shape: shape_of(form),
                part,
                begun: self.begun,
                end,
            }),
        }
    }

    /// Returns the item that is expected next of the section needed.
    pub fn expected(&self) -> Expected
        ensures { Expects self.now.phase result }
    {
        let phase = self.phase;
        match phase {
            Phase::Header2(_, true) => Expected::Header2,
            Phase::DataWanted(_, form, seen) => Expected::Data {
                seen,
                shape: shape_of(&form),
            },
            Phase::TrailerWanted(..) => Expected::Trailer,
            _ => Expected::Other,
        }
    }

    /// Moves after the expected block; `end` says whether it leaves a record unfinished. The phase
    /// is changed in place, since nearly all items of a reel are such blocks.
    #[inline(always)]
    pub fn deliver(&mut self, end: bool)
        requires wanted { wants_data self.old.phase ≡ true }
        requires waits { is_finished self.old.position ≡ false }
        requires more { block_of self.old.position < most_blocks }
        requires fits { ToldFits end (told self.old.phase) }
        ensures table { self.new ≡ Table.after_block self.old end }
        ensures set_id { self.new.set_id ≡ self.old.set_id }
        ensures file { self.new.file ≡ self.old.file }
    {
        let Position::Awaits { block, .. } = self.position else {
            unreachable!()
        };
        let Phase::DataWanted(_, form, seen) = &mut self.phase else {
            unreachable!()
        };
        *seen = block + 1;
        self.known = Some(*form);
        self.position = self.position.next_block();
        self.begun = end;
    }
}
