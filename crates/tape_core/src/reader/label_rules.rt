//! The rules for labels that continue a file.

ghost use Rattle.std.specs.Prelude.{◌≡◌, ◌≢◌, Some, IfOk};
ghost use Rattle.tape_label.specs.Kinds.{kind_at};
ghost use Rattle.tape_core.specs.State.{ToldFits};
ghost use Rattle.tape_core.specs.Table as Table;
ghost use Rattle.tape_core.specs.Wide.{IsInRange};

use crate::checkpoint::Known;
use crate::event::{Answer, Heading, Phase, Reason};
use crate::reader::ReaderCore;
use tape_label::{
    Format, Head1, Head2, Kind, LabelFault, Trail1, kind, no_kind, read_head2, same_field,
};
use tape_set::{Position, label_count};

impl ReaderCore {
    /// Processes an HDR1: compares set, file, section and file identifier, in this order.
    pub(crate) fn at_head1(&mut self, head: Result<Head1, LabelFault>) -> Answer
        ensures table { (result, self.new) ≡ Table.at_head1 self.old head }
        ensures silent { result ≢ Answer.Deliver }
    {
        let head = match head {
            Ok(head) => head,
            Err(fault) => return self.useless(Reason::BadLabel(fault)),
        };
        let heading = Heading {
            sequence: head.sequence,
            sect: head.sect,
            file_id: head.file_id,
        };
        if !same_field(&head.set_id, &self.set_id) {
            self.useless(Reason::OtherSet)
        } else if head.sequence < self.file {
            self.passed(Phase::Header2(heading, false))
        } else if head.sequence > self.file {
            self.useless(Reason::NotOnReel)
        } else if head.sect < self.sect() {
            self.useless(Reason::EarlierSection)
        } else if head.sect > self.sect() {
            self.useless(Reason::LaterSection)
        } else if matches!(&self.known, Some(known) if !same_field(&known.file_id, &head.file_id)) {
            self.useless(Reason::SectionDiffers)
        } else {
            self.passed(Phase::Header2(heading, true))
        }
    }

    /// Processes a block when HDR2 is expected. In a skipped section only its kind is checked.
    pub(crate) fn second_label(&mut self, heading: Heading, wanted: bool, block: &[u8]) -> Answer
        ensures table { (result, self.new)
            ≡ Table.second_label self.old heading wanted block.now (kind_at block.now) }
        ensures silent { result ≢ Answer.Deliver }
    {
        let Some(Kind::Hdr2) = kind(block) else {
            return self.useless(Reason::BadLabel(no_kind(block)));
        };
        if !wanted {
            return self.passed(Phase::Headers(heading, None));
        }
        self.at_head2(heading, read_head2(block))
    }

    /// Processes the HDR2 of the section needed: compares the form with the one known.
    pub(crate) fn at_head2(&mut self, heading: Heading, head: Result<Head2, LabelFault>) -> Answer
        requires { IfOk head IsInRange }
        ensures table { (result, self.new) ≡ Table.at_head2 self.old heading head }
        ensures ends_not { result ≢ Answer.Complete }
        ensures set_id { self.new.set_id ≡ self.old.set_id }
        ensures file { self.new.file ≡ self.old.file }
        ensures silent { result ≢ Answer.Deliver }
    {
        let head = match head {
            Ok(head) => head,
            Err(fault) => return self.useless(Reason::BadLabel(fault)),
        };
        let rec_len = match head.format {
            Format::Fixed => head.rec_len,
            _ => 0,
        };
        let form = Known {
            format: head.format,
            rec_len,
            offset: head.offset,
            file_id: heading.file_id,
        };
        match &self.known {
            Some(known)
                if !(known.format.letter() == form.format.letter()
                    && known.rec_len == form.rec_len
                    && known.offset == form.offset) => { self.useless(Reason::SectionDiffers) }
            _ => self.passed(Phase::Headers(heading, Some(form))),
        }
    }

    /// Processes the trailer of a skipped section: its numbers show whether a mark was lost.
    pub(crate) fn at_passed_trailer(
        &mut self,
        heading: Heading,
        trailer: Result<Trail1, LabelFault>,
    ) -> Answer
        ensures table { (result, self.new) ≡ Table.at_passed_trailer self.old heading trailer }
        ensures silent { result ≢ Answer.Deliver }
    {
        match trailer {
            Err(fault) => self.useless(Reason::BadLabel(fault)),
            Ok(trailer) if other_numbers(heading, &trailer) => self.useless(Reason::SectionDiffers),
            Ok(_) => self.passed(Phase::Trailers),
        }
    }

    /// Processes the trailer of the section needed, after all its blocks were seen. EOF1 completes
    /// the file. EOV1 completes the section; a record may continue in the next section.
    pub(crate) fn at_wanted_trailer(
        &mut self,
        heading: Heading,
        form: Known,
        trailer: Result<Trail1, LabelFault>,
    ) -> Answer
        requires told { ToldFits self.old.begun (Some form) }
        ensures table { (result, self.new) ≡ Table.at_wanted_trailer self.old heading form trailer }
        ensures silent { result ≢ Answer.Deliver }
    {
        let trailer = match trailer {
            Ok(trailer) => trailer,
            Err(fault) => return self.useless(Reason::BadLabel(fault)),
        };
        let (label, seen) = (trailer.blocks, self.block());
        if other_numbers(heading, &trailer) {
            self.useless(Reason::SectionDiffers)
        } else if label != label_count(seen) {
            self.broken(Reason::BlockCount { label, seen })
        } else if trailer.eof && self.begun {
            self.useless(Reason::SpanLeft)
        } else if !trailer.eof && self.sect() >= 9_999 {
            self.useless(Reason::SectionDiffers)
        } else {
            // This applies also to a section without blocks.
            self.known = Some(form);
            self.phase = Phase::Over;
            if trailer.eof {
                self.position = Position::Finished;
                return Answer::Complete;
            }
            self.position = self.position.next_section();
            Answer::SectionDone
        }
    }
}

/// Returns whether the numbers in the trailer differ from those in the header.
pub(crate) fn other_numbers(heading: Heading, trailer: &Trail1) -> bool
    ensures { result ≡ Table.other_numbers heading trailer.now }
{
    !(trailer.head.sequence == heading.sequence && trailer.head.sect == heading.sect)
}
