//! The end of a section, and the report on missing blocks there.

ghost use Rattle.std.specs.Prelude.{◌≡◌, ◌≢◌, ◌&&◌, true, false, Some, None, OnOk, OnErr, IfOk};
ghost use Rattle.std.specs.Io.KnownBytes.{Appends};
ghost use Rattle.tape_image.specs.Written.{AppendsFront};
ghost use Rattle.tape_run.specs.SalvageBlocks.{Recovers, ReportsFront, torn_text};
ghost use Rattle.tape_run.specs.SalvageEnds.{without_rest, no_section_text, no_form_text};
ghost use Rattle.tape_run.specs.SalvageEnds.{open_text, ended, ended_text, unsure_text, with_end};
ghost use Rattle.tape_run.specs.SalvageEnds.{end_from, end_text, read_again, read_again_text};
ghost use Rattle.tape_run.specs.SalvageTaking.{end_by};
ghost use Rattle.tape_run.specs.declared.salvage.ending.SectionEnd.TheVariants.{FileEnds};

use crate::fault::WriteFailed;
use crate::salvage::copies::SectionCopy;
use crate::salvage::recovery::Recovery;
use crate::salvage::walk::Closing;
use crate::text::write_line;
use std::io::Write;

/// The end of a section.
#[derive(Clone, Copy)]
pub enum SectionEnd {
    /// The file ends with it.
    FileEnds,
    /// The file continues in the next section.
    Continues,
    /// That is not known.
    Unknown,
}

impl SectionEnd {
    /// Returns whether the file ends with it.
    pub fn ends_file(self) -> bool
        ensures yes { result ≡ true → self ≡ FileEnds }
        ensures no { result ≡ false → self ≢ FileEnds }
    {
        match self {
            SectionEnd::FileEnds => true,
            SectionEnd::Continues | SectionEnd::Unknown => false,
        }
    }
}

/// Returns how a section ended that closed, or did not close, like this.
fn end_by(closed: &Option<Closing>) -> SectionEnd
    ensures { result ≡ end_by closed.now }
{
    match closed {
        None => SectionEnd::Unknown,
        Some(closed) if closed.eof => SectionEnd::FileEnds,
        Some(_) => SectionEnd::Continues,
    }
}

/// Reports that the items after the reliable ones may be blocks of the section, if there are such
/// items.
fn write_unsure<P: Write>(
    report: &mut P,
    sect: u16,
    first: u32,
    blocks: u32,
) -> Result<(), WriteFailed>
    ensures ok { OnOk result (Appends (P.contents report.old) (P.contents report.new)
        (unsure_text sect first blocks)) }
    ensures front { OnErr result (AppendsFront (P.contents report.old) (P.contents report.new)
        (unsure_text sect first blocks)) }
{
    if first < blocks {
        let last = blocks - 1;
        return write_line(report, &format_args!("UNSURE {sect} {first} {last}\n"));
    }
    Ok(())
}

impl<W: Write> Recovery<W> {
    /// Reports that a section was not found, or could not be read.
    pub fn miss_section<P: Write>(&mut self, sect: u16, report: &mut P) -> Result<(), WriteFailed>
        ensures ok { OnOk result (Recovers W.contents self.old self.new (P.contents report.old)
            (P.contents report.new) without_rest (no_section_text sect)) }
        ensures front { OnErr result (ReportsFront W.contents self.old (P.contents report.old)
            (P.contents report.new) (no_section_text sect)) }
    {
        self.tear(sect, 0, report)?;
        let records = self.mender.records();
        write_line(report, &format_args!("GAP {sect} - - {records}\n"))?;
        Ok(())
    }

    /// Reports that no label records how the records of a section are stored in its blocks.
    pub fn miss_form<P: Write>(&mut self, sect: u16, report: &mut P) -> Result<(), WriteFailed>
        ensures ok { OnOk result (Recovers W.contents self.old self.new (P.contents report.old)
            (P.contents report.new) without_rest (no_form_text sect)) }
        ensures front { OnErr result (ReportsFront W.contents self.old (P.contents report.old)
            (P.contents report.new) (no_form_text sect)) }
    {
        self.tear(sect, 0, report)?;
        let records = self.mender.records();
        write_line(report, &format_args!("NO FORM {sect} {records}\n"))?;
        Ok(())
    }

    /// Reports that the blocks of a section from `first` on are missing.
    fn miss_rest<P: Write>(
        &mut self,
        sect: u16,
        first: u32,
        report: &mut P,
    ) -> Result<(), WriteFailed>
        ensures ok { OnOk result (Recovers W.contents self.old self.new (P.contents report.old)
            (P.contents report.new) without_rest (open_text sect first)) }
        ensures front { OnErr result (ReportsFront W.contents self.old (P.contents report.old)
            (P.contents report.new) (open_text sect first)) }
    {
        self.tear(sect, first, report)?;
        let records = self.mender.records();
        write_line(report, &format_args!("GAP {sect} {first} - {records}\n"))?;
        Ok(())
    }

    /// Reports what is missing after the blocks of a section, of which `read` were read again.
    fn end_blocks<P: Write>(
        &mut self,
        copy: &SectionCopy,
        read: u32,
        report: &mut P,
    ) -> Result<(), WriteFailed>
        ensures ok { OnOk result (Recovers W.contents self.old self.new (P.contents report.old)
            (P.contents report.new) (end_from read copy.now) (end_text read copy.now)) }
        ensures front { OnErr result (ReportsFront W.contents self.old (P.contents report.old)
            (P.contents report.new) (end_text read copy.now)) }
    {
        let (sect, blocks) = (copy.section.key.sect, copy.section.blocks);
        let believed = copy.believed();
        if read < believed {
            return self.miss_rest(sect, read, report);
        }
        match copy.closed {
            None => {
                self.miss_rest(sect, believed, report)?;
                write_unsure(report, sect, believed, blocks)
            }
            Some(closed) => {
                self.take_count(sect, copy.wrong_count(), blocks, report)?;
                // A record that is unfinished at the end of the file is left out.
                if closed.eof && self.mender.is_begun() {
                    return self.tear(sect, blocks, report);
                }
                Ok(())
            }
        }
    }

    /// Reports the missing blocks at the end of a section, of which `read` were read again, and
    /// returns how the section ended.
    pub fn end_section<P: Write>(
        &mut self,
        copy: &SectionCopy,
        read: u32,
        report: &mut P,
    ) -> Result<SectionEnd, WriteFailed>
        ensures ok { IfOk result (λ end. (end ≡ end_by copy.now.closed)
            × Recovers W.contents self.old self.new (P.contents report.old) (P.contents report.new)
            (read_again read copy.now) (read_again_text read copy.now)) }
        ensures front { OnErr result (ReportsFront W.contents self.old (P.contents report.old)
            (P.contents report.new) (read_again_text read copy.now)) }
    {
        self.end_gap(copy.section.key.sect, copy.recovered(read), report)?;
        self.end_blocks(copy, read, report)?;
        Ok(end_by(&copy.closed))
    }
}
