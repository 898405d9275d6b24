//! The data items of a section, processed one after another, with a line for each gap.

ghost use Rattle.std.specs.Prelude.{◌≡◌, ◌≤◌, length, OnOk, OnErr, IfErr};
ghost use Rattle.std.specs.Io.KnownBytes.{Appends};
ghost use Rattle.tape_image.specs.{Reader.tape_item, Tape.IsTapeItem, Written.AppendsFront};
ghost use Rattle.tape_blocks.specs.Packing.{longest_block};
ghost use Rattle.tape_run.specs.SalvageBlocks.{HasSalvaged, Recovers, none_salvaged, gap_text};
ghost use Rattle.tape_run.specs.SalvageBlocks.{ReportsFront, torn_text, refused_text};
ghost use Rattle.tape_run.specs.SalvageBlocks.{without_block, without_block_text, with_block};
ghost use Rattle.tape_run.specs.SalvageEnds.{without_rest, rest_text, without_gap, with_count};
ghost use Rattle.tape_run.specs.{Checked.IsCheckFault, SalvageEnds.count_text};
ghost use Rattle.tape_run.specs.SalvageBlocks.{with_block_text, salvaged_at, text_at};

use crate::fault::{EngineFault, WriteFailed};
use crate::salvage::mender::Mender;
use crate::text::write_line;
use std::alloc::Global;
use std::io::Write;
use tape_blocks::{BlockFault, Form};
use tape_core::Known;
use tape_image::Item;

/// Processes the data items of sections, and reports missing blocks.
#[derive(Drop)]
pub struct Recovery<W> {
    pub mender: Mender<W>,
    /// The first block of a gap that has not been reported yet.
    pub gap: Option<u32>,
    /// Whether something is missing.
    pub missing: bool,
}

/// Writes the line about the gap before block `next`, if there is a gap.
fn write_gap<P: Write>(
    report: &mut P,
    sect: u16,
    gap: Option<u32>,
    next: u32,
    records: u64,
) -> Result<(), WriteFailed>
    ensures ok { OnOk result (Appends (P.contents report.old) (P.contents report.new)
        (gap_text sect gap next records)) }
    ensures front { OnErr result (AppendsFront (P.contents report.old) (P.contents report.new)
        (gap_text sect gap next records)) }
{
    match gap {
        Some(first) => {
            let last = next.saturating_sub(1);
            let line = format_args!("GAP {sect} {first} {last} {records}\n");
            write_line(report, &line)
        }
        None => Ok(()),
    }
}

/// Writes that a record is left out because of a gap before block `number`, if `is` is true.
fn write_torn<P: Write>(
    report: &mut P,
    is: bool,
    sect: u16,
    number: u32,
    records: u64,
) -> Result<(), WriteFailed>
    ensures ok { OnOk result (Appends (P.contents report.old) (P.contents report.new)
        (torn_text is sect number records)) }
    ensures front { OnErr result (AppendsFront (P.contents report.old) (P.contents report.new)
        (torn_text is sect number records)) }
{
    if is {
        return write_line(report, &format_args!("TORN {sect} {number} {records}\n"));
    }
    Ok(())
}

/// Writes the fault of block `number`, if there is one, after the line about the record that is
/// unfinished there.
fn write_refused<P: Write>(
    report: &mut P,
    sect: u16,
    number: u32,
    fault: &Option<BlockFault>,
    begun: bool,
    records: u64,
) -> Result<(), WriteFailed>
    ensures ok { OnOk result (Appends (P.contents report.old) (P.contents report.new)
        (refused_text sect number fault.now begun records)) }
    ensures front { OnErr result (AppendsFront (P.contents report.old) (P.contents report.new)
        (refused_text sect number fault.now begun records)) }
{
    match fault {
        Some(fault) => {
            write_torn(report, begun, sect, number, records)?;
            let (cause, place) = (fault.number(), fault.place);
            let line = format_args!("REFUSED {sect} {number} {cause} {place} {records}\n");
            write_line(report, &line)
        }
        None => Ok(()),
    }
}

impl<W: Write> Recovery<W> {
    /// Creates a recovery that writes records to `out`, and has written nothing.
    pub fn new(alloc: Global, out: W, form: Form) -> Recovery<W>
        ensures { HasSalvaged W.contents (record { had = W.contents out; form = form }) result
            none_salvaged }
    {
        Recovery {
            mender: Mender::new(alloc, out, form),
            gap: None,
            missing: false,
        }
    }

    /// Returns the writer of the records.
    pub fn into_out(self) -> W
        ensures { result ≡ self.mender.out }
    {
        self.mender.into_out()
    }

    /// Reports the gap that ends before block `next`, if there is one.
    pub fn end_gap<P: Write>(
        &mut self,
        sect: u16,
        next: u32,
        report: &mut P,
    ) -> Result<(), WriteFailed>
        ensures ok { OnOk result (Recovers W.contents self.old self.new (P.contents report.old)
            (P.contents report.new) without_gap (λ g. gap_text sect g.gap next g.piece.records)) }
        ensures front { OnErr result (ReportsFront W.contents self.old (P.contents report.old)
            (P.contents report.new) (λ g. gap_text sect g.gap next g.piece.records)) }
    {
        write_gap(report, sect, self.gap, next, self.mender.records())?;
        self.gap = None;
        Ok(())
    }

    /// Records that something is missing from block `number` on, and reports the unfinished record
    /// that is left out, if there is one.
    pub fn tear<P: Write>(
        &mut self,
        sect: u16,
        number: u32,
        report: &mut P,
    ) -> Result<(), WriteFailed>
        ensures ok { OnOk result (Recovers W.contents self.old self.new (P.contents report.old)
            (P.contents report.new) without_rest (rest_text sect number)) }
        ensures front { OnErr result (ReportsFront W.contents self.old (P.contents report.old)
            (P.contents report.new) (rest_text sect number)) }
    {
        write_torn(
            report,
            self.mender.is_begun(),
            sect,
            number,
            self.mender.records(),
        )?;
        self.mender.tear();
        self.missing = true;
        Ok(())
    }

    /// Records and reports the count in a trailer label, if it is wrong.
    pub fn take_count<P: Write>(
        &mut self,
        sect: u16,
        label: Option<u32>,
        blocks: u32,
        report: &mut P,
    ) -> Result<(), WriteFailed>
        ensures ok { OnOk result (Recovers W.contents self.old self.new (P.contents report.old)
            (P.contents report.new) (with_count label) (λ _. count_text sect label blocks)) }
        ensures front { OnErr result (AppendsFront (P.contents report.old)
            (P.contents report.new) (count_text sect label blocks)) }
    {
        if let Some(label) = label {
            write_line(report, &format_args!("COUNT {sect} {label} {blocks}\n"))?;
            self.missing = true;
        }
        Ok(())
    }

    /// Processes an unreadable block of the section.
    fn miss_block<P: Write>(
        &mut self,
        sect: u16,
        number: u32,
        report: &mut P,
    ) -> Result<(), WriteFailed>
        ensures ok { OnOk result (Recovers W.contents self.old self.new (P.contents report.old)
            (P.contents report.new) (without_block number) (without_block_text sect number)) }
        ensures front { OnErr result (ReportsFront W.contents self.old (P.contents report.old)
            (P.contents report.new) (without_block_text sect number)) }
    {
        self.tear(sect, number, report)?;
        if self.gap.is_none() {
            self.gap = Some(number);
        }
        Ok(())
    }

    /// Processes the next block of the section.
    fn take_block<P: Write>(
        &mut self,
        sect: u16,
        number: u32,
        form: &Option<Known>,
        block: &[u8],
        report: &mut P,
    ) -> Result<(), EngineFault>
        requires { length block.now ≤ longest_block }
        ensures ok { OnOk result (Recovers W.contents self.old self.new (P.contents report.old)
            (P.contents report.new) (with_block form.now block.now)
            (with_block_text sect form.now number block.now)) }
        ensures front { OnErr result (ReportsFront W.contents self.old (P.contents report.old)
            (P.contents report.new) (with_block_text sect form.now number block.now)) }
        ensures fault { IfErr result IsCheckFault }
    {
        let records = self.mender.records();
        write_gap(report, sect, self.gap, number, records)?;
        write_torn(
            report,
            self.mender.is_cut(form, block),
            sect,
            number,
            records,
        )?;
        let fault = self.mender.take(form, block)?;
        let (begun, records) = (self.mender.is_begun(), self.mender.records());
        write_refused(report, sect, number, &fault, begun, records)?;
        self.mender.tear_if(fault.is_some());
        self.gap = None;
        self.missing = self.missing || fault.is_some();
        Ok(())
    }

    /// Processes the next item of an image, which is the data item `number` of the section, or none
    /// of them if `number` is `None`.
    ///
    /// # Errors
    ///
    /// `Run(OutOfMemory)`; `WriteFailed` if a record or the report can't be written.
    pub fn take_item<P: Write>(
        &mut self,
        sect: u16,
        form: &Option<Known>,
        number: Option<u32>,
        item: Item<'_>,
        report: &mut P,
    ) -> Result<(), EngineFault>
        requires { IsTapeItem (tape_item item) }
        ensures ok { OnOk result (Recovers W.contents self.old self.new (P.contents report.old)
            (P.contents report.new) (λ g. salvaged_at form.now g number (tape_item item.entry))
            (λ g. text_at sect form.now g number (tape_item item.entry))) }
        ensures front { OnErr result (ReportsFront W.contents self.old (P.contents report.old)
            (P.contents report.new) (λ g. text_at sect form.now g number (tape_item item.entry))) }
        ensures fault { IfErr result IsCheckFault }
    {
        let Some(number) = number else {
            return Ok(());
        };
        match item {
            Item::Block(bytes) => self.take_block(sect, number, form, bytes, report),
            Item::Bad => Ok(self.miss_block(sect, number, report)?),
            Item::Mark => Ok(()),
        }
    }
}
