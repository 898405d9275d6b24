//! The complete records in blocks, some of which are missing.

ghost use Rattle.std.specs.Prelude.{◌≡◌, ◌≤◌, length, IfOk, IfErr, OnOk, Ok, Bool, Some};
ghost use Rattle.std.specs.Prelude.{if◌then◌else◌};
ghost use Rattle.tape_blocks.specs.Judged.{in_order};
ghost use Rattle.tape_blocks.specs.{Judged.judged, Parts.view, Packing.longest_block};
ghost use Rattle.tape_core.specs.Parts.{parts_in};
ghost use Rattle.tape_run.specs.SalvageRecords.{Piece, Start, HasPiece, nothing, with_part};
ghost use Rattle.tape_run.specs.Checked.{IsCheckFault};
ghost use Rattle.tape_run.specs.SalvageRecords.{with_parts, torn, taken, found_fault, is_cut};

use crate::extract::write_record;
use crate::fault::{EngineFault, NO_MEMORY};
use crate::salvage::front::{fault_in, front_to};
use std::alloc::Global;
use std::io::Write;
use tape_blocks::{BlockFault, Form, Part, Parts, Span, check_block, content};
use tape_core::{Known, goes_on_at, shape_of};

/// Writes the records of blocks as they come, except records of which a part is missing. Buffers
/// only an unfinished record.
#[derive(Drop)]
pub struct Mender<W> {
    /// The writer of the records.
    out: W,
    /// The form in which records are written.
    form: Form,
    /// The bytes of an unfinished record.
    unfinished: Vec<u8>,
    /// The number of records that were written.
    records: u64,
    /// Whether a record is unfinished.
    begun: bool,
    /// Whether something is missing, and no record has begun since.
    torn: bool,
}

impl<W: Write> Mender<W> {
    /// Creates a mender that writes to `out`, and has written nothing.
    pub fn new(alloc: Global, out: W, form: Form) -> Mender<W>
        ensures { HasPiece W.contents (record { had = W.contents out; form = form }) result
            nothing }
    {
        Mender {
            out,
            form,
            unfinished: Vec::new(alloc),
            records: 0,
            begun: false,
            torn: false,
        }
    }

    /// Returns how many records were written.
    pub fn records(&self) -> u64
        ensures { result ≡ self.now.records }
    {
        self.records
    }

    /// Returns whether a record is unfinished.
    pub fn is_begun(&self) -> bool
        ensures { result ≡ self.now.begun }
    {
        self.begun
    }

    /// Returns whether something is missing before the block, and the block continues a record
    /// whose beginning is missing.
    pub fn is_cut(&self, form: &Option<Known>, block: &[u8]) -> bool
        ensures { (p : Piece) → self.now.torn ≡ p.torn → result ≡ is_cut form.now p block.now }
    {
        match form {
            Some(form) => self.torn && goes_on_at(form.format, form.offset, block),
            None => false,
        }
    }

    /// Returns the writer of the records.
    pub fn into_out(self) -> W
        ensures { result ≡ self.out }
    {
        self.out
    }

    /// Processes the next block: writes its records, without padding, or the block unchanged if
    /// `form` is `None`. If the block has a fault in this form, writes the records before it, and
    /// returns the reason, and the place where these records end; the rest of the block is missing
    /// (`tear_if`). In format F the last records before padding of NULs or spaces are left out if
    /// they consist of that byte alone.
    ///
    /// # Errors
    ///
    /// `Run(OutOfMemory)` if a record that continues in the next block can't be buffered, or in the
    /// form `Counted` if a record exceeds 4,294,967,295 bytes, `WriteFailed` if a record can't be
    /// written.
    pub fn take(
        &mut self,
        form: &Option<Known>,
        block: &[u8],
    ) -> Result<Option<BlockFault>, EngineFault>
        requires short { length block.now ≤ longest_block }
        ensures ok { IfOk result (λ fault. (start : Start) (p : Piece)
            → HasPiece W.contents start self.old p
            → HasPiece W.contents start self.new (taken form.now p block.now)
            × (fault ≡ found_fault form.now p block.now)) }
        ensures fault { IfErr result IsCheckFault }
    {
        let Some(form) = form else {
            self.put(Part {
                span: Span::Whole,
                bytes: block,
            })?;
            return Ok(None);
        };
        let shape = shape_of(form);
        let block = content(&shape, block);
        let begun = if self.torn {
            goes_on_at(form.format, form.offset, block)
        } else {
            self.begun
        };
        match check_block(&shape, begun, block) {
            Ok(_) => {
                self.put_parts(form, block)?;
                Ok(None)
            }
            Err(fault) => {
                let fault = fault_in(form, block, fault);
                self.put_front(form, begun, front_to(form.format, block, fault.place))?;
                Ok(Some(fault))
            }
        }
    }

    /// Records that something is missing here, if `so` is true.
    pub fn tear_if(&mut self, so: bool)
        ensures { (start : Start) (p : Piece) → HasPiece W.contents start self.old p
            → HasPiece W.contents start self.new (if so then torn p else p) }
    {
        if so {
            self.tear();
        }
    }

    /// Records that a block is missing here, and drops the bytes of an unfinished record.
    pub fn tear(&mut self)
        ensures { (start : Start) (p : Piece) → HasPiece W.contents start self.old p
            → HasPiece W.contents start self.new (torn p) }
    {
        self.unfinished.clear();
        self.begun = false;
        self.torn = true;
    }

    /// Processes the first parts of a block that are in order.
    fn put_front(&mut self, form: &Known, begun: bool, block: &[u8]) -> Result<(), EngineFault>
        requires short { length block.now ≤ longest_block }
        ensures ok { OnOk result ((start : Start) (p : Piece)
            → HasPiece W.contents start self.old p
            → HasPiece W.contents start self.new
            (with_parts p (in_order begun (parts_in form.now block.now)))) }
        ensures fault { IfErr result IsCheckFault }
    {
        let mut going = begun;
        for part in Parts::at_front(&shape_of(form), block) {
            if part.span.continues() != going {
                return Ok(());
            }
            going = part.span.leaves();
            self.put(part)?;
        }
        Ok(())
    }

    /// Processes the parts of a block that was checked.
    fn put_parts(&mut self, form: &Known, block: &[u8]) -> Result<(), EngineFault>
        requires short { length block.now ≤ longest_block }
        requires checked { (begun : Bool) × (end : Bool) × (judged form.now.format form.now.rec_len
            form.now.offset begun block.now ≡ Ok end) }
        ensures ok { OnOk result ((start : Start) (p : Piece)
            → HasPiece W.contents start self.old p
            → HasPiece W.contents start self.new (with_parts p (parts_in form.now block.now))) }
        ensures fault { IfErr result IsCheckFault }
    {
        for part in Parts::new(&shape_of(form), block) {
            self.put(part)?;
        }
        Ok(())
    }

    /// Processes one part, unless it continues a record whose beginning is missing.
    fn put(&mut self, part: Part<'_>) -> Result<(), EngineFault>
        ensures ok { OnOk result ((start : Start) (p : Piece)
            → HasPiece W.contents start self.old p
            → HasPiece W.contents start self.new (with_part p (view part.entry))) }
        ensures fault { IfErr result IsCheckFault }
    {
        if self.torn && part.span.continues() {
            return Ok(());
        }
        self.torn = false;
        self.begun = part.span.leaves();
        if self.begun {
            return match self.unfinished.extend_from_slice(part.bytes) {
                Ok(()) => Ok(()),
                Err(_) => Err(NO_MEMORY),
            };
        }
        write_record(&mut self.out, self.form, &self.unfinished, part.bytes)?;
        self.unfinished.clear();
        self.records = self.records.saturating_add(1);
        Ok(())
    }
}
