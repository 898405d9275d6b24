//! Records in their form, written as their parts come.

ghost use Rattle.std.specs.Prelude.{◌≡◌, ◌++◌, ◌≤◌, ℕ, List, Option, OnOk, OnErr, IfErr, length};
ghost use Rattle.std.specs.Io.KnownBytes.{Appends};
ghost use Rattle.tape_blocks.specs.Parts.{view};
ghost use Rattle.tape_image.specs.Written.{AppendsFront};
ghost use Rattle.tape_run.specs.Causes.{RecordFails};
ghost use Rattle.tape_run.specs.RecordText.{record_end, record_head, record_text, part_text};
ghost use Rattle.tape_run.specs.RecordText.{held_of, rest_after, most_held};
ghost use Rattle.tape_run.specs.declared.fault.EngineFault.TheVariants as engine;
ghost use Rattle.tape_run.specs.declared.fault.RunFault.TheVariants as run;

use crate::fault::{EngineFault, NO_MEMORY};
use crate::text::write_text;
use std::io::Write;
use tape_blocks::{Form, Part, length_bytes};

/// The maximum length of a record that is held back until it ends.
const MOST_HELD: usize = 268_435_456;

/// Writes one part, and the end of the record if it ends one. In the form `Counted` the length of a
/// record precedes it: the bytes of a record that is unfinished are added to `held`, and written
/// when it ends, after which `held` is empty. In the other forms `held` remains empty.
///
/// # Errors
///
/// Returns `WriteFailed`. In the form `Counted` also `Run(OutOfMemory)` if there is no memory for
/// an unfinished record, or it exceeds 268,435,456 bytes, or a record exceeds 4,294,967,295 bytes;
/// then nothing was written, and `held` is unchanged.
#[tactic(auto, using(crate::proofs::PartWrites::ends_ok, crate::proofs::PartWrites::ends_rest, crate::proofs::PartWrites::ends_err, crate::proofs::PartWrites::sent_ok, crate::proofs::PartWrites::sent_rest, crate::proofs::PartWrites::sent_err, crate::proofs::PartWrites::held_ok, crate::proofs::PartWrites::held_rest, crate::proofs::PartWrites::held_err))]
#[inline(always)]
pub fn write_part<W: Write>(
    out: &mut W,
    part: Part<'_>,
    form: Form,
    held: &mut Vec<u8>,
) -> Result<(), EngineFault>
    ensures ok { OnOk result ((begun : Option (List ℕ)) → held.old.items ≡ held_of begun form
        → Appends (W.contents out.old) (W.contents out.new)
        (part_text form begun (view part.entry))) }
    ensures holds { OnOk result ((begun : Option (List ℕ)) → held.old.items ≡ held_of begun form
        → held.new.items ≡ held_of (rest_after begun (view part.entry)) form) }
    ensures err { OnErr result ((begun : Option (List ℕ)) → held.old.items ≡ held_of begun form
        → AppendsFront (W.contents out.old) (W.contents out.new)
        (part_text form begun (view part.entry))) }
    ensures kept { OnErr result (held.new.items ≡ held.old.items) }
    ensures cause { IfErr result (RecordFails form (out.new ≡ out.old)) }
    // The memory that a record may take is limited.
    ensures limit { length held.old.items ≤ most_held → length held.new.items ≤ most_held }
{
    if part.span.leaves() {
        if form == Form::Counted {
            return hold(held, part.bytes);
        }
        return Ok(write_text(out, part.bytes)?);
    }
    write_record(out, form, held.as_slice(), part.bytes)?;
    held.clear();
    Ok(())
}

/// Adds bytes to those of an unfinished record that are held back.
///
/// # Errors
///
/// Returns `Run(OutOfMemory)`, after which `held` is unchanged.
fn hold(held: &mut Vec<u8>, bytes: &[u8]) -> Result<(), EngineFault>
    ensures ok { OnOk result (held.new.items ≡ held.old.items ++ bytes.now) }
    ensures kept { OnErr result (held.new.items ≡ held.old.items) }
    ensures cause { IfErr result (λ fault. fault ≡ engine.Run run.OutOfMemory) }
    ensures limit { length held.old.items ≤ most_held → length held.new.items ≤ most_held }
{
    if bytes.len() > MOST_HELD.saturating_sub(held.len()) {
        return Err(NO_MEMORY);
    }
    match held.extend_from_slice(bytes) {
        Ok(()) => Ok(()),
        Err(_) => Err(NO_MEMORY),
    }
}

/// Writes a record that consists of `front` and `last`.
///
/// # Errors
///
/// Returns `WriteFailed`; in the form `Counted` also `Run(OutOfMemory)`, after which nothing was
/// written, if the record exceeds 4,294,967,295 bytes.
pub fn write_record<W: Write>(
    out: &mut W,
    form: Form,
    front: &[u8],
    last: &[u8],
) -> Result<(), EngineFault>
    ensures ok { OnOk result (Appends (W.contents out.old) (W.contents out.new)
        (record_text form (front.now ++ last.now))) }
    ensures err { OnErr result (AppendsFront (W.contents out.old) (W.contents out.new)
        (record_text form (front.now ++ last.now))) }
    ensures cause { IfErr result (RecordFails form (out.new ≡ out.old)) }
{
    write_head(out, form, front.len() + last.len())?;
    write_text(out, front)?;
    write_text(out, last)?;
    Ok(write_text(out, record_end(form))?)
}

/// Writes what precedes a record of this length.
///
/// # Errors
///
/// As `write_record`.
pub fn write_head<W: Write>(out: &mut W, form: Form, len: usize) -> Result<(), EngineFault>
    ensures ok { OnOk result (Appends (W.contents out.old) (W.contents out.new)
        (record_head form len)) }
    ensures err { OnErr result (AppendsFront (W.contents out.old) (W.contents out.new)
        (record_head form len)) }
    ensures cause { IfErr result (RecordFails form (out.new ≡ out.old)) }
{
    match form {
        Form::Lines | Form::Raw => Ok(()),
        Form::Counted => match u32::try_from(len) {
            Ok(len) => Ok(write_text(out, &length_bytes(len))?),
            Err(_) => Err(NO_MEMORY),
        },
    }
}

/// Returns the terminator of each record.
pub fn record_end(form: Form) -> &'static [u8]
    ensures { result.now ≡ record_end form }
{
    match form {
        Form::Lines => b"\n",
        Form::Raw | Form::Counted => b"",
    }
}
