//! `unpack` of complete files: each image is read once for all of its files.

ghost use Rattle.std.specs.Prelude.{◌≡◌, ◌≢◌, ◌<◌, ◌⊎◌, List, Option, Some, None, ℕ, OnOk, IfOk};
ghost use Rattle.std.specs.Prelude.{OnErr, IfErr, is_some, true, false};
ghost use Rattle.std.specs.Bool.{OnTrue, OnFalse};
ghost use Rattle.tape_set.specs.declared.position.Position.TheVariants.{Finished};
ghost use Rattle.tape_run.specs.ExtractingLocated.{IsHeld, ReadsPart, ReadsLocated, ReadsSections};
ghost use Rattle.tape_run.specs.Causes.{ReadingFails, EndingFails, IsCalm};
ghost use Rattle.tape_run.specs.{ExtractingLocated.ExtractsLocated, GoesBehind.EndsSection};
ghost use Rattle.tape_run.specs.{OutSinks.TellsAlways, Stopping.ReadsOnly};
ghost use Rattle.tape_run.specs.declared.fault.EngineFault.TheVariants as engine;

use crate::extract::images::ImageSource;
use crate::extract::now::Place;
use crate::extract::out_sink::OutSink;
use crate::fault::{EngineFault, NO_MEMORY, RunFault};
use crate::reel_reader::ReelAnswer;
use crate::section::SectionKey;
use crate::session::Session;
use crate::survey::files::FileKey;
use crate::survey::locations::Locations;
use std::io::{Read, Write};
use tape_blocks::Form;
use tape_core::{Answer, PartSink};

/// An image that stays open from file to file. It was read up to and including the first trailer
/// label of a section.
#[derive(Drop)]
pub struct Mounted<R> {
    /// The image's number.
    number: usize,
    /// The file of the section.
    file: FileKey,
    device: R,
}

/// Reads a file from the images on which its sections begin, each section from one image, and
/// writes the file's records as they come. If the file is complete, gives the output its name, and
/// returns the number of records. Returns `None` exactly if the file is not complete: a section has
/// no image in `locations`, or could not be read to its end from its image. Then the output's name
/// is not touched; the session has the records already written.
///
/// The image of the last section stays open. The session of a later file of the set continues
/// there, as if it had read the image from its start. So each byte of an image is read once for all
/// files that are on it one after another.
///
/// # Errors
///
/// Returns `Run` with the fault of a reel, with `OutOfMemory` if there was no memory to open an
/// image, or with `Sink(Failed)` if a record is left unfinished; `WriteFailed` if the output could
/// not be placed. A file that already has the output's name is unchanged, and no image stays open.
pub fn extract_located<W: Write + Drop, R: Read + Drop, L: ImageSource<R>, O: Place<W>>(
    session: &mut Session<OutSink<W>>,
    images: &mut L,
    mounted: &mut Option<Mounted<R>>,
    locations: &Locations,
    form: Form,
    out: &mut O,
) -> Result<Option<u64>, EngineFault>
    // Whatever image is open, it is one with these bytes.
    ensures ok { IfOk result (λ records. (whole : Option (List ℕ))
        → IsHeld session.old.wide R.remaining mounted.old whole
        → ExtractsLocated ⟦<OutSink<W> as PartSink>⟧ L.gives R.remaining locations.now.entries
        session.old session.new images.old images.new (is_some mounted.old) whole mounted.new form
        (TellsAlways W.contents) (O.stands out.new) records) }
    ensures untouched { IfOk result (λ records. records ≡ None → out.new ≡ out.old) }
    ensures err { OnErr result (O.stands out.new ≡ O.stands out.old) }
    ensures let_go { OnErr result (mounted.new ≡ None) }
    // Whatever the result, the session only read on.
    ensures reads { ReadsOnly ⟦<OutSink<W> as PartSink>⟧ session.old session.new }
    ensures wide { session.new.wide ≡ session.old.wide }
    // While the images were read the sink refused a call, or memory ran out; or the file is
    // complete, and its output could not be ended; or a write failed.
    ensures cause { IfErr result (λ fault.
        ReadingFails ⟦<OutSink<W> as PartSink>⟧ false fault session.old session.new
        ⊎ ((session.new.core.position ≡ Finished)
        × EndingFails session.new.sink.begun session.new.sink.form form fault)) }
    // Nothing but the output of a complete file is written here.
    ensures finished { IfErr result (λ fault. fault ≡ EngineFault.WriteFailed
        → session.new.core.position ≡ Finished) }
{
    let complete = read_sections(session, images, mounted, locations)?;
    if !complete {
        return Ok(None);
    }
    match session.place_output(form, out) {
        Ok(records) => Ok(Some(records)),
        Err(fault) => {
            *mounted = None;
            Err(fault)
        }
    }
}

/// Reads the sections of the session's file, each from the image on which it begins. Returns
/// whether the file is complete.
fn read_sections<S: PartSink, R: Read + Drop, L: ImageSource<R>>(
    session: &mut Session<S>,
    images: &mut L,
    mounted: &mut Option<Mounted<R>>,
    locations: &Locations,
) -> Result<bool, EngineFault>
    ensures ok { IfOk result (λ complete. (whole : Option (List ℕ))
        → IsHeld session.old.wide R.remaining mounted.old whole
        → ReadsSections S.PartSink L.gives R.remaining locations.now.entries complete
        session.old session.new images.old images.new (is_some mounted.old) whole mounted.new) }
    ensures finished { IfOk result (λ complete. complete ≡ true
        → session.new.core.position ≡ Finished) }
    ensures let_go { OnErr result (mounted.new ≡ None) }
    ensures reads { ReadsOnly S.PartSink session.old session.new }
    ensures wide { session.new.wide ≡ session.old.wide }
    ensures cause { IfErr result (λ fault.
        ReadingFails S.PartSink false fault session.old session.new) }
    ensures read_only { IfErr result (λ fault. fault ≢ EngineFault.WriteFailed) }
    ensures calm { OnOk result (IsCalm S.PartSink session.old session.new) }
{
    let mut next = 0u32;
    'sections: while let Some(want) = session.want() {
        if u32::from(want.sect) < next {
            return Ok(false);
        }
        next = u32::from(want.sect) + 1;
        let FileKey { set_id, file } = session.file_key();
        let sect = want.sect;
        let Some(&number) = locations.get(&SectionKey { set_id, file, sect }) else {
            return Ok(false);
        };
        let held = mounted.take();
        *mounted = read_section(session, images, held, number)?;
        if mounted.is_none() {
            return Ok(false);
        }
    }
    Ok(true)
}

/// Reads section `number` from an image: from the current position of the open image, if the
/// session of an earlier file of the set stopped there, otherwise from the start of an image.
/// Returns the image if a section ended.
fn read_section<S: PartSink, R: Read + Drop, L: ImageSource<R>>(
    session: &mut Session<S>,
    images: &mut L,
    held: Option<Mounted<R>>,
    number: usize,
) -> Result<Option<Mounted<R>>, EngineFault>
    requires waits { session.old.core.position ≢ Finished }
    ensures ok { IfOk result (λ after. (whole : Option (List ℕ))
        → IsHeld session.old.wide R.remaining held whole
        → ReadsLocated S.PartSink L.gives R.remaining number session.old session.new images.old
        images.new (is_some held) whole after) }
    ensures file { (session.new.core.set_id ≡ session.old.core.set_id)
        × (session.new.core.file ≡ session.old.core.file) }
    ensures reads { ReadsOnly S.PartSink session.old session.new }
    ensures wide { session.new.wide ≡ session.old.wide }
    ensures unfinished { IfOk result (λ after. after ≡ None
        → session.new.core.position ≢ Finished) }
    ensures cause { IfErr result (λ fault.
        ReadingFails S.PartSink false fault session.old session.new) }
    ensures read_only { IfErr result (λ fault. fault ≢ EngineFault.WriteFailed) }
    ensures calm { OnOk result (IsCalm S.PartSink session.old session.new) }
{
    let file = session.file_key();
    match held {
        Some(held) => {
            if held.number == number
                && held.file.set_id == file.set_id
                && held.file.file < file.file
            {
                let mut device = held.device;
                let answer = session.reel_behind(&mut device)?;
                if ends_section(&answer) {
                    return Ok(Some(Mounted {
                        number,
                        file,
                        device,
                    }));
                }
                return Ok(None);
            }
        }
        None => {}
    }
    let Ok(image) = images.mount(number) else {
        return Err(NO_MEMORY);
    };
    let Some(mut device) = image else {
        return Ok(None);
    };
    let answer = session.reel(&mut device)?;
    if ends_section(&answer) {
        return Ok(Some(Mounted {
            number,
            file,
            device,
        }));
    }
    Ok(None)
}

/// Returns whether a reading completed a section.
fn ends_section(answer: &ReelAnswer) -> bool
    ensures yes { OnTrue result (EndsSection answer.now.answer) }
    ensures no { OnFalse result (answer.now.answer ≢ Answer.Complete) }
{
    matches!(answer.answer, Answer::SectionDone | Answer::Complete)
}
