//! The recovery of a file from opened images, with a stage or without one.

use super::Task;
use super::draft::Drafted;
use super::out::{Output, Way};
use crate::explain::FaultSite;
use crate::fault::{OUT_OF_MEMORY, ToolFault};
use crate::images::Images;
use crate::program::{End, extract_end};
use crate::record_form::Under;
use crate::refusal::are_files;
use crate::screen::Progress;
use crate::staged::staged_before;
use crate::staging::{StageSink, session_in};
use crate::unpack::{Listed, Summed};
use crate::warned::Warned;
use std::fs::File;
use std::io;
use std::io::{BufWriter, Read};
use tape_core::{MemorySink, PartWalk, SinkFault};
use tape_run::{
    EngineFault, ImageSource, Opener, OutSink, RunFault, Session, Translated, extract_in_passes,
    extract_watched,
};
use tape_set::Want;

/// Recovers the file `task` from images. They are opened by the first of `openers` or, if the
/// records are written as they are read, by the second. `listed` gets what is expected next, if
/// something is missing, and the checksum of the output if it is needed. On error, `site` says
/// where it occurred.
pub fn recover<'a, R, I, L, M, N>(
    rt: &R,
    task: &Task<'a>,
    images: &mut L,
    openers: (&mut M, &mut N),
    way: Way<'_>,
    listed: &mut Listed,
    site: &mut FaultSite<'a>,
) -> Result<End, ToolFault>
where
    R: Progress,
    I: Read + Drop,
    L: ImageSource<I>,
    M: Opener<MemorySink, I, L> + Opener<StageSink, I, L>,
    N: Opener<OutSink<Translated<BufWriter<File>>>, I, L>,
{
    let (opener, streamer) = openers;
    let Some(path) = task.stage else {
        return extract_now(rt, task, images, (opener, streamer), way, listed);
    };
    *site = FaultSite::Stage(path);
    let mut session = session_in(rt.host(), path, task.set_id, task.file)?;
    listed.staged = staged_before(session.want());
    if task.wide {
        session.widen();
    }
    *site = FaultSite::Out(task.out);
    let mut output = Output::new(rt, way)?;
    let answer = gather(rt, task, images, opener, &mut output, listed, &mut session);
    let end = output.ended(extract_end(answer));
    if let End::Faulted(ToolFault::Run(_)) = end {
        *site = FaultSite::Stage(path);
    }
    Ok(end)
}

/// Recovers the file from images that are read once, in their order and as they are.
pub fn extract_in_order<'n, 'a, R: Progress>(
    rt: &'n R,
    task: &Task<'a>,
    named: &'n [&'n str],
    way: Way<'_>,
    reels: Option<u64>,
    listed: &mut Listed,
    site: &mut FaultSite<'a>,
) -> Result<End, ToolFault> {
    let images = &mut Images::new(rt, named);
    images.reels = reels;
    let is_on = are_files(rt.host(), named);
    let openers = (
        &mut Warned::new(rt.alloc(), task, is_on),
        &mut Warned::new(rt.alloc(), task, is_on),
    );
    recover(rt, task, images, openers, way, listed, site)
}

/// Recovers a file without a stage. If the images are read once, writes the records as they are
/// read, unless the output is written in place. `listed` gets the same as in `recover`.
fn extract_now<R, I, L, M, N>(
    rt: &R,
    task: &Task<'_>,
    images: &mut L,
    openers: (&mut M, &mut N),
    way: Way<'_>,
    listed: &mut Listed,
) -> Result<End, ToolFault>
where
    R: Progress,
    I: Read + Drop,
    L: ImageSource<I>,
    M: Opener<MemorySink, I, L>,
    N: Opener<OutSink<Translated<BufWriter<File>>>, I, L>,
{
    let (opener, streamer) = openers;
    Ok(match Output::new(rt, way)? {
        Output::New(draft, out) if !task.again => {
            extract_written(rt, task, images, streamer, (draft, out), &mut listed.want)
        }
        output => extract_held(rt, task, images, opener, output, listed),
    })
}

/// Recovers a file into a draft, to which the records are written as they are read.
fn extract_written<R, I, L, N>(
    rt: &R,
    task: &Task<'_>,
    images: &mut L,
    opener: &mut N,
    drafted: Drafted<'_, R>,
    awaited: &mut Option<Want>,
) -> End
where
    R: Progress,
    I: Read + Drop,
    L: ImageSource<I>,
    N: Opener<OutSink<Translated<BufWriter<File>>>, I, L>,
{
    let (draft, out) = drafted;
    let mut place = Under(draft);
    let form = task.form.given();
    let sink = OutSink::new(rt.alloc(), task.form.over(out), form);
    let Ok(mut session) = Session::new(rt.alloc(), task.set_id, task.file, sink) else {
        return place.0.ended(End::WrongWords);
    };
    let (session, report) = (&mut session, &mut io::writer(rt));
    let answer = extract_watched(session, images, opener, form, &mut place, report);
    *awaited = session.want();
    place.0.ended(end_as_written(answer))
}

/// Recovers a file whose data is held in memory. If the images are read repeatedly, the data of a
/// suspect reel can be dropped again: the session has a checkpoint at its start.
fn extract_held<R, I, L, M>(
    rt: &R,
    task: &Task<'_>,
    images: &mut L,
    opener: &mut M,
    output: Output<'_, R>,
    listed: &mut Listed,
) -> End
where
    R: Progress,
    I: Read + Drop,
    L: ImageSource<I>,
    M: Opener<MemorySink, I, L>,
{
    let mut output = output;
    let sink = MemorySink::new(rt.alloc());
    let Ok(mut session) = Session::new(rt.alloc(), task.set_id, task.file, sink) else {
        return output.ended(End::WrongWords);
    };
    if task.again && session.note().is_err() {
        return output.ended(End::Faulted(OUT_OF_MEMORY));
    }
    if task.wide {
        session.widen();
    }
    let answer = gather(rt, task, images, opener, &mut output, listed, &mut session);
    output.ended(extract_end(answer))
}

/// Returns how the run ends: a part that could not be stored is a record that could not be written.
pub fn end_as_written(answer: Result<Option<Want>, EngineFault>) -> End {
    match answer {
        Err(EngineFault::Run(RunFault::Sink(SinkFault::Device))) => {
            extract_end(Err(EngineFault::WriteFailed))
        }
        answer => extract_end(answer),
    }
}

/// Reads the images into the session, and writes the recovered file to `output` if it is complete.
/// `listed` gets the same as in `recover`.
fn gather<R, I, L, M, S>(
    rt: &R,
    task: &Task<'_>,
    images: &mut L,
    opener: &mut M,
    output: &mut Output<'_, R>,
    listed: &mut Listed,
    session: &mut Session<S>,
) -> Result<Option<Want>, EngineFault>
where
    R: Progress,
    I: Read + Drop,
    L: ImageSource<I>,
    M: Opener<S, I, L>,
    S: PartWalk + Drop,
{
    let (mut summed, report) = (Summed::new(output, listed.is_wanted), &mut io::writer(rt));
    let (again, form) = (task.again, task.form.given());
    let out = &mut task.form.over(&mut summed);
    let answer = extract_in_passes(session, images, opener, again, form, out, report);
    listed.sum = summed.sum();
    listed.want = session.want();
    answer
}
