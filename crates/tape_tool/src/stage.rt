//! `stage`: shows what a stage contains, and writes its records.
pub mod show;

use crate::command_spec::{CommandSpec, Kind, Word};
use crate::explain::FaultSite;
use crate::extract::{Output, Way, way_to_out};
use crate::fault::ToolFault;
use crate::help;
use crate::program::{End, stage_end};
use crate::refusal::{Refusal, open};
use crate::screen::Progress;
use crate::staging::locked_stage;
use crate::words::{FORM, at_most_one, form_of, text_of};
use clap::ArgMatches;
use show::show_stage;
use std::fs::{File, Metadata, OpenFile};
use std::io;
use std::io::{Error, ErrorKind, Read, Seek, SeekFrom, Write};
use tape_blocks::Form;
use tape_stage::{BufferedFile, buffered_file};

/// The request to `stage`: the stage to show, and the output for its records.
#[derive(Clone, Copy)]
pub struct StageOrder<'a> {
    /// The path of the stage.
    pub stage: &'a str,
    /// The path of the output for its records, if they are written.
    pub out: Option<&'a str>,
    /// The form in which records are written.
    pub form: Form,
    /// Whether a damaged stage is accepted.
    pub damaged: bool,
}

pub const STAGE: &CommandSpec = &CommandSpec {
    name: "stage",
    about: help::ABOUT_STAGE,
    after_help: help::AFTER_STAGE,
    words: &[
        Word("PATH", Kind::Text, help::STAGE_READ),
        Word(
            "OUT",
            Kind::AtMostOne("tape stage [--form FORM] [--damaged] <PATH> [OUT]"),
            help::OUT_OF_STAGE,
        ),
        FORM,
        Word("damaged", Kind::Flag, help::DAMAGED),
    ],
};

pub fn stage_order<'a>(matches: &ArgMatches<'a>) -> Result<StageOrder<'a>, Refusal> {
    Ok(StageOrder {
        stage: text_of(matches, "PATH"),
        out: at_most_one(matches, "OUT", help::OUT_IS_DASH, help::ONE_OUT)?,
        form: form_of(matches),
        damaged: matches.get_flag("damaged"),
    })
}

/// Shows the stage that the arguments name, and writes its records to OUT if it is named. On error,
/// `site` says where it occurred.
pub fn stage<'a, R: Progress>(
    rt: &R,
    order: &StageOrder<'a>,
    site: &mut FaultSite<'a>,
) -> Result<End, Refusal> {
    let Some(out) = order.out else {
        return stage_to(rt, order, None, site);
    };
    *site = FaultSite::Out(out);
    let target = &mut String::new(rt.alloc());
    let way = way_to_out(rt.host(), out, Some(order.stage), None, &[], target)?;
    stage_to(rt, order, Some(way), site)
}

/// Shows the stage, and writes its records to OUT in this way, if OUT is named. On error, `site` says
/// where it occurred.
fn stage_to<'a, R: Progress>(
    rt: &R,
    order: &StageOrder<'a>,
    way: Option<Way<'_>>,
    site: &mut FaultSite<'a>,
) -> Result<End, Refusal> {
    *site = FaultSite::Stage(order.stage);
    let alloc = rt.alloc();
    let file = open(rt.host(), order.stage)?;
    // No other run may write to it. On a file system without locks, other runs are not excluded.
    locked_stage(file.try_lock_shared())?;
    let disk = buffered_file(alloc, ReadOnly(file)).map_err(|fault| ToolFault::Stage(fault))?;
    let end = match way {
        Some(way) => {
            *site = FaultSite::Out(order.out.unwrap_or("-"));
            write_stage(rt, order, disk, Output::new(rt, way)?)
        }
        None => {
            *site = FaultSite::Lines;
            let (out, report) = (&mut io::sink(), &mut io::writer(rt));
            stage_end(show_stage(alloc, disk, order.damaged, None, out, report).0)
        }
    };
    if let End::Faulted(ToolFault::Stage(_)) = end {
        *site = FaultSite::Stage(order.stage);
    }
    Ok(end)
}

/// Shows the stage in `disk`, and writes its records to `out`.
fn write_stage<R: Progress>(
    rt: &R,
    order: &StageOrder<'_>,
    disk: BufferedFile<ReadOnly>,
    out: Output<'_, R>,
) -> End {
    let (form, mut out) = (Some(order.form), out);
    let report = &mut io::writer(rt);
    let (shown, _) = show_stage(rt.alloc(), disk, order.damaged, form, &mut out, report);
    out.ended(stage_end(shown))
}

/// A file that is never changed: writing and truncating fail. Syncing does nothing and reports
/// success, since a stage is synced when it is opened.
#[derive(Drop)]
pub struct ReadOnly(pub File);

impl Read for ReadOnly {
    fn read(&mut self, buf: &mut [u8]) -> io::Result<usize> {
        self.0.read(buf)
    }
}

impl Write for ReadOnly {
    fn write(&mut self, _buf: &[u8]) -> io::Result<usize> {
        Err(Error::from(ErrorKind::Unsupported))
    }

    fn flush(&mut self) -> io::Result<()> {
        Ok(())
    }
}

impl Seek for ReadOnly {
    fn seek(&mut self, pos: SeekFrom) -> io::Result<u64> {
        self.0.seek(pos)
    }
}

impl OpenFile for ReadOnly {
    fn metadata(&self) -> io::Result<Metadata> {
        self.0.metadata()
    }

    fn set_len(&self, _size: u64) -> io::Result<()> {
        Err(Error::from(ErrorKind::Unsupported))
    }

    fn sync_all(&self) -> io::Result<()> {
        Ok(())
    }

    fn sync_data(&self) -> io::Result<()> {
        Ok(())
    }
}
