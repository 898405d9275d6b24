//! `extract`: recovers a file of a set from images.

mod doubts;
mod draft;
mod out;
mod recovery;

use crate::command_spec::{CommandSpec, Kind, Word};
use crate::compared::Compared;
use crate::dates::date_output;
use crate::explain::FaultSite;
use crate::fault::ToolFault;
use crate::help;
use crate::images::in_reading_order;
use crate::names::{Named, names_of};
use crate::normal::NormalImages;
use crate::program::End;
use crate::readings::{all_readings, image_of, names_in};
use crate::record_form::RecordForm;
use crate::recording::{PROVENANCE, ReadImages, new_record, provenance_of, record_extracted};
use crate::refusal::{Refusal, is_file};
use crate::relabel::{JOIN, RENUMBER, Relabels, relabel, relabels_of};
use crate::screen::Progress;
use crate::staged::note_staged;
use crate::uncounted::report_uncounted;
use crate::unpack::{Listed, Record};
use crate::words::{FORM, TEXT, named, out_of, record_form_of, set_id_of, text_of};
use clap::ArgMatches;
use doubts::{doubt_copies, files_in};
pub use draft::{Draft, no_draft};
pub use out::{Output, Way, is_one_name, way_to_out};
pub use recovery::end_as_written;
use std::alloc::Global;
use std::io;
use tape_label::Field;
use tape_run::{AsTheyAre, FileKey, FoundFiles, find_files};
use tape_set::Want;

/// The request to `extract`: a file of a set, to be recovered from images in their order.
#[derive(Drop)]
pub struct ExtractOrder<'a> {
    /// The file to recover.
    pub task: Task<'a>,
    /// The images, in the order in which they are read.
    pub images: Named<'a>,
    /// Whether the output keeps the time at which it was written.
    pub now: bool,
    /// The path of the record of how the file was recovered, if one is to be created.
    pub provenance: Option<&'a str>,
    /// What is requested of labels.
    pub relabels: Relabels,
}

/// The file of a set to recover, and how to recover it.
#[derive(Clone, Copy)]
pub struct Task<'a> {
    /// The identifier of its set.
    pub set_id: Field<6>,
    /// The file's number in its set, 1 to 9,999.
    pub file: u16,
    /// The path of the output.
    pub out: &'a str,
    /// The form in which its records are written.
    pub form: RecordForm,
    /// The path of the stage, where recovered data is saved.
    pub stage: Option<&'a str>,
    /// Whether the images are read again until a pass recovers nothing.
    pub again: bool,
    /// Whether the images are read in the wider reading.
    pub wide: bool,
}

pub const EXTRACT: &CommandSpec = &CommandSpec {
    name: "extract",
    about: help::ABOUT_EXTRACT,
    after_help: help::AFTER_EXTRACT,
    words: &[
        Word("SET", Kind::Text, help::SET),
        Word("FILE", Kind::Number(1, 9_999), help::FILE),
        Word("OUT", Kind::Text, help::OUT),
        Word("IMAGE", Kind::Images, help::REELS),
        FORM,
        TEXT,
        Word("stage", Kind::TextOption("PATH"), help::STAGE),
        Word("again", Kind::Flag, help::AGAIN),
        JOIN,
        RENUMBER,
        Word("now", Kind::Flag, help::NOW_OF_OUT),
        PROVENANCE,
    ],
};

pub fn extract_order<'a>(
    alloc: Global,
    matches: &ArgMatches<'a>,
) -> Result<ExtractOrder<'a>, Refusal> {
    let Some(set_id) = set_id_of(text_of(matches, "SET")) else {
        return Err(Refusal::Value("SET", help::WRONG_SET));
    };
    let task = Task {
        set_id,
        file: matches.get_one::<u16>("FILE").unwrap_or(0),
        out: out_of(matches, help::OUT_IS_DASH)?,
        form: record_form_of(matches),
        stage: matches.get_str("stage"),
        again: matches.get_flag("again"),
        wide: false,
    };
    let provenance = provenance_of(matches)?;
    if provenance.is_some() && !task.again {
        return Err(Refusal::Words(help::PROVENANCE_NEEDS_AGAIN));
    }
    let relabels = relabels_of(alloc, matches)?;
    if relabels.is_wanted() && !task.again {
        return Err(Refusal::Words(help::RELABELS_NEED_AGAIN));
    }
    Ok(ExtractOrder {
        task,
        images: named(alloc, matches, help::TOO_MANY_IMAGES)?,
        now: matches.get_flag("now"),
        provenance,
        relabels,
    })
}

/// Recovers the file that the arguments name. If `explained`, names each image on standard error
/// before it is read. If something is missing, `awaited` says what is expected next. On error,
/// `site` says where it occurred.
pub fn extract<'a, R: Progress>(
    rt: &R,
    order: &ExtractOrder<'a>,
    explained: bool,
    awaited: &mut Option<Want>,
    site: &mut FaultSite<'a>,
) -> Result<End, Refusal> {
    let mut text = String::new(rt.alloc());
    let named = names_of(rt.host(), &order.images, &mut text, site)?;
    *site = FaultSite::Out(order.task.out);
    let reels = explained.then_some(0);
    extract_named(rt, order, named.as_slice(), reels, awaited, site)
}

/// Recovers the file from the images `named`; names each before it is read, if `reels` is a number.
fn extract_named<'n, 'a, R: Progress>(
    rt: &'n R,
    order: &ExtractOrder<'a>,
    named: &'n [&'n str],
    reels: Option<u64>,
    awaited: &mut Option<Want>,
    site: &mut FaultSite<'a>,
) -> Result<End, Refusal> {
    let (task, host, target) = (&order.task, rt.host(), &mut String::new(rt.alloc()));
    let way = way_to_out(host, task.out, task.stage, order.images.list, named, target)?;
    let outs = [task.out, task.stage.unwrap_or(task.out)];
    let mut record = new_record(host, order.provenance, &outs, named, site)?;
    relabel(rt, &order.relabels, named)?;
    let mut listed = Listed::new(rt.alloc(), record.is_some());
    let end = if task.again {
        let (way, record, listed) = ((way, reels), &mut record, &mut listed);
        extract_further(rt, order, named, way, record, listed, site)
    } else {
        recovery::extract_in_order(rt, task, named, way, reels, &mut listed, site)
    };
    *awaited = listed.want;
    let end = end?;
    if end == End::Done && !order.now {
        date_output(rt, task.out, named, task.set_id, task.file);
    }
    Ok(end)
}

/// How the images of a file are read.
#[derive(Drop)]
struct Plan<'n> {
    /// The names of the images, in the order in which they were named.
    named: &'n [&'n str],
    /// The same names, in the order in which the images are read.
    names: Vec<&'n str>,
    /// Whether images are surveyed first.
    surveyed: bool,
    /// Whether the file may be read in the wider reading.
    wide: bool,
    /// Whether a section of it is complete on no image.
    lacks: bool,
    /// What was found on the images, if they were surveyed.
    met: Option<FoundFiles>,
    /// What opens the images.
    opener: Compared,
}

/// Recovers the file from the images `named` and from the readings after their wrong words.
fn extract_further<'a, R: Progress>(
    rt: &R,
    order: &ExtractOrder<'a>,
    named: &[&str],
    way: (Way<'_>, Option<u64>),
    record: &mut Option<Record>,
    listed: &mut Listed,
    site: &mut FaultSite<'a>,
) -> Result<End, ToolFault> {
    let all = all_readings(rt, named)?;
    let names = names_in(rt.alloc(), all.as_slice())?;
    extract_again(rt, order, names.as_slice(), way, record, listed, site)
}

/// Recovers the file from images in normal form, in the wider reading if their survey permits it.
/// If `way` has a number, names each image before it is read. Writes the record, if requested.
///
/// # Errors
///
/// As `recover` and `record_extracted`; also `Conflict`: `site` then names two images.
fn extract_again<'n, 'a, R: Progress>(
    rt: &'n R,
    order: &ExtractOrder<'a>,
    named: &'n [&'n str],
    way: (Way<'_>, Option<u64>),
    record: &mut Option<Record>,
    listed: &mut Listed,
    site: &mut FaultSite<'a>,
) -> Result<End, ToolFault> {
    let surveyed = named.iter().any(|name| is_file(rt.host(), name));
    let mut plan = Plan {
        named,
        names: Vec::new(rt.alloc()),
        surveyed,
        wide: false,
        lacks: false,
        met: None,
        opener: Compared::new(rt.alloc(), surveyed),
    };
    plan.opener.is_recorded = listed.is_wanted;
    extract_planned(rt, order, &mut plan, way, record, listed, site)
}

/// Makes the plan, and recovers the file by it.
fn extract_planned<'n, 'a, R: Progress>(
    rt: &'n R,
    order: &ExtractOrder<'a>,
    plan: &mut Plan<'n>,
    way: (Way<'_>, Option<u64>),
    record: &mut Option<Record>,
    listed: &mut Listed,
    site: &mut FaultSite<'a>,
) -> Result<End, ToolFault> {
    if plan.surveyed {
        plan_reading(rt, order, plan, site)?;
    } else {
        plan.names.extend_from_slice(plan.named)?;
    }
    if plan.lacks {
        doubt_copies(rt, order, plan, site)?;
    }
    let task = &Task {
        wide: plan.wide,
        ..order.task
    };
    let end = read_planned(rt, task, plan, way, listed, site)?;
    if end == End::Done {
        let Task { set_id, file, .. } = *task;
        note_staged(rt, plan.met.as_ref(), &FileKey { set_id, file }, listed);
    }
    let end = report_uncounted(rt, task.set_id, task.file, end, &mut io::writer(rt));
    let (Some(met), Some(path)) = (&plan.met, order.provenance) else {
        return Ok(end);
    };
    let Some(record) = &mut *record else {
        return Ok(end);
    };
    *site = FaultSite::Provenance(path);
    let images = ReadImages {
        order: plan.names.as_slice(),
        names: plan.named,
        met,
    };
    record_extracted(rt, record, task, &images, &plan.opener, listed, end)
}

/// Recovers the file from the images in the order of the plan.
fn read_planned<'a, R: Progress>(
    rt: &R,
    task: &Task<'a>,
    plan: &mut Plan<'_>,
    (way, reels): (Way<'_>, Option<u64>),
    listed: &mut Listed,
    site: &mut FaultSite<'a>,
) -> Result<End, ToolFault> {
    let images = &mut NormalImages::new(rt, plan.names.as_slice());
    images.images.reels = reels;
    if plan.surveyed {
        images.is_told();
    }
    let openers = (&mut plan.opener, &mut AsTheyAre);
    recovery::recover(rt, task, images, openers, way, listed, site)
}

/// Surveys the images: those on which a section of the file begins are read first.
/// An image that can be read only once is not surveyed.
///
/// # Errors
///
/// Returns `Conflict` if the survey finds labels of different files with the file's number, or
/// complete copies of one of its sections that differ: `site` then names two such images.
fn plan_reading<'n, 'a, R: Progress>(
    rt: &'n R,
    order: &ExtractOrder<'a>,
    plan: &mut Plan<'n>,
    site: &mut FaultSite<'a>,
) -> Result<(), ToolFault> {
    let (task, names) = (&order.task, plan.named);
    let files = files_in(rt, names)?;
    let met = find_files(rt.alloc(), &mut NormalImages::new(rt, files.as_slice()))?;
    for file in met.files.as_slice() {
        if file.set_id != task.set_id || file.file != task.file {
            continue;
        }
        plan.wide = file.wide;
        plan.lacks = file.lacks.is_some();
        if file.differs {
            *site = match file.conflict {
                Some((one, other)) => {
                    let (one, other) = (image_of(names, one), image_of(names, other));
                    FaultSite::Conflict(order.images.image(one), order.images.image(other))
                }
                None => FaultSite::Unknown,
            };
            return Err(ToolFault::Conflict);
        }
    }
    plan.names = in_reading_order(rt.alloc(), names, &met, (task.set_id, task.file))?;
    plan.met = Some(met);
    Ok(())
}
