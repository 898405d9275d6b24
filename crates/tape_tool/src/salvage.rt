//! `salvage`: recovers the readable parts of a file that no image has completely.

use crate::command_spec::{CommandSpec, Kind, Word};
use crate::dates::date_output;
use crate::explain::FaultSite;
use crate::extract::{Draft, no_draft};
use crate::fault::FileFault;
use crate::help;
use crate::names::{Named, names_of};
use crate::normal::NormalImages;
use crate::program::{End, check_end};
use crate::readings::{all_readings, names_in};
use crate::record_form::{RecordForm, Under};
use crate::recording::{PROVENANCE, RecordedReport, new_record, provenance_of, record_salvaged};
use crate::refusal::{Refusal, no_pipes};
use crate::relabel::{JOIN, RENUMBER, Relabels, relabel, relabels_of};
use crate::screen::{Host, Progress};
use crate::uncounted::report_uncounted;
use crate::unpack::{Summed, SummedDraft};
use crate::words::{TEXT, form_of, named, out_of, set_id_of, text_of};
use clap::ArgMatches;
use std::alloc::Global;
use std::{fs, io};
use tape_blocks::Form;
use tape_run::{Content, SalvageTask, salvage_joined};
use tape_writer::system::found;

/// The request to `salvage`: the file to recover, the images and the output.
#[derive(Drop)]
pub struct SalvageOrder<'a> {
    /// The file to recover.
    pub task: SalvageTask,
    /// The form in which its records are written.
    pub form: RecordForm,
    /// The path of the output.
    pub out: &'a str,
    /// The images, in the order in which they are named.
    pub images: Named<'a>,
    /// Whether the output keeps the time at which it was written.
    pub now: bool,
    /// The path of the record of how the file was recovered, if one is to be created.
    pub provenance: Option<&'a str>,
    /// What is requested of labels.
    pub relabels: Relabels,
}

const FORMS_OF_SALVAGE: &[&str] = &["lines", "raw", "counted", "blocks"];

pub const SALVAGE: &CommandSpec = &CommandSpec {
    name: "salvage",
    about: help::ABOUT_SALVAGE,
    after_help: help::AFTER_SALVAGE,
    words: &[
        Word("SET", Kind::Text, help::SET),
        Word("FILE", Kind::Number(1, 9_999), help::FILE),
        Word("OUT", Kind::Text, help::OUT_OF_SALVAGE),
        Word("IMAGE", Kind::Images, help::SHELF),
        Word(
            "form",
            Kind::NameOption("FORM", FORMS_OF_SALVAGE, &["lines"]),
            help::FORM_OF_SALVAGED,
        ),
        TEXT,
        Word("now", Kind::Flag, help::NOW_OF_OUT),
        JOIN,
        RENUMBER,
        PROVENANCE,
    ],
};

pub fn salvage_order<'a>(
    alloc: Global,
    matches: &ArgMatches<'a>,
) -> Result<SalvageOrder<'a>, Refusal> {
    let Some(set_id) = set_id_of(text_of(matches, "SET")) else {
        return Err(Refusal::Value("SET", help::WRONG_SET));
    };
    let out = out_of(matches, help::MERGED_OUT_IS_DASH)?;
    // Blocks are written without terminators.
    let (content, form) = match matches.get_str("form") {
        Some("blocks") => (Content::Blocks, Form::Raw),
        _ => (Content::Records, form_of(matches)),
    };
    let is_text = matches.get_flag("text");
    let form = RecordForm { form, is_text };
    let task = SalvageTask {
        set_id,
        file: matches.get_one::<u16>("FILE").unwrap_or(0),
        content,
        form: form.given(),
    };
    let images = named(alloc, matches, help::TOO_MANY_TO_SALVAGE)?;
    let now = matches.get_flag("now");
    let provenance = provenance_of(matches)?;
    Ok(SalvageOrder {
        task,
        form,
        out,
        images,
        now,
        provenance,
        relabels: relabels_of(alloc, matches)?,
    })
}

/// Recovers the readable parts of the file that the arguments name. An existing output is never
/// overwritten: it may contain more of the file than can be read now. On error, `site` says where
/// it occurred.
pub fn salvage<'a, R: Progress>(
    rt: &R,
    order: &SalvageOrder<'a>,
    site: &mut FaultSite<'a>,
) -> Result<End, Refusal> {
    let mut text = String::new(rt.alloc());
    let names = names_of(rt.host(), &order.images, &mut text, site)?;
    *site = FaultSite::Out(order.out);
    salvage_named(rt, order, names.as_slice(), site)
}

/// Refuses an output that exists, before any image is read.
fn no_output<R: Host>(rt: &R, out: &str) -> Result<(), Refusal> {
    match found(fs::symlink_metadata(rt, out))? {
        Some(_) => Err(Refusal::from(FileFault::Exists)),
        None => Ok(()),
    }
}

/// Recovers the readable parts of the file from the images named `names`, and writes the record, if
/// there is to be one.
fn salvage_named<'a, R: Progress>(
    rt: &R,
    order: &SalvageOrder<'a>,
    names: &[&str],
    site: &mut FaultSite<'a>,
) -> Result<End, Refusal> {
    no_draft(names, order.images.list)?;
    no_draft(&[order.out], None)?;
    no_pipes(rt.host(), names)?;
    let mut record = new_record(rt.host(), order.provenance, &[order.out], names, site)?;
    no_output(rt.host(), order.out)?;
    let named = names;
    let all = all_readings(rt, named)?;
    let names = names_in(rt.alloc(), all.as_slice())?;
    let names = names.as_slice();
    let (draft, out) = Draft::new(rt, order.out)?;
    let mut place = Under(SummedDraft { draft, found: None });
    if let Err(refusal) = relabel(rt, &order.relabels, named) {
        let _ = place.0.draft.ended(End::WrongWords);
        return Err(refusal);
    }
    let (task, images) = (&order.task, &mut NormalImages::new(rt, names));
    let out = order.form.over(Summed::new(out, record.is_some()));
    let mut report = RecordedReport::new(rt.alloc(), io::writer(rt), record.is_some());
    let done = salvage_joined(rt.alloc(), task, images, out, &mut place, &mut report);
    if place.0.draft.has_taken() && !order.now {
        date_output(rt, order.out, names, task.set_id, task.file);
    }
    let end = place.0.draft.ended(check_end(done));
    let end = report_uncounted(rt, task.set_id, task.file, end, &mut report);
    match (&mut record, order.provenance, place.0.found, end) {
        (Some(record), Some(path), Some(sum), End::Done | End::Incomplete) => {
            *site = FaultSite::Provenance(path);
            let output = (task, order.form, order.out);
            Ok(record_salvaged(rt, record, output, names, &report, sum, end)?)
        }
        _ => Ok(end),
    }
}
