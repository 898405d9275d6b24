//! `survey`: describes images, by their names, and the sets and files on them.
ghost use Rattle.std.specs.Prelude.{◌≡◌, length, map, IfOk, OnErr, IfErr};
ghost use Rattle.tape_run.specs.{Checked.IsCheckFault, SurveySets.is_all};
ghost use Rattle.tape_run.specs.{Survey.Surveys, Survey.SurveysInPart, SurveyRows.survey_rows};
ghost use Rattle.tape_run.specs.declared.survey.Wording.TheVariants.{Rows};

pub(crate) mod copies;
mod course;
mod damages;
pub(crate) mod dates;
pub(crate) mod digest;
mod facts;
pub(crate) mod files;
pub(crate) mod fits;
mod forms;
mod front;
pub(crate) mod gaps;
pub(crate) mod glance;
pub(crate) mod locations;
mod onward;
pub(crate) mod padding;
mod problems;
mod rows;
mod sets;
mod strays;
pub(crate) mod view;
mod volumes;
mod words;

use crate::check::pass_on;
use crate::extract::images::ImageSource;
use crate::fault::{EngineFault, RunFault};
use rows::rows;
use sets::is_all;
use std::alloc::{AllocError, Global};
use std::io::{Read, Write};
use view::{Findings, ImageSurvey, read_images};
use words::words;

/// The form in which a survey is printed.
#[derive(Clone, Copy)]
pub enum Wording {
    /// In words, for people: what needs attention, totals and, of at most five images, the rest.
    Words,
    /// The same with the rest for any number of images.
    Full,
    /// In tab-separated rows, for scripts.
    Rows,
}

/// Describes the images named `names`: prints what needs attention; then the numbers of images,
/// sets and files, and whether all is well; and then, of at most five images or as `Full`, each
/// image, each set with its files, and the sections with several complete copies that agree. As
/// rows, each image, section, file and section with several copies has a row.
///
/// Returns whether all is well: nothing is missing, each section that was found has a complete
/// copy, no complete copies differ, no number has labels of different files, and every image was
/// read completely.
///
/// Images are opened in the order of their names, each read to its end or to a fault, and then
/// closed. Nothing is printed before, since a copy on any image may differ from one on the first.
/// Allocates for the reader of one image, for what each image is, for the sections, copies and
/// files that were found, and for the text.
///
/// # Errors
///
/// Returns `WriteFailed` if the report could not be written, and `Run(OutOfMemory)`.
pub fn survey_to<R: Read + Drop, L: ImageSource<R>, P: Write>(
    alloc: Global,
    images: &mut L,
    names: &[&str],
    wording: Wording,
    report: &mut P,
) -> Result<bool, EngineFault>
    // On success the survey was written, and the result says whether all is well.
    ensures ok { IfOk result (Surveys wording L.gives R.remaining (map (λ n. n.now) names.now)
        images.old images.new (P.contents report.old) (P.contents report.new)) }
    // On any error nothing was written, or the images were read and a prefix of their survey was.
    ensures front { OnErr result (SurveysInPart wording L.gives R.remaining
        (map (λ n. n.now) names.now) images.old images.new (P.contents report.old)
        (P.contents report.new)) }
    ensures fault { IfErr result IsCheckFault }
{
    let mut findings = Findings::new(alloc);
    let Ok(sights) = read_images(&mut findings, images, names.len()) else {
        return Err(EngineFault::Run(RunFault::OutOfMemory));
    };
    let Ok((text, all)) = survey_text(&findings, sights.as_slice(), names, wording) else {
        return Err(EngineFault::Run(RunFault::OutOfMemory));
    };
    match pass_on(report, text.as_slice()) {
        Ok(()) => Ok(all),
        Err(_) => Err(EngineFault::WriteFailed),
    }
}

/// Returns the survey of images that were read, and whether all is well.
fn survey_text(
    findings: &Findings,
    sights: &[Option<ImageSurvey>],
    names: &[&str],
    wording: Wording,
) -> Result<(Vec<u8>, bool), AllocError>
    requires { length sights.now ≡ length names.now }
    ensures rows { IfOk result (λ survey. wording ≡ Rows → survey.0.items
        ≡ survey_rows (map (λ n. n.now) names.now) sights.now findings.now) }
    ensures all { IfOk result (λ survey. survey.1 ≡ is_all findings.now) }
{
    let all = is_all(findings)?;
    let text = match wording {
        Wording::Rows => rows(findings, sights, names)?,
        Wording::Words => words(findings, sights, names, false, all)?,
        Wording::Full => words(findings, sights, names, true, all)?,
    };
    Ok((text, all))
}
