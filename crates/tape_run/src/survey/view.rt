//! Reading one image of a survey.
ghost use Rattle.std.specs.Result.{IsOkUnless};
ghost use Rattle.std.specs.Prelude.{◌≡◌, length, IfOk, OnOk, option_map};
ghost use Rattle.tape_image.specs.Reader.{going};
ghost use Rattle.tape_run.specs.declared.fault.RunFault.TheVariants as faults;
ghost use Rattle.tape_run.specs.SurveyRead.{ViewsItems, IsViewed, AreViewed, nothing_found};
ghost use Rattle.tape_run.specs.SurveyWhole.{is_whole_sight, is_sound, is_ended, is_end};

use super::copies::Copies;
use super::course::LabelOrder;
use super::digest::digest_in;
use super::files::{Files, note_met};
use super::fits::note_fit;
use super::forms::{form_in, note_form};
use super::front::read_front;
use super::glance::{ImageSummary, blank_glance, head_in, label_in, look, note_damage};
use super::locations::{Locations, note_location};
use super::onward::goes_on;
use crate::catalogue::stop_at;
use crate::container::{Container, container_of};
use crate::extract::images::ImageSource;
use crate::fault::RunFault;
use crate::passing::{Phase, wide_step};
use crate::section::{ImageStop, SectionLine};
use crate::sections::{Sections, close, note_told};
use std::alloc::Global;
use std::io::Read;
use std::marker::Model;
use tape_image::{ImageBuffer, ImageReader};
use tape_set::Sequence;

/// The survey of an image: its kind, the summary of its items, how they end, and its damaged
/// sections.
#[derive(Drop)]
pub struct ImageSurvey {
    pub kind: Container,
    pub glance: ImageSummary,
    pub stop: ImageStop,
    pub damaged: Sequence<SectionLine>,
}

/// The findings of a survey on its images.
#[derive(Drop)]
pub(crate) struct Findings {
    pub(crate) alloc: Global,
    pub(crate) sections: Sections,
    pub(crate) files: Files,
    /// Whether every image was read completely.
    pub(crate) whole: bool,
    /// The image on which each section is.
    pub(crate) locations: Locations,
    /// The complete copies of each section.
    pub(crate) copies: Copies,
    /// The number of images.
    images: usize,
}

// Contracts see findings as the sections and files found, whether all images were read completely,
// the image of each section, its complete copies, and the number of images.
impl Model for Findings {
    ghost use Rattle.tape_run.specs.SurveyRead.{Found};

    ghost Value = { Found };

    ghost view = { λ f. record {
      sections = f.sections.entries;
      files = f.files;
      whole = f.whole;
      locations = f.locations.entries;
      copies = f.copies;
      images = f.images;
    } };
}

/// Returns whether the volume ended.
pub(crate) fn is_ended(course: LabelOrder) -> bool
    ensures { result ≡ is_ended course }
{
    match course {
        LabelOrder::Ended => true,
        _ => false,
    }
}

/// Returns whether the image does not end with a fault.
pub(crate) fn is_end(stop: ImageStop) -> bool
    ensures { result ≡ is_end stop }
{
    match stop {
        ImageStop::Marked | ImageStop::Physical => true,
        ImageStop::Fault(_) => false,
    }
}

impl ImageSurvey {
    /// Returns whether the items are a complete volume in its order, whose files can be read.
    pub(crate) fn is_whole(&self) -> bool
        ensures { result ≡ is_whole_sight self.now }
    {
        is_ended(self.glance.course) && self.glance.unread.is_none() && is_end(self.stop)
    }

    /// Returns whether the items are a complete volume whose files can be read, and no section is
    /// damaged.
    pub(crate) fn is_sound(&self) -> bool
        ensures { result ≡ is_sound self.now }
    {
        self.is_whole() && self.damaged.as_slice().is_empty()
    }
}

impl Findings {
    /// Returns empty findings. Does not allocate.
    pub(crate) fn new(alloc: Global) -> Findings
        ensures { result ≡ nothing_found }
    {
        Findings {
            alloc,
            sections: Sections::new(alloc),
            files: Files::new(alloc),
            whole: true,
            locations: Locations::new(alloc),
            copies: Copies::new(alloc),
            images: 0,
        }
    }

    /// Reads an image to its end or to a fault, if it was opened, and adds its sections and labels.
    pub(crate) fn read<R: Read + Drop>(
        &mut self,
        image: Option<R>,
    ) -> Result<Option<ImageSurvey>, RunFault>
        ensures fault { IsOkUnless result faults.OutOfMemory }
        ensures ok { IfOk result (λ sight.
            IsViewed (option_map R.remaining image) sight self.old self.new) }
    {
        let Some(mut reader) = image else {
            self.whole = false;
            self.images = self.images.saturating_add(1);
            return Ok(None);
        };
        let front = read_front(self.alloc, &mut reader)?;
        let buffer = ImageBuffer::new(self.alloc)?;
        let mut bytes = front.as_slice().chain(reader);
        let mut image = ImageReader::over(buffer, &mut bytes);
        let viewed = view_items(
            self.alloc,
            container_of(front.as_slice()),
            &mut self.sections,
            &mut self.files,
            &mut self.locations,
            &mut self.copies,
            self.images,
            &mut image,
        );
        // The contract names the rest of the reader.
        image.into_device();
        let sight = viewed?;
        let whole = sight.is_whole();
        self.whole = self.whole && whole;
        self.images = self.images.saturating_add(1);
        Ok(Some(sight))
    }
}

/// Opens the first `count` images, reads each to its end or to a fault, and returns what each is.
pub(crate) fn read_images<R: Read + Drop, L: ImageSource<R>>(
    findings: &mut Findings,
    images: &mut L,
    count: usize,
) -> Result<Vec<Option<ImageSurvey>>, RunFault>
    requires { findings.old ≡ nothing_found }
    ensures each { IfOk result (λ sights. length sights.items ≡ count) }
    ensures viewed { IfOk result (λ sights. AreViewed L.gives R.remaining images.old 0 sights.items
        nothing_found images.new findings.new) }
    ensures fault { IsOkUnless result faults.OutOfMemory }
{
    let mut sights = Vec::new(findings.alloc);
    for number in 0..count {
        let image = images.mount(number)?;
        let sight = findings.read(image)?;
        sights.push(sight)?;
    }
    Ok(sights)
}

/// Processes the items of an unread image of kind `kind`, and adds its sections and labels.
fn view_items<R: Read>(
    alloc: Global,
    kind: Container,
    sections: &mut Sections,
    files: &mut Files,
    locations: &mut Locations,
    copies: &mut Copies,
    number: usize,
    image: &mut ImageReader<'_, R>,
) -> Result<ImageSurvey, RunFault>
    requires going { image.old.status ≡ going }
    requires first { image.old.place ≡ 0 }
    ensures same_device { image.new.device ≡ image.old.device }
    ensures fault { IsOkUnless result faults.OutOfMemory }
    ensures kind { IfOk result (λ sight. sight.kind ≡ kind) }
    ensures ok { IfOk result (λ sight. ViewsItems image.old.left image.new.left number
        sections.old.entries files.old locations.old.entries copies.old sight
        sections.new.entries files.new locations.new.entries copies.new) }
{
    let mut phase = Phase::Volume;
    let mut glance = blank_glance();
    let mut damaged = Vec::new(alloc);
    let mut digest = 0;
    'items: loop {
        let stop = match image.next() {
            Ok(Some(item)) => {
                note_met(files, number, label_in(&phase, item))?;
                note_form(files, number, form_in(&phase, item))?;
                note_location(locations, sections, number, head_in(&phase, item))?;
                let ordered = wide_step(phase, item);
                let (behind, told) = goes_on(&phase, item, ordered);
                note_fit(files, &phase, item, told)?;
                copies.note(number, told, digest)?;
                note_damage(&mut damaged, &told)?;
                note_told(sections, told)?;
                digest = digest_in(digest, &phase, item);
                glance = look(&glance, &phase, item, &ordered.0);
                phase = behind;
                continue 'items;
            }
            Ok(None) => {
                let Some(ending) = image.ending() else {
                    unreachable!()
                };
                stop_at(ending)
            }
            Err(fault) => ImageStop::Fault(fault),
        };
        close(sections, phase)?;
        note_damage(&mut damaged, &phase.under_way())?;
        let damaged = Sequence::of_vec(damaged);
        return Ok(ImageSurvey {
            kind,
            glance,
            stop,
            damaged,
        });
    }
}
