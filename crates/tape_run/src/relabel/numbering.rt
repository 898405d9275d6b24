//! The numbers that files and sections get by their order.

use crate::relabel::plan::{ImagePlan, LabelRules};
use crate::relabel::seen::SeenImage;
use crate::section::SectionKey;
use std::alloc::{AllocError, Global};
use tape_label::{Field, Head1};

/// A file set, and what of it is numbered.
#[derive(Clone, Copy)]
struct Numbering {
    set_id: Field<6>,
    /// Whether its files are numbered: all labels have one sequence number, and two files of it are
    /// on one image.
    files: bool,
    /// Whether its sections are numbered: all labels have section number 1.
    sections: bool,
    /// Whether it is known that the section number 1 of a first section may be wrong.
    restarts: bool,
}

/// What the labels of a file set say.
#[derive(Clone, Copy)]
struct SetLabels {
    /// The first label, if there is one.
    first: Option<Head1>,
    /// Whether all labels have the same sequence number.
    is_one_number: bool,
    /// Whether all labels have section number 1.
    is_section_one: bool,
    /// Whether two sections are on one image.
    has_two: bool,
    /// The last label on the image before, and its volume, if that is known.
    last: Option<(Field<6>, Head1)>,
    /// Whether the first label on an image names the file of the last one on another volume.
    is_shared: bool,
}

/// The section before another.
#[derive(Clone, Copy)]
struct Before {
    /// Its numbers, 0 before the first.
    file: u16,
    sect: u16,
    /// Its label if the file continues on the next image.
    continued: Option<Head1>,
}

/// What precedes the first section of a set.
const NOTHING: Before = Before {
    file: 0,
    sect: 0,
    continued: None,
};

/// The volumes of a set, as their images are named.
#[derive(Drop)]
struct Volumes {
    /// The volume identifier of each image, if it is known, and what precedes it, if that is
    /// certain.
    starts: Vec<(Option<Field<6>>, Option<Before>)>,
    /// What precedes the next volume, if that is certain.
    end: Option<Before>,
}

/// Returns what precedes the section after one with this new name.
fn after(key: Option<SectionKey>) -> Option<Before> {
    let key = key?;
    Some(Before {
        file: key.file,
        sect: key.sect,
        continued: None,
    })
}

impl SetLabels {
    /// Notes a label.
    fn note(&mut self, head: &Head1) {
        let first = *self.first.get_or_insert(*head);
        self.is_one_number = self.is_one_number && head.sequence == first.sequence;
        self.is_section_one = self.is_section_one && head.sect == 1;
    }

    /// Notes the first label on an image of this volume.
    fn note_first(&mut self, volume: Option<Field<6>>, head: &Head1) {
        if let (Some(volume), Some((other, last))) = (volume, self.last) {
            let is_same = last.sequence == head.sequence && last.file_id == head.file_id;
            self.is_shared = self.is_shared || (is_same && volume != other);
        }
    }
}

/// Notes the labels of a set on an image.
fn note_image(rules: &LabelRules<'_>, set_id: Field<6>, image: &SeenImage, labels: &mut SetLabels) {
    let (mut is_second, mut last) = (false, None);
    for section in image.sections.as_slice() {
        if let Some(head) = rules.head_in(set_id, section) {
            labels.note(&head);
            if is_second {
                labels.has_two = labels.has_two || !section.is_later;
            } else {
                labels.note_first(image.volume, &head);
            }
            last = Some(head);
            is_second = true;
        }
    }
    if let (Some(volume), Some(head)) = (image.volume, last) {
        labels.last = Some((volume, head));
    }
}

/// Returns what of a set is numbered.
fn numbering_of(rules: &LabelRules<'_>, set_id: Field<6>, seen: &[SeenImage]) -> Numbering {
    let mut labels = SetLabels {
        first: None,
        is_one_number: true,
        is_section_one: true,
        has_two: false,
        last: None,
        is_shared: false,
    };
    for image in seen {
        note_image(rules, set_id, image, &mut labels);
    }
    Numbering {
        set_id,
        files: labels.is_one_number && labels.has_two,
        sections: labels.is_section_one,
        restarts: labels.is_section_one && labels.is_shared,
    }
}

impl Volumes {
    /// Returns what precedes the first section of the next image: what precedes that of an earlier
    /// image of its volume, or else the last section of the volume before it. `None` if that is not
    /// certain.
    fn start(&self, volume: Option<Field<6>>) -> Option<Before> {
        if self.starts.is_empty() {
            return Some(NOTHING);
        }
        let volume = volume?;
        match self.starts.iter().find(|start| start.0 == Some(volume)) {
            Some((_, start)) => *start,
            None if self.starts.iter().any(|start| start.0.is_none()) => None,
            None => self.end,
        }
    }

    /// Notes an image with what precedes it and what precedes the next volume.
    fn note(
        &mut self,
        volume: Option<Field<6>>,
        start: &Option<Before>,
        end: &Option<Before>,
    ) -> Result<(), AllocError> {
        let last = self.starts.last().map(|last| last.0);
        let is_known = self.starts.iter().any(|start| start.0 == volume);
        if !is_known {
            self.end = *end;
        } else if last == Some(volume) {
            self.end = self.end.or(*end);
        }
        self.starts.push((volume, *start))?;
        Ok(())
    }
}

impl Numbering {
    /// Returns whether a section continues the file of the section before it.
    fn continues(&self, before: &Before, head: &Head1) -> bool {
        match before.continued {
            Some(last) => {
                let is_next = last.sect.checked_add(1) == Some(head.sect);
                head.sequence == last.sequence
                    && head.file_id == last.file_id
                    && (self.sections || is_next)
            }
            None => false,
        }
    }

    /// Returns the new name of the section with the label `head`.
    fn key(&self, before: &Before, head: &Head1) -> SectionKey {
        let continues = self.continues(before, head);
        SectionKey {
            set_id: self.set_id,
            file: match (self.files, continues) {
                (false, _) => head.sequence,
                (true, true) => before.file,
                (true, false) => before.file.saturating_add(1),
            },
            sect: if self.sections && continues {
                before.sect.saturating_add(1)
            } else {
                head.sect
            },
        }
    }

    /// Returns what precedes the next volume after an image whose last section of the set is that
    /// of `before`.
    fn end(&self, rules: &LabelRules<'_>, before: Before, image: &SeenImage) -> Option<Before> {
        let is_end = image.is_end?;
        let last = image.sections.last()?;
        let continued = if is_end {
            None
        } else {
            rules.head_in(self.set_id, last)
        };
        Some(Before {
            continued,
            ..before
        })
    }

    /// Returns whether a section of the image is one of the set.
    fn is_on(&self, rules: &LabelRules<'_>, image: &SeenImage) -> bool {
        for section in image.sections.as_slice() {
            if rules.head_in(self.set_id, section).is_some() {
                return true;
            }
        }
        false
    }

    /// Returns the new name of a section with the label `head`, if it is certain.
    fn name(&self, before: Option<Before>, is_certain: bool, head: &Head1) -> Option<SectionKey> {
        match before {
            Some(before) if is_certain => Some(self.key(&before, head)),
            _ => None,
        }
    }

    /// Names the sections of the set on an image, if it is certain what precedes them. Returns what
    /// precedes the next volume.
    fn number(
        &self,
        rules: &LabelRules<'_>,
        start: Option<Before>,
        image: &SeenImage,
        plan: &mut ImagePlan,
    ) -> Option<Before> {
        let (mut before, mut is_first) = (start, true);
        for (place, section) in image.sections.iter().enumerate() {
            let Some(head) = rules.head_in(self.set_id, section) else {
                continue;
            };
            let key = self.name(before, section.is_certain, &head);
            if key.is_none() && (self.files || (self.restarts && is_first)) {
                plan.names.truncate(place);
                plan.ends = true;
                return None;
            }
            is_first = false;
            before = after(key);
            plan.set(place, key);
        }
        self.end(rules, before?, image)
    }

    /// Does this for the image with the plan `place`, counted from 0.
    fn number_at(
        &self,
        rules: &LabelRules<'_>,
        start: &Option<Before>,
        image: &SeenImage,
        plans: &mut Vec<ImagePlan>,
        place: usize,
    ) -> Option<Before> {
        let plan = plans.get_mut(place)?;
        self.number(rules, *start, image, plan)
    }
}

/// Numbers the files and sections of a set, where its labels do not.
pub(crate) fn number_set(
    alloc: Global,
    rules: &LabelRules<'_>,
    set_id: Field<6>,
    seen: &[SeenImage],
    plans: &mut Vec<ImagePlan>,
) -> Result<(), AllocError> {
    let numbering = numbering_of(rules, set_id, seen);
    if !numbering.files && !numbering.sections {
        return Ok(());
    }
    let mut volumes = Volumes {
        starts: Vec::new(alloc),
        end: None,
    };
    for (place, image) in seen.iter().enumerate() {
        if numbering.is_on(rules, image) {
            let start = volumes.start(image.volume);
            let end = numbering.number_at(rules, &start, image, plans, place);
            volumes.note(image.volume, &start, &end)?;
        } else if !image.is_open {
            // It may be the next volume.
            volumes.note(None, &None, &None)?;
        }
    }
    Ok(())
}
