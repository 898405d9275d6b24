//! The names that the sections of images get.

use crate::relabel::numbering::number_set;
use crate::relabel::seen::{SeenImage, SeenSection};
use crate::relabel::steps::Name;
use crate::section::SectionKey;
use std::alloc::{AllocError, Global};
use tape_label::{Field, Head1};

/// What is requested of labels.
#[derive(Clone, Copy)]
pub struct LabelRules<'a> {
    /// Pairs of file set identifiers: the second is read as the first.
    pub joins: &'a [(Field<6>, Field<6>)],
    /// Whether files and sections are numbered by their order.
    pub renumber: bool,
}

/// The name that a section gets.
#[derive(Clone, Copy)]
pub struct NewName {
    /// The characters that name it in its labels.
    pub(crate) from: Name,
    /// Its new name. `None` if its labels stay as they are.
    pub key: Option<SectionKey>,
}

/// The names that the sections of an image get.
#[derive(Drop)]
pub struct ImagePlan {
    /// The names, in the order of the sections.
    pub names: Vec<NewName>,
    /// Whether the image ends before the first section without a name, since its number is not
    /// certain.
    pub ends: bool,
}

/// What becomes of the labels of an image.
#[derive(Clone, Copy)]
pub struct PlanChanges {
    /// Whether a section is read as one of another set.
    pub sets: bool,
    /// Whether a section gets another sequence number.
    pub files: bool,
    /// The new name of the first section, if it gets another section number.
    pub section: Option<SectionKey>,
    /// Whether the image ends before a section whose number is not certain.
    pub ends: bool,
}

impl LabelRules<'_> {
    /// Returns the file set identifier as which one in a label is read.
    pub fn set_of(&self, set_id: Field<6>) -> Field<6> {
        match self.joins.iter().find(|join| join.1 == set_id) {
            Some((first, _)) => *first,
            None => set_id,
        }
    }

    /// Returns the label of a section if it is one of this set.
    pub(crate) fn head_in(&self, set_id: Field<6>, section: &SeenSection) -> Option<Head1> {
        let head = section.head?;
        (self.set_of(head.set_id) == set_id).then_some(head)
    }

    /// Returns the section that a label names, with its set joined.
    fn key_of(&self, head: &Head1) -> SectionKey {
        SectionKey {
            set_id: self.set_of(head.set_id),
            file: head.sequence,
            sect: head.sect,
        }
    }

    /// Returns the plan of an image whose sections keep their numbers.
    fn joined(&self, alloc: Global, seen: &SeenImage) -> Result<ImagePlan, AllocError> {
        let mut names = Vec::new(alloc);
        for section in seen.sections.as_slice() {
            names.push(NewName {
                from: section.name,
                key: section.head.map(|head| self.key_of(&head)),
            })?;
        }
        Ok(ImagePlan { names, ends: false })
    }

    /// Adds the sets of an image to `sets`.
    fn add_sets(&self, sets: &mut Vec<Field<6>>, seen: &SeenImage) -> Result<(), AllocError> {
        for section in seen.sections.as_slice() {
            if let Some(head) = section.head {
                let set_id = self.set_of(head.set_id);
                if !sets.contains(&set_id) {
                    sets.push(set_id)?;
                }
            }
        }
        Ok(())
    }

    /// Returns the plans of images, in their order.
    ///
    /// # Errors
    ///
    /// Returns `AllocError` if memory is refused.
    pub fn plans(&self, alloc: Global, seen: &[SeenImage]) -> Result<Vec<ImagePlan>, AllocError> {
        let (mut plans, mut sets) = (Vec::new(alloc), Vec::new(alloc));
        for image in seen {
            plans.push(self.joined(alloc, image)?)?;
            self.add_sets(&mut sets, image)?;
        }
        if self.renumber {
            self.number_sets(alloc, sets.as_slice(), seen, &mut plans)?;
        }
        Ok(plans)
    }

    /// Numbers the files and sections of sets.
    fn number_sets(
        &self,
        alloc: Global,
        sets: &[Field<6>],
        seen: &[SeenImage],
        plans: &mut Vec<ImagePlan>,
    ) -> Result<(), AllocError> {
        for set_id in sets {
            number_set(alloc, self, *set_id, seen, plans)?;
        }
        Ok(())
    }
}

impl ImagePlan {
    /// Returns the same plan.
    ///
    /// # Errors
    ///
    /// Returns `AllocError` if memory is refused.
    pub fn copy(&self, alloc: Global) -> Result<ImagePlan, AllocError> {
        Ok(ImagePlan {
            names: Vec::from_slice(alloc, self.names.as_slice())?,
            ends: self.ends,
        })
    }

    /// Gives section number `place` on the image, counted from 0, a name.
    pub(crate) fn set(&mut self, place: usize, key: Option<SectionKey>) {
        if let (Some(name), Some(key)) = (self.names.get_mut(place), key) {
            name.key = Some(key);
        }
    }

    /// Returns what becomes of the labels of an image, which says `seen`.
    pub fn changes(&self, seen: &SeenImage) -> PlanChanges {
        let mut changes = PlanChanges {
            sets: false,
            files: false,
            section: None,
            ends: self.ends,
        };
        for (name, section) in self.names.as_slice().iter().zip(seen.sections.as_slice()) {
            if let (Some(key), Some(head)) = (name.key, section.head) {
                changes.sets = changes.sets || key.set_id != head.set_id;
                changes.files = changes.files || key.file != head.sequence;
                if key.sect != head.sect {
                    changes.section = changes.section.or(Some(key));
                }
            }
        }
        changes
    }
}

impl PlanChanges {
    /// Returns whether the image stays as it is.
    pub fn is_none(&self) -> bool {
        !self.sets && !self.has_numbers()
    }

    /// Returns whether numbers change, or are not certain.
    pub fn has_numbers(&self) -> bool {
        self.files || self.section.is_some() || self.ends
    }
}
