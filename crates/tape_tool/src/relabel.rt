//! `--join` and `--renumber`: labels that are read with another set identifier or other numbers.

use crate::command_spec::{Kind, Word};
use crate::help;
use crate::normal::NormalImages;
use crate::readings::{names_in, place_in, quiet_readings};
use crate::refusal::{Refusal, no_pipes};
use crate::screen::Progress;
use crate::unpack::printable;
use crate::words::set_id_of;
use clap::ArgMatches;
use std::alloc::{AllocError, Global};
use std::cell::RefCell;
use tape_label::Field;
use tape_run::{
    ImagePlan, ImageSource, LabelRules, PlanChanges, Relabelling, SeenImage, sections_on,
};

/// The option for sets that are one.
pub const JOIN: Word = Word("join", Kind::TextOptions("SET=OTHER"), help::JOIN);

/// The option for numbers by order.
pub const RENUMBER: Word = Word("renumber", Kind::Flag, help::RENUMBER);

/// What is requested of the labels of a run.
#[derive(Drop)]
pub struct Relabels {
    /// Pairs of file set identifiers: the second is read as the first.
    joins: Vec<(Field<6>, Field<6>)>,
    /// Whether files and sections are numbered by their order.
    renumber: bool,
}

/// The plans for the labels of a run's images.
#[derive(Drop)]
pub struct LabelPlans {
    /// The names of the images whose labels are changed, and their plans.
    plans: RefCell<Vec<(String, ImagePlan)>>,
}

impl LabelPlans {
    /// Changes no labels.
    pub fn new(alloc: Global) -> LabelPlans {
        LabelPlans {
            plans: RefCell::new(Vec::new(alloc)),
        }
    }

    /// Adds the plan of the image `name`.
    fn add(&self, alloc: Global, name: &str, plan: ImagePlan) -> Result<(), AllocError> {
        let name = String::from_str(alloc, name)?;
        match self.plans.try_borrow_mut() {
            Ok(mut plans) => {
                plans.push((name, plan))?;
                Ok(())
            }
            Err(_) => Err(AllocError),
        }
    }

    /// Returns what changes the labels of the image `name` as it is read, unless they stay.
    pub fn of(&self, alloc: Global, name: &str) -> Result<Option<Relabelling>, AllocError> {
        let Ok(plans) = self.plans.try_borrow() else {
            return Err(AllocError);
        };
        let place = place_in(name);
        match plans.iter().find(|plan| place_in(plan.0.as_str()) == place) {
            Some((_, plan)) => Ok(Some(Relabelling::new(plan.copy(alloc)?))),
            None => Ok(None),
        }
    }
}

impl Relabels {
    /// Requests nothing.
    pub fn none(alloc: Global) -> Relabels {
        Relabels {
            joins: Vec::new(alloc),
            renumber: false,
        }
    }

    /// Returns whether something is requested.
    pub fn is_wanted(&self) -> bool {
        self.renumber || !self.joins.is_empty()
    }

    /// Returns whether the pair has an identifier that is read as another one in a pair before it.
    fn has_either(&self, pair: &(Field<6>, Field<6>)) -> bool {
        let mut joins = self.joins.iter();
        joins.any(|join| join.1 == pair.1 || join.1 == pair.0 || join.0 == pair.1)
    }

    /// Adds a pair.
    fn add(&mut self, pair: (Field<6>, Field<6>)) -> Result<(), Refusal> {
        if self.has_either(&pair) {
            return Err(Refusal::Words(help::JOINED_TWICE));
        }
        self.joins.push(pair).map_err(|_| AllocError)?;
        Ok(())
    }
}

/// Returns the pair of set identifiers in `SET=OTHER`.
fn join_of(text: &str) -> Option<(Field<6>, Field<6>)> {
    let (set_id, other) = text.split_once('=')?;
    let pair = (set_id_of(set_id)?, set_id_of(other)?);
    (pair.0 != pair.1 && !other.contains('=')).then_some(pair)
}

/// Returns what the arguments request of labels.
///
/// # Errors
///
/// Returns `Words` if a pair is not `SET=OTHER` with two identifiers, or if one that is read as
/// another is in a second pair.
pub fn relabels_of(alloc: Global, matches: &ArgMatches<'_>) -> Result<Relabels, Refusal> {
    let mut relabels = Relabels::none(alloc);
    relabels.renumber = matches.get_flag("renumber");
    for text in matches.get_strs("join").unwrap_or(&[]) {
        let Some(pair) = join_of(*text) else {
            return Err(Refusal::Words(help::WRONG_JOIN));
        };
        relabels.add(pair)?;
    }
    Ok(relabels)
}

/// Reads the labels of the images named `names` and of the readings after their wrong words, if
/// something is requested of them, and remembers how they are changed. Says so on standard error.
///
/// # Errors
///
/// Returns `Words` if an image is a pipe, and `Faulted` if memory is refused.
pub fn relabel<R: Progress>(rt: &R, relabels: &Relabels, names: &[&str]) -> Result<(), Refusal> {
    if !relabels.is_wanted() {
        return Ok(());
    }
    no_pipes(rt.host(), names)?;
    let rules = LabelRules {
        joins: relabels.joins.as_slice(),
        renumber: relabels.renumber,
    };
    let all = quiet_readings(rt, names)?;
    let names = names_in(rt.alloc(), all.as_slice())?;
    let names = names.as_slice();
    let seen = seen_on(rt, names)?;
    // These sections are found again, with their new names.
    rt.uncounted().clear();
    let plans = rules.plans(rt.alloc(), seen.as_slice())?;
    tell_unmet(rt, &rules, seen.as_slice());
    keep_plans(rt, &rules, names, seen.as_slice(), plans.as_slice())?;
    Ok(())
}

/// Records that sections may be lost before the first one, as in a reading after a wrong word.
fn doubt(said: &mut SeenImage) {
    for section in said.sections.as_mut_slice() {
        section.is_certain = false;
    }
    said.is_end = None;
}

/// Returns what the labels of the images and of the readings after their wrong words say.
fn seen_on<R: Progress>(rt: &R, names: &[&str]) -> Result<Vec<SeenImage>, AllocError> {
    let images = &mut NormalImages::again(rt, names);
    let mut seen = Vec::new(rt.alloc());
    for number in 0..names.len() {
        let said = match images.mount(number)? {
            Some(image) => {
                let mut image = image;
                let mut said = sections_on(rt.alloc(), &mut image)?;
                if images.images.is_further(number) {
                    doubt(&mut said);
                }
                if said.sections.is_empty() {
                    // It may be a volume of any set, like one that cannot be opened.
                    said.is_open = false;
                }
                said
            }
            None => SeenImage::unopened(rt.alloc()),
        };
        seen.push(said)?;
    }
    Ok(seen)
}

/// Remembers the plans that change something, and says what they change.
fn keep_plans<R: Progress>(
    rt: &R,
    rules: &LabelRules<'_>,
    names: &[&str],
    seen: &[SeenImage],
    plans: &[ImagePlan],
) -> Result<(), AllocError> {
    let mut is_renumbered = false;
    for (number, plan) in plans.iter().enumerate() {
        let (Some(name), Some(said)) = (names.get(number), seen.get(number)) else {
            break;
        };
        let changes = plan.changes(said);
        let image = number.saturating_add(1);
        tell_joins(rt, rules, image, said);
        tell_numbers(rt, image, &changes, plan.names.len());
        is_renumbered = is_renumbered || changes.has_numbers();
        if !changes.is_none() {
            rt.plans().add(rt.alloc(), name, plan.copy(rt.alloc())?)?;
        }
    }
    if rules.renumber && !is_renumbered {
        let _ = rt.eprint("  --renumber changes no number\n");
    }
    Ok(())
}

/// Names the identifiers of pairs that no label has.
fn tell_unmet<R: Progress>(rt: &R, rules: &LabelRules<'_>, seen: &[SeenImage]) {
    for (number, (set_id, other)) in rules.joins.iter().enumerate() {
        let first = rules.joins.iter().position(|join| join.0 == *set_id);
        if first == Some(number) {
            tell_absent(rt, *set_id, seen);
        }
        tell_absent(rt, *other, seen);
    }
}

/// Names an identifier if no label has it.
fn tell_absent<R: Progress>(rt: &R, set_id: Field<6>, seen: &[SeenImage]) {
    if !seen.iter().any(|said| said.has_set(set_id)) {
        let text = printable(set_id.bytes());
        let _ = rt.eprint(format_args!("  no label has the set identifier {}\n", text.trim_end()));
    }
}

/// Names the sets on an image that are read as another.
fn tell_joins<R: Progress>(rt: &R, rules: &LabelRules<'_>, image: usize, said: &SeenImage) {
    for (set_id, other) in rules.joins {
        if said.has_set(*other) {
            let (set_id, other) = (printable(set_id.bytes()), printable(other.bytes()));
            let _ = rt.eprint(format_args!(
                "  image {image}: set {} is read as {}\n",
                other.trim_end(),
                set_id.trim_end()
            ));
        }
    }
}

/// Says how the files and sections on an image are numbered.
fn tell_numbers<R: Progress>(rt: &R, image: usize, changes: &PlanChanges, certain: usize) {
    if changes.files {
        let _ = rt.eprint(format_args!("  image {image}: files are numbered by their order\n"));
    }
    if let Some(key) = changes.section {
        let (sect, file) = (key.sect, key.file);
        let _ = rt.eprint(format_args!(
            "  image {image}: its first section is section {sect} of file {file}\n"
        ));
    }
    if changes.ends {
        let next = certain.saturating_add(1);
        let _ = rt.eprint(format_args!(
            "  image {image}: not read from its header label {next} on: numbers are not certain\n"
        ));
    }
}
