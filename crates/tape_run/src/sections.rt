//! The sections that were found, in the order in which they were found first.

ghost use Rattle.std.specs.{Result.IsOkUnless, Map.lookup};
ghost use Rattle.std.specs.Prelude.{◌≡◌, ◌≢◌, ◌<◌, None, OnOk, OnErr, IfOk, IsOk};
ghost use Rattle.tape_run.specs.declared.fault.RunFault.TheVariants as faults;
ghost use Rattle.indexmap.specs.IndexMap.{spare};
ghost use Rattle.tape_run.specs.Noted.{same_key, is_good, kept, noted_all};
ghost use Rattle.tape_run.specs.Passing.{in_list, under_way, blocks_of, step};
ghost use Rattle.tape_image.specs.Reader.{tape_item};
ghost use Rattle.tape_set.specs.Lawful.{most_blocks};

use crate::fault::RunFault;
use crate::met::Told;
use crate::passing::{Phase, step};
use crate::section::{Entry, SectionKey, SectionState};
use indexmap::IndexMap;
use tape_image::Item;

/// The entry of each section.
pub type Sections = IndexMap<SectionKey, Entry>;

impl SectionState {
    /// Returns whether the section is complete.
    pub fn is_good(&self) -> bool
        ensures { result ≡ is_good self.now }
    {
        matches!(self, SectionState::Good)
    }
}

/// Returns the entry to keep for a section that is found, given the sections so far: the first one,
/// unless a complete copy replaces one that is not.
fn kept_of(sections: &Sections, key: &SectionKey, entry: Entry) -> Entry
    ensures { result ≡ kept (lookup (same_key key.now) sections.now.entries) entry }
{
    match sections.get(key) {
        Some(old) if old.state.is_good() || !entry.state.is_good() => *old,
        _ => entry,
    }
}

/// Allocates room for a section once the mark after its headers was found, so that it can be added
/// later.
fn make_room(sections: &mut Sections, phase: &Phase) -> Result<(), RunFault>
    ensures fault { IsOkUnless result faults.OutOfMemory }
    ensures same { sections.new.entries ≡ sections.old.entries }
    ensures room { OnOk result (under_way phase.now ≢ None → 0 < spare sections.new) }
{
    if phase.under_way().is_none() {
        return Ok(());
    }
    sections.reserve(1)?;
    Ok(())
}

/// Adds the section that was completed, if any. A known section keeps its place, with the better of
/// the two states.
pub(crate) fn note_told(sections: &mut Sections, told: Option<Told>) -> Result<(), RunFault>
    ensures fault { IsOkUnless result faults.OutOfMemory }
    ensures ok { OnOk result (sections.new.entries
        ≡ noted_all sections.old.entries (in_list told)) }
    ensures err { OnErr result (sections.new.entries ≡ sections.old.entries) }
    ensures none { told ≡ None → sections.new ≡ sections.old }
    ensures room { (told ≢ None → 0 < spare sections.old) → IsOk result }
{
    let Some((key, entry)) = told else {
        return Ok(());
    };
    let kept = kept_of(sections, &key, entry);
    sections.insert(key, kept)?;
    Ok(())
}

/// Adds the section that an item completes, and returns what is expected next. Memory for the entry
/// of a section is reserved at its headers, so it is reported there if there is no memory.
pub(crate) fn take(sections: &mut Sections, phase: Phase, item: Item<'_>) -> Result<Phase, RunFault>
    requires { blocks_of phase < most_blocks }
    ensures fault { IsOkUnless result faults.OutOfMemory }
    ensures phase { IfOk result (λ next. next ≡ (step phase (tape_item item.entry)).0) }
    ensures ok { OnOk result (sections.new.entries
        ≡ noted_all sections.old.entries (in_list (step phase (tape_item item.entry)).1)) }
    ensures err { OnErr result (sections.new.entries ≡ sections.old.entries) }
    ensures room { IfOk result (λ next. under_way next ≢ None → 0 < spare sections.new) }
{
    let (next, told) = step(phase, item);
    make_room(sections, &next)?;
    note_told(sections, told)?;
    Ok(next)
}

/// Adds the section that is being read when the items end, if any.
pub(crate) fn close(sections: &mut Sections, phase: Phase) -> Result<(), RunFault>
    ensures fault { IsOkUnless result faults.OutOfMemory }
    ensures ok { OnOk result (sections.new.entries
        ≡ noted_all sections.old.entries (in_list (under_way phase))) }
    ensures err { OnErr result (sections.new.entries ≡ sections.old.entries) }
    ensures room { (under_way phase ≢ None → 0 < spare sections.old) → IsOk result }
{
    note_told(sections, phase.under_way())
}
