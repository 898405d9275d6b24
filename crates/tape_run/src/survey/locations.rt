//! The image on which each section is.
ghost use Rattle.std.specs.{Result.IsOkUnless, Prelude.◌≡◌, Prelude.OnOk};
ghost use Rattle.tape_run.specs.SurveyLocations.{with_location};
ghost use Rattle.tape_run.specs.declared.fault.RunFault.TheVariants as faults;

use crate::fault::RunFault;
use crate::lacks::good_end;
use crate::section::SectionKey;
use crate::sections::Sections;
use indexmap::IndexMap;
use tape_label::Head1;

/// For each section the number of an image on which it begins: the first one on which it is
/// complete, or else the last one.
pub type Locations = IndexMap<SectionKey, usize>;

/// Records the image on which a section begins, unless a complete copy of that section was found
/// before.
pub(crate) fn note_location(
    locations: &mut Locations,
    sections: &Sections,
    image: usize,
    head: Option<Head1>,
) -> Result<(), RunFault>
    ensures fault { IsOkUnless result faults.OutOfMemory }
    ensures ok { OnOk result (locations.new.entries
        ≡ with_location sections.now.entries locations.old.entries image head) }
{
    let Some(head) = head else {
        return Ok(());
    };
    let key = SectionKey {
        set_id: head.set_id,
        file: head.sequence,
        sect: head.sect,
    };
    if good_end(sections, &key).is_some() {
        return Ok(());
    }
    locations.insert(key, image)?;
    Ok(())
}
