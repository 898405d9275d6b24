//! Checks the fields of labels.

ghost use Rattle.std.specs.{Prelude.◌↔◌, Prelude.IsTrue, List.AllByRecursion};
ghost use Rattle.tape_label.specs.Widths.{IsWideVolume};
ghost use Rattle.tape_writer.specs.Fields.{IsText, IsTextVolume, IsTextHead};

use tape_label::laws::volume_widths;
use tape_label::{Head1, Vol1, first_other};

/// Returns true if all bytes are a-characters.
pub(crate) fn is_text(bytes: &[u8]) -> bool
    ensures { IsTrue result ↔ IsText bytes.now }
{
    first_other(bytes).is_none()
}

/// Returns true if the fields of the volume label are a-characters. The version is not checked; it
/// is written unchanged.
fn is_text_volume(volume: &Vol1) -> bool
    ensures { IsTrue result ↔ IsTextVolume volume.now }
{
    is_text(volume.volume.bytes())
        && is_text(&[volume.access])
        && is_text(volume.implementation.bytes())
        && is_text(volume.owner.bytes())
}

/// Returns true if the fields of the head are a-characters. The set identifier is not checked,
/// because it is replaced.
pub(crate) fn is_text_head(head: &Head1) -> bool
    ensures { IsTrue result ↔ IsTextHead head.now }
{
    is_text(head.file_id.bytes())
        && is_text(head.generation.bytes())
        && is_text(head.gen_version.bytes())
        && is_text(head.created.bytes())
        && is_text(head.expires.bytes())
        && is_text(&[head.access])
        && is_text(head.implementation.bytes())
}

/// Returns true if the fields of all volumes are a-characters.
pub(crate) fn are_text_volumes(volumes: &[Vol1]) -> bool
    ensures { IsTrue result ↔ AllByRecursion IsTextVolume volumes.now }
{
    volumes.iter().all(|volume| is_text_volume(volume))
}

/// States the widths of the fields of all volume labels, which their types guarantee, as a fact
/// about the list.
pub(crate) fn tell_all_widths(volumes: &[Vol1])
    ensures { AllByRecursion IsWideVolume volumes.now }
{
    for volume in volumes {
        volume_widths(volume);
    }
}
