//! The second label of a section, and the form of blocks that it records.

ghost use Rattle.std.specs.Prelude.{◌≡◌};
ghost use Rattle.tape_run.specs.SalvageWalk as Walk;

use crate::salvage::walk::{Expected, OpenSection};
use tape_core::Known;
use tape_label::{Field, Format, Head2, Kind, LabelFault};

/// Returns the form of the file's blocks that a second label records.
pub fn form_by(file_id: Field<17>, read: Result<Head2, LabelFault>) -> Option<Known>
    ensures { result ≡ Walk.form_by file_id read }
{
    match read {
        Ok(head) => {
            let rec_len = match head.format {
                Format::Fixed => head.rec_len,
                _ => 0,
            };
            Known::from_parts(head.format, rec_len, head.offset, file_id)
        }
        Err(_) => None,
    }
}

/// Returns the form that a label after a section's trailer label records, if it is EOF2 or EOV2. An
/// HDR2 there belongs to another file, since the tape mark between them is lost.
pub fn trailer_form(
    file_id: Field<17>,
    kind: Option<Kind>,
    read: Result<Head2, LabelFault>,
) -> Option<Known>
    ensures { result ≡ Walk.trailer_form file_id kind read }
{
    match kind {
        Some(Kind::Eof2) | Some(Kind::Eov2) => form_by(file_id, read),
        _ => None,
    }
}

/// Returns what is expected after a block in place of a section's second label. Some systems did
/// not write this label.
pub fn second_by(
    section: OpenSection,
    kind: Option<Kind>,
    read: Result<Head2, LabelFault>,
) -> Expected
    ensures { result ≡ Walk.second_by section kind read }
{
    match kind {
        Some(Kind::Hdr2) => Expected::Headers(OpenSection {
            form: form_by(section.file_id, read),
            ..section
        }),
        _ => Expected::Headers(section),
    }
}
