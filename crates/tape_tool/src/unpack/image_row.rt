//! The lines of `MANIFEST.jsonl` about images.

ghost use Rattle.std.specs.Prelude.{◌≡◌, IfOk, OnOk};
ghost use Rattle.tape_tool.specs.JsonLine.{IsJsonLine};

use super::rows::{add_field, add_sum, begun, ended};
use crate::json_lines::{JsonCell, add_member};
use json::Writer;
use std::alloc::{AllocError, Global};
use tape_label::Vol1;

/// Writes nulls for a size and a checksum that are unknown.
fn add_unread(writer: &mut Writer) -> Result<(), AllocError>
    ensures { OnOk result (writer.new.before ≡ writer.old.before) }
{
    add_member(writer, "size", JsonCell::Null)?;
    add_member(writer, "sha256", JsonCell::Null)
}

/// Writes the fields of a volume label.
fn add_volume(writer: &mut Writer, label: Option<Vol1>) -> Result<(), AllocError>
    ensures { OnOk result (writer.new.before ≡ writer.old.before) }
{
    let Some(label) = label else {
        add_member(writer, "volume", JsonCell::Null)?;
        add_member(writer, "owner", JsonCell::Null)?;
        return add_member(writer, "system", JsonCell::Null);
    };
    add_field(writer, "volume", label.volume.bytes())?;
    add_field(writer, "owner", label.owner.bytes())?;
    add_field(writer, "system", label.implementation.bytes())
}

/// Returns the line of the image named `name`: its size and its checksum, unless it could not be
/// read, and the fields of its volume label, if it has one.
pub fn recorded_image(
    alloc: Global,
    name: &str,
    read: Option<(u64, [u8; 32])>,
    label: Option<Vol1>,
) -> Result<Vec<u8>, AllocError>
    ensures { IfOk result (λ line. IsJsonLine line.items) }
{
    let mut writer = begun(alloc, "IMAGE")?;
    add_member(&mut writer, "image", JsonCell::Text(name))?;
    match read {
        Some(read) => {
            let sum = read.1;
            add_sum(alloc, &mut writer, read.0, &sum)?;
        }
        None => add_unread(&mut writer)?,
    }
    add_volume(&mut writer, label)?;
    ended(writer)
}
