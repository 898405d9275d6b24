//! Lines of JSON, each an object of texts, numbers, truth values and nulls.

ghost use Rattle.std.specs.Prelude.{◌≡◌, ◌++◌, flat_map, IfOk, OnOk};
ghost use Rattle.json.specs.{Lex.tokens, Print.print};
ghost use Rattle.tape_tool.specs.JsonLine.{json_line, member_tokens, object_tokens};

use json::Writer;
use std::alloc::{AllocError, Global};

/// The value of a member of an object.
#[derive(Clone, Copy)]
pub enum JsonCell<'a> {
    Text(&'a str),
    Number(u64),
    Flag(bool),
    Null,
}

/// Returns a line with an object of the members, in their order, each a key and its value.
///
/// # Errors
///
/// `AllocError`: a growth was refused.
pub fn json_line(alloc: Global, members: &[(&str, JsonCell<'_>)]) -> Result<Vec<u8>, AllocError>
    // It is the text of the object's tokens,
    ensures line { IfOk result (λ line. line.items ≡ json_line members.now) }
    // and reads back as them.
    ensures reads_back { IfOk result (λ _.
        tokens (print (object_tokens members.now)) ≡ object_tokens members.now) }
{
    let mut writer = Writer::new(Vec::with_capacity(alloc, 256)?);
    writer.begin_object()?;
    add_members(&mut writer, members)?;
    writer.end_object()?;
    let mut line = writer.into_inner();
    line.push(b'\n')?;
    Ok(line)
}

/// Writes the members of an object.
fn add_members(writer: &mut Writer, members: &[(&str, JsonCell<'_>)]) -> Result<(), AllocError>
    ensures before { OnOk result (writer.new.before ≡ writer.old.before) }
    ensures tokens { OnOk result (writer.new.tokens
        ≡ writer.old.tokens ++ flat_map member_tokens members.now) }
{
    for member in members {
        add_member(writer, member.0, member.1)?;
    }
    Ok(())
}

/// Writes a member of an object.
pub(crate) fn add_member(
    writer: &mut Writer,
    key: &str,
    value: JsonCell<'_>,
) -> Result<(), AllocError>
    ensures before { OnOk result (writer.new.before ≡ writer.old.before) }
    ensures tokens { OnOk result (writer.new.tokens
        ≡ writer.old.tokens ++ member_tokens (key.entry, value.entry)) }
{
    writer.key(key)?;
    match value {
        JsonCell::Text(text) => writer.string(text),
        JsonCell::Number(number) => writer.u64(number),
        JsonCell::Flag(flag) => writer.boolean(flag),
        JsonCell::Null => writer.null(),
    }
}
