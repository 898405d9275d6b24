//! A block as a label.

ghost use Rattle.std.specs.Prelude.{◌≡◌};
ghost use Rattle.tape_label.specs.{Kinds.kind_at, Labels.label_at};
ghost use Rattle.tape_c.specs.Fields.{fields_of, fault_position, kind_number};

use tape_label::{Kind, Label, LabelFault, kind, read_label};

/// The numbers in a label. Its texts are in the block, at fixed positions.
#[repr(C)]
#[derive(Clone, Copy, Drop)]
pub struct LabelFields {
    /// 1 to 7 for VOL1, HDR1, HDR2, EOF1, EOF2, EOV1, EOV2; 0 for any other block.
    pub kind: u32,
    /// The number of the label fault, or 0 if the label could be read.
    pub fault: u32,
    /// The position, counted from 1, of the number that is at fault, or 0.
    pub position: u32,
    /// The section number of HDR1, EOF1, EOV1.
    pub section: u32,
    /// The sequence number of HDR1, EOF1, EOV1.
    pub sequence: u32,
    /// The block count of EOF1, EOV1.
    pub blocks: u32,
    /// The letter of the record format of HDR2, EOF2, EOV2.
    pub format: u32,
    /// The block length of HDR2, EOF2, EOV2.
    pub block_length: u32,
    /// The record length of HDR2, EOF2, EOV2.
    pub record_length: u32,
    /// The buffer offset of HDR2, EOF2, EOV2.
    pub offset: u32,
}

/// Reads a block as a label. Fields that the label does not have are 0.
#[unsafe(no_mangle)]
pub extern "C" fn tape_label(block: &[u8]) -> LabelFields
    ensures { result ≡ fields_of (kind_at block.now) (label_at block.now) }
{
    let mut fields = LabelFields {
        kind: kind_number(kind(block)),
        fault: 0,
        position: 0,
        section: 0,
        sequence: 0,
        blocks: 0,
        format: 0,
        block_length: 0,
        record_length: 0,
        offset: 0,
    };
    match read_label(block) {
        Ok(Label::Vol1(_)) => {}
        Ok(Label::Head1(head)) => {
            fields.section = u32::from(head.sect);
            fields.sequence = u32::from(head.sequence);
        }
        Ok(Label::Second(_, form)) => {
            fields.format = u32::from(form.format.letter());
            fields.block_length = form.block_len;
            fields.record_length = form.rec_len;
            fields.offset = u32::from(form.offset);
        }
        Ok(Label::Trail1(trail)) => {
            fields.section = u32::from(trail.head.sect);
            fields.sequence = u32::from(trail.head.sequence);
            fields.blocks = trail.blocks;
        }
        Err(fault) => {
            fields.fault = u32::from(fault.number());
            fields.position = u32::from(fault_position(fault));
        }
    }
    fields
}

/// Returns the number of a kind of label, or 0.
fn kind_number(kind: Option<Kind>) -> u32
    ensures { result ≡ kind_number kind }
{
    match kind {
        None => 0,
        Some(Kind::Vol1) => 1,
        Some(Kind::Hdr1) => 2,
        Some(Kind::Hdr2) => 3,
        Some(Kind::Eof1) => 4,
        Some(Kind::Eof2) => 5,
        Some(Kind::Eov1) => 6,
        Some(Kind::Eov2) => 7,
    }
}

/// Returns the position of the number that is at fault, or 0.
fn fault_position(fault: LabelFault) -> u8
    ensures { result ≡ fault_position fault }
{
    match fault {
        LabelFault::NotDigits(position) | LabelFault::FieldRange(position) => position,
        _ => 0,
    }
}
