//! Writes labels.

ghost use Rattle.std.specs.Prelude.{◌≡◌, ◌<◌, ◌≤◌, ◌+◌, ◌^◌, ◌++◌, length, replicate};
ghost use Rattle.arrayvec.specs.ArrayVec.{array_vec_len};
ghost use Rattle.tape_label.specs.Written.{text_of, HaveWidths, vol1_pieces, head_pieces};
ghost use Rattle.tape_label.specs.Written.{head1_pieces, head2_pieces, trail1_pieces};
ghost use Rattle.tape_label.specs.{Vol1.IsVol1, Head1.IsHead1, Head1.HeadFits, Digits.digits};
ghost use Rattle.tape_label.specs.{Head2.IsHead2, Head2.Head2Fits, Kinds.IsSecond};
ghost use Rattle.tape_label.specs.{Trail1.IsTrail1, Trail1.TrailFits};

use crate::reading::digits_of;
use crate::values::{Head1, Head2, Kind, Trail1, Vol1};
use arrayvec::ArrayVec;

/// Writes a volume label, with spaces in reserved positions (ECMA-13, 4th edition, "Volume Header
/// Label"). The version is written unchanged.
#[tactic(auto, using(crate::proofs::Texts::vol1_text_is))]
pub fn write_vol1(fields: &Vol1) -> [u8; 80]
    ensures label { IsVol1 result fields.now }
    ensures text { result ≡ text_of (vol1_pieces fields.now) }
{
    let mut label = ArrayVec::new();
    put(&mut label, Kind::Vol1.identifier());
    put(&mut label, fields.volume.bytes());
    label.push(fields.access);
    put_spaces(&mut label, 13);
    put(&mut label, fields.implementation.bytes());
    put(&mut label, fields.owner.bytes());
    put_spaces(&mut label, 28);
    label.push(fields.version);
    whole(label)
}

/// Writes a first header label, with the block count `000000` and spaces in reserved positions
/// (ECMA-13, 4th edition, "First File Header Label"). Section and sequence number must be 1 to
/// 9,999.
#[tactic(auto, using(crate::proofs::Texts::head1_text_is))]
pub fn write_head1(fields: &Head1) -> [u8; 80]
    requires { HeadFits fields.now }
    ensures label { IsHead1 result fields.now }
    ensures text { result ≡ text_of (head1_pieces fields.now) }
{
    head_text(Kind::Hdr1, fields, 0)
}

/// Writes a second header or trailer label, of the kind `HDR2`, `EOF2` or `EOV2`, with spaces in
/// reserved positions (ECMA-13, 4th edition, "Second File Header Label"). Block and record length
/// must be at most 99,999, the offset at most 99, and the record length of the format `Fixed` at
/// least 1.
#[tactic(auto, using(crate::proofs::Texts::head2_text_is))]
pub fn write_head2(fields: &Head2, kind: Kind) -> [u8; 80]
    requires second { IsSecond kind }
    requires fits { Head2Fits fields.now }
    ensures label { IsHead2 result kind fields.now }
    ensures text { result ≡ text_of (head2_pieces kind fields.now) }
{
    let mut label = ArrayVec::new();
    put(&mut label, kind.identifier());
    label.push(fields.format.letter());
    put_number::<5>(&mut label, u64::from(fields.block_len));
    put_number::<5>(&mut label, u64::from(fields.rec_len));
    put_spaces(&mut label, 35);
    put_number::<2>(&mut label, u64::from(fields.offset));
    put_spaces(&mut label, 28);
    whole(label)
}

/// Writes a first trailer label, with spaces in reserved positions (ECMA-13, 4th edition, end of
/// file and end of volume labels). Section and sequence number must be 1 to 9,999, and the block
/// count at most 999,999.
#[tactic(auto, using(crate::proofs::Texts::trail1_text_is))]
pub fn write_trail1(fields: &Trail1) -> [u8; 80]
    requires { TrailFits fields.now }
    ensures label { IsTrail1 result fields.now }
    ensures text { result ≡ text_of (trail1_pieces fields.now) }
{
    let kind = if fields.eof { Kind::Eof1 } else { Kind::Eov1 };
    head_text(kind, &fields.head, fields.blocks)
}

/// Returns a first header or trailer label with the block count `blocks`.
fn head_text(kind: Kind, fields: &Head1, blocks: u32) -> [u8; 80]
    requires fits { HeadFits fields.now }
    requires blocks { blocks ≤ 999999 }
    ensures text { result ≡ text_of (head_pieces kind fields.now blocks) }
    ensures widths { HaveWidths (head_pieces kind fields.now blocks) }
{
    let mut label = ArrayVec::new();
    put(&mut label, kind.identifier());
    put(&mut label, fields.file_id.bytes());
    put(&mut label, fields.set_id.bytes());
    put_number::<4>(&mut label, u64::from(fields.sect));
    put_number::<4>(&mut label, u64::from(fields.sequence));
    put(&mut label, fields.generation.bytes());
    put(&mut label, fields.gen_version.bytes());
    put(&mut label, fields.created.bytes());
    put(&mut label, fields.expires.bytes());
    label.push(fields.access);
    put_number::<6>(&mut label, u64::from(blocks));
    put(&mut label, fields.implementation.bytes());
    put_spaces(&mut label, 7);
    whole(label)
}

const SPACES: [u8; 80] = [b' '; 80];

/// Appends `more`, which must fit.
pub fn put<const N: usize>(text: &mut ArrayVec<u8, N>, more: &[u8])
    requires { array_vec_len text.old + length more.now ≤ N }
    ensures items { text.new.items ≡ text.old.items ++ more.now }
    ensures len { array_vec_len text.new ≡ array_vec_len text.old + length more.now }
{
    text.try_extend_from_slice(more).unwrap();
}

/// Appends `count` spaces.
fn put_spaces(label: &mut ArrayVec<u8, 80>, count: usize)
    requires { array_vec_len label.old + count ≤ 80 }
    ensures items { label.new.items ≡ label.old.items ++ replicate count 32 }
    ensures len { array_vec_len label.new ≡ array_vec_len label.old + count }
{
    put(label, &SPACES[..count]);
}

/// Appends `number` in `W` digits.
fn put_number<const W: usize>(label: &mut ArrayVec<u8, 80>, number: u64)
    requires fits { number < 10 ^ W }
    requires room { array_vec_len label.old + W ≤ 80 }
    ensures items { label.new.items ≡ label.old.items ++ digits W number }
    ensures len { array_vec_len label.new ≡ array_vec_len label.old + W }
{
    put(label, &digits_of::<W>(number));
}

/// Returns the complete label of 80 characters.
fn whole(label: ArrayVec<u8, 80>) -> [u8; 80]
    requires { array_vec_len label ≡ 80 }
    ensures { result ≡ label.items }
{
    label.into_inner().unwrap()
}
