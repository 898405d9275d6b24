//! Laws about labels, each as the contract of a function.

ghost use Rattle.std.specs.Prelude.{◌≡◌, ◌<◌, ◌≤◌, ◌^◌, ℕ, [], Ok, Some};
ghost use Rattle.tape_label.specs.{Vol1.IsVol1, Head1.IsHead1, Head1.HeadFits, Head2.Head2Fits};
ghost use Rattle.tape_label.specs.{Trail1.IsTrail1, Trail1.TrailFits, Cases.CasesOfNumbers};
ghost use Rattle.tape_label.specs.Kinds.{IsSecond, HasKind};
ghost use Rattle.tape_label.specs.Widths.{IsWide, IsWideVolume};
ghost use Rattle.tape_label.specs.Laws.{IsNotBoth, IsSecondLabel, readings};

use crate::label::LabelFault;
use crate::reading::{digits_of, digits_value, read_head1, read_head2, read_trail1, read_vol1};
use crate::values::{Head1, Head2, Kind, Trail1, Vol1};
use crate::writing::{write_head1, write_head2, write_trail1, write_vol1};

/// Examples for the definitions that only laws and premises contain.
pub fn cases()
    ensures both { IsNotBoth (λ block (n : ℕ). block ≡ []) (λ block (n : ℕ). block ≡ []) [] → ⊥ }
    ensures numbers { CasesOfNumbers }
{}

/// A number that fits in `W` digits is read back from them.
pub fn digits_again<const W: usize>(number: u64) -> Option<u64>
    requires width { W ≤ 19 }
    requires fits { number < 10 ^ W }
    ensures { result ≡ Some number }
{
    digits_value(&digits_of::<W>(number))
}

/// A volume label that was written is read back.
pub fn vol1_again(fields: &Vol1) -> Result<Vol1, LabelFault>
    ensures { result ≡ Ok fields.now }
{
    read_vol1(&write_vol1(fields))
}

/// A first header label that was written is read back.
pub fn head1_again(fields: &Head1) -> Result<Head1, LabelFault>
    requires { HeadFits fields.now }
    ensures { result ≡ Ok fields.now }
{
    read_head1(&write_head1(fields))
}

/// A second label that was written is read back.
pub fn head2_again(fields: &Head2, kind: Kind) -> Result<Head2, LabelFault>
    requires second { IsSecond kind }
    requires fits { Head2Fits fields.now }
    ensures { result ≡ Ok fields.now }
{
    read_head2(&write_head2(fields, kind))
}

/// A first trailer label that was written is read back.
pub fn trail1_again(fields: &Trail1) -> Result<Trail1, LabelFault>
    requires { TrailFits fields.now }
    ensures { result ≡ Ok fields.now }
{
    read_trail1(&write_trail1(fields))
}

/// Returns how many of the four reading functions accept the block: at most one, because no block
/// is two kinds of label. No block is both a header and a trailer label, and no header or trailer
/// label is a volume label.
pub fn readings(block: &[u8]) -> usize
    ensures count { result ≡ readings block.now }
    ensures at_most_one { result ≤ 1 }
    ensures kinds { (a b : Kind) → HasKind block.now a → HasKind block.now b → a ≡ b }
    ensures volume_or_header { IsNotBoth IsVol1 IsHead1 block.now }
    ensures volume_or_second { IsNotBoth IsVol1 IsSecondLabel block.now }
    ensures volume_or_trailer { IsNotBoth IsVol1 IsTrail1 block.now }
    ensures header_or_second { IsNotBoth IsHead1 IsSecondLabel block.now }
    ensures header_or_trailer { IsNotBoth IsHead1 IsTrail1 block.now }
    ensures second_or_trailer { IsNotBoth IsSecondLabel IsTrail1 block.now }
{
    usize::from(read_vol1(block).is_ok())
        + usize::from(read_head1(block).is_ok())
        + usize::from(read_head2(block).is_ok())
        + usize::from(read_trail1(block).is_ok())
}

/// The fields of a first header or trailer label are as wide as their positions.
pub fn widths(fields: &Head1)
    ensures { IsWide fields.now }
{
    let _ = fields.file_id.bytes();
    let _ = fields.set_id.bytes();
    let _ = fields.generation.bytes();
    let _ = fields.gen_version.bytes();
    let _ = fields.created.bytes();
    let _ = fields.expires.bytes();
    let _ = fields.implementation.bytes();
}

/// The fields of a volume label are as wide as their positions.
pub fn volume_widths(fields: &Vol1)
    ensures { IsWideVolume fields.now }
{
    let _ = fields.volume.bytes();
    let _ = fields.implementation.bytes();
    let _ = fields.owner.bytes();
}
