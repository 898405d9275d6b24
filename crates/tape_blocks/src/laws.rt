//! Laws about blocks and their parts, each as the contract of a function.

ghost use Rattle.std.specs.Prelude.{◌≡◌, ◌≤◌, ℕ, Bool, List};
ghost use Rattle.tape_label.specs.declared.values.Format.TheVariants.{Fixed};
ghost use Rattle.tape_blocks.specs.Laws.{HoldsOneList, PartsFit, PassesForOne, JudgedAsHeld};
ghost use Rattle.tape_blocks.specs.Laws.{JoinsOn, BegunIsRest, ReadyIsFull, PackedBlocksHold};
ghost use Rattle.tape_blocks.specs.WideLaws.{UndefinedIsOne, UndefinedIsNone, DescribedHolds};
ghost use Rattle.tape_blocks.specs.WideLaws.{ContentIsKept};
ghost use Rattle.tape_blocks.specs.CountedForm.{CountedKeepsAll};
ghost use Rattle.tape_blocks.specs.Cases.{CasesOfOffers, CasesOfBlocks, CasesOfLaws};

use tape_label::Format;

/// A block contains at most one list of parts.
pub fn one_list_of_parts()
    ensures { (block : List ℕ) → HoldsOneList block }
{}

/// A block has no more parts than bytes, and no part is longer than the block.
pub fn parts_fit()
    ensures { (block : List ℕ) → PartsFit block }
{}

/// A block of format S with a part passes for at most one value of `begun`.
pub fn one_begun()
    ensures { (block : List ℕ) → PassesForOne block }
{}

/// The result of a check follows from the contents of the block, and conversely, for callers that
/// know the result as a function of lists.
pub fn judged_as_held()
    ensures { (format : Format) (rec_len offset : ℕ) (begun : Bool) (block : List ℕ)
        → (format ≡ Fixed → 1 ≤ rec_len) → JudgedAsHeld format rec_len offset begun block }
{}

/// Joining two lists of parts, one after the other, gives the records of the first list and then
/// those of the second.
pub fn joins_on()
    ensures { JoinsOn }
{}

/// Blocks into which records were packed contain those records.
#[tactic(auto, using(crate::proofs::BackLaws::packs_hold))]
pub fn packed_blocks_hold()
    ensures { PackedBlocksHold }
{}

/// After parts in span order, a record is unfinished if and only if joining the parts leaves an
/// incomplete record.
#[tactic(auto, using(crate::proofs::JoinLaws::begun_rest))]
pub fn begun_is_rest()
    ensures { BegunIsRest }
{}

/// A block is closed only if the rest of the record does not fit.
#[tactic(auto, using(crate::proofs::RunLaws::ready_full))]
pub fn ready_is_full()
    ensures { ReadyIsFull }
{}

/// A block of format U that is longer than its offset contains one record, all its other bytes, and
/// a block of the offset alone contains none.
#[tactic(auto, using(crate::proofs::Wide::undefined_one, crate::proofs::Wide::undefined_none))]
pub fn undefined_is_one()
    ensures one { UndefinedIsOne }
    ensures none { UndefinedIsNone }
{}

/// A block of format V that is encoded from parts contains them.
#[tactic(auto, using(crate::proofs::Wide::described_holds))]
pub fn described_holds()
    ensures { DescribedHolds }
{}

/// A block that passes the check has no padding of NULs or spaces.
#[tactic(auto, using(crate::proofs::Wide::content_kept))]
pub fn content_is_kept()
    ensures { ContentIsKept }
{}

/// What is written in the counted form determines the records: their number, their lengths and
/// their bytes.
#[tactic(auto, using(crate::proofs::CountedLaws::counted_keeps))]
pub fn counted_keeps_all()
    ensures { CountedKeepsAll }
{}

/// Test cases for the definitions of packing and for the laws.
pub fn cases()
    ensures offers { CasesOfOffers }
    ensures blocks { CasesOfBlocks }
    ensures laws { CasesOfLaws }
{}
