//! Laws of readings and of the tape that they combine to. Each is the contract of a function that
//! does nothing.

ghost use Rattle.tape_run.specs.MergeLaws.{ReadingsAreOrdered, MakeOneOrDiffer, AsLongAsLongest};
ghost use Rattle.tape_run.specs.MergeLaws.{BadWhereAllBad, DifferForGood};
ghost use Rattle.tape_run.specs.MergeLaws.{OrderDoesNotMatter, ReadersGiveImages};
ghost use Rattle.tape_run.specs.MergedCopies.{MergedIsCopy, BetterIsAsFar, OnceIsEnough};

/// To be a reading of a tape is an order of tapes.
pub fn readings_are_ordered()
    ensures { ReadingsAreOrdered }
{}

/// Readings either combine to one tape, or differ.
pub fn readings_make_one_tape_or_differ()
    ensures either { MakeOneOrDiffer }
    ensures lasting { DifferForGood }
{}

/// The merged tape is as long as the longest reading, and an item of it is bad only if it is bad in
/// every reading that reaches it.
#[tactic(auto, using(crate::proofs::MergeBest::as_long, crate::proofs::MergeBest::bad_where))]
pub fn merged_is_as_good_as_each()
    ensures long { AsLongAsLongest }
    ensures bad { BadWhereAllBad }
{}

/// The merged tape does not depend on the order of the readings, nor on how often one is listed.
pub fn order_does_not_matter()
    ensures { OrderDoesNotMatter }
{}

/// The items that a reader returns until it stops are those that the bytes of its image begin with.
#[tactic(auto, using(crate::proofs::MergeGiven::readers_give_images))]
pub fn readers_give_images()
    ensures { ReadersGiveImages }
{}

/// The merged image of copies of a volume is a copy of it. Reading it once advances any position at
/// least as far as reading any one copy, or all copies in turn.
pub fn merged_copies()
    ensures copy { MergedIsCopy }
    ensures far { BetterIsAsFar }
    ensures once { OnceIsEnough }
{}
