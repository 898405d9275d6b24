//! Laws of what is reported of reels: of copies of a valid set nothing without a reason; and what
//! follows if a reading ends a section. Each is the contract of a function that does nothing.

ghost use Rattle.std.specs.Prelude.{◌≡◌, ◌≢◌, ◌≤◌, ◌+◌, ◌++◌, ◌∷◌, [], ℕ, Bool, List, length};
ghost use Rattle.tape_image.specs.{Tape.TapeItem, Begins.image_limit, Begins.Walks};
ghost use Rattle.tape_blocks.specs.Block.{Portion};
ghost use Rattle.tape_set.specs.{Layout.FileSet, Layout.Section, Layout.section_of};
ghost use Rattle.tape_set.specs.{Lawful.IsLawful, Lawful.FileForm};
ghost use Rattle.tape_set.specs.declared.position.Position.TheVariants.{Awaits, Finished};
ghost use Rattle.tape_core.specs.declared.event.Heading.{Heading};
ghost use Rattle.tape_core.specs.declared.event.Phase.TheVariants.{Broken, DataWanted};
ghost use Rattle.tape_core.specs.{State.State, Table.mount_of, Follows.IsAt, Overlap.Agrees};
ghost use Rattle.tape_core.specs.{Place.IsPlaced, Place.rest_of};
ghost use Rattle.tape_run.specs.declared.reel_reader.ReelAnswer.{ReelAnswer};
ghost use Rattle.std.specs.{Prelude.Some, List.AllByRecursion};
ghost use Rattle.tape_core.specs.{Wide.step_by, Overlap.EndsSection};
ghost use Rattle.tape_run.specs.{Reels.Reads, Reels.behind_items, Reeling.is_suspect, Seen.Seen};
ghost use Rattle.tape_run.specs.{Reels.GoesOn, Reels.answers_to, SectionEnds.StandsOnReel};
ghost use Rattle.tape_run.specs.SectionEnds.{HeldOnReel};
ghost use Rattle.tape_run.specs.{Reeling.Turn, Reeling.Follows};
ghost use Rattle.tape_run.specs.Mount.{MountEvent, IsMount, IsMountOf};
ghost use Rattle.tape_run.specs.declared.session.compared.overlap.Overlap.{Overlap};
ghost use Rattle.tape_run.specs.declared.session.compared.overlap.Found.TheVariants.{Other, Same};
ghost use Rattle.tape_set.specs.Before.{before};
ghost use Rattle.tape_run.specs.Comparing.{FindsAll, core_before, had_from, up_to};
ghost use Rattle.tape_run.specs.{CopyLaws.AreCopiesOf, CopyLaws.NoneIsSuspect};
ghost use Rattle.tape_run.specs.CopySurveys.{CopiesNeverConflict};

use crate::extract::images::ImageSource;
use std::io::Read;

/// A reel that is a copy of a volume of a valid set, or belongs to another set, is not suspect, at
/// any position in a file of the set: its trailer label does not give another number of blocks, and
/// after the blocks that it delivered no block that is not a label replaces the trailer label. The
/// copy may be truncated, and any of its items unreadable.
pub fn no_copy_is_suspect()
    ensures { (set : FileSet) (h : MountEvent) (bytes left : List ℕ) (wide again : Bool)
        (core new : State) (answer : ReelAnswer)
        → IsLawful set
        → IsMountOf set bytes h
        → length bytes ≤ image_limit
        → IsAt set core
        → Reads wide core.position core (mount_of core) bytes left answer new
        → is_suspect again answer ≡ Bool.false }
{}

/// So of such images that an engine of `extract` reads, one after another, none is suspect.
pub fn no_copies_are_suspect()
    ensures { (set : FileSet) (back spares : Bool) (core last : State) (old new : Seen)
        (turns : List Turn)
        → IsLawful set
        → IsPlaced set old.place old.parts
        → old.place ≡ rest_of core
        → AreCopiesOf set turns
        → Follows back spares core old turns last new
        → NoneIsSuspect turns }
{}

/// Each item of the data of the section needed, on such a reel, agrees with what was delivered
/// before: blocks that a reading skips have the parts that were delivered of them, and the block at
/// which it continues begins with those that were delivered of it.
pub fn each_item_agrees()
    ensures { (set : FileSet) (h : MountEvent) (items more : List TapeItem) (item : TapeItem)
        (wide : Bool) (core : State) (heading : Heading) (form : FileForm) (count : ℕ)
        → IsLawful set
        → IsMount set (items ++ item ∷ more) h
        → IsAt set core
        → core.position ≢ Finished
        → (behind_items wide (mount_of core) items).phase ≡ DataWanted heading form count
        → Agrees set (behind_items wide (mount_of core) items) form count item }
{}

/// An image that is such a reel has no other data of the section needed than a session for a file
/// of the set has: neither in section 1, up to its first unreadable block, nor, in any section, in
/// the blocks after the last unreadable one.
pub fn no_copy_differs()
    ensures first { (set : FileSet) (h : MountEvent) (image : List ℕ) (wide : Bool) (core : State)
        (number part : ℕ)
        → IsLawful set
        → IsMountOf set image h
        → length image ≤ image_limit
        → IsAt set core
        → core.position ≡ Awaits 1 number part
        → FindsAll wide (up_to number part) (core_before core) image Other
        (before set core.file core.position)
        → ⊥ }
    ensures all { (set : FileSet) (h : MountEvent) (image : List ℕ) (wide : Bool) (core : State)
        (sect : ℕ) (o : Overlap) (section : Section)
        → IsLawful set
        → IsMountOf set image h
        → length image ≤ image_limit
        → IsAt set core
        → core.position ≡ Awaits sect o.block o.part
        → section_of set core.file sect ≡ Some section
        → FindsAll wide o (core_before core) image Other (had_from section o)
        → ⊥ }
{}

/// On any reel: a section that a reading ends is on it, between two tape marks, with the blocks that
/// were skipped because they were delivered before, and those that were delivered; and the trailer
/// label that follows counts all of them.
pub fn ended_sections_stand()
    ensures { (wide : Bool) (core : State) (items : List TapeItem) (item : TapeItem)
        → core.position ≢ Finished
        → AllByRecursion GoesOn (answers_to wide (mount_of core) items)
        → EndsSection (step_by wide (behind_items wide (mount_of core) items) (Some item)).0
        → StandsOnReel wide core items item }
{}

/// If a comparison of the blocks of any reel, from number `o.from` on, found that they have
/// exactly the parts `held` of a session, and a reading of the same reel by the session ends the
/// section, then just these parts are there: between two tape marks, in blocks of one form, before
/// the blocks that are delivered; and the trailer label that follows counts all of them.
pub fn compared_sections_stand()
    ensures { (wide : Bool) (core : State) (sect : ℕ) (o : Overlap) (bytes left : List ℕ)
        (held : List Portion) (xs : List TapeItem) (x : TapeItem) (at : ℕ)
        → core.phase ≢ Broken
        → core.position ≡ Awaits sect o.block 0
        → o.part ≡ 0
        → o.from ≤ o.block
        → length bytes ≤ image_limit
        → FindsAll wide o (core_before core) bytes Same held
        → Walks 0 bytes (xs ++ x ∷ []) at left
        → AllByRecursion GoesOn (answers_to wide (mount_of core) xs)
        → EndsSection (step_by wide (behind_items wide (mount_of core) xs) (Some x)).0
        → HeldOnReel wide core o.from held xs x }
{}

/// A survey of copies of volumes of a valid set, whose trailer labels name the files of their
/// headers, reports no conflict: each complete or truncated, with any data blocks unreadable, in any
/// order and with repeats.
pub fn copies_never_conflict<R: Read + Drop, L: ImageSource<R>>()
    ensures { CopiesNeverConflict L.gives R.remaining }
{}
