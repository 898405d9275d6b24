//! Laws and examples for the definitions, each the contract of a function that does nothing.

ghost use Rattle.std.specs.Prelude.{◌≡◌, ◌≢◌, Some, ℕ, Bool, List, length, IsSome, slice_get};
ghost use Rattle.std.specs.Prelude.{if◌then◌else◌};
ghost use Rattle.tape_image.specs.Tape.{TapeItem, bad};
ghost use Rattle.tape_blocks.specs.Block.{Portion};
ghost use Rattle.tape_set.specs.Layout.{FileSet, nth, items};
ghost use Rattle.tape_set.specs.{Lawful.IsLawful, Lawful.FileForm};
ghost use Rattle.tape_set.specs.declared.position.Position.{Position};
ghost use Rattle.tape_set.specs.declared.position.Position.TheVariants.{Finished};
ghost use Rattle.tape_core.specs.declared.event.Heading.{Heading};
ghost use Rattle.tape_core.specs.declared.event.Phase.TheVariants.{DataWanted, TrailerWanted};
ghost use Rattle.tape_core.specs.{Follows.IsReading, Overlap.Agrees, Overlap.FitAll};
ghost use Rattle.tape_core.specs.Overlap.{Certified, EndsSection};
ghost use Rattle.tape_core.specs.{State.State, Table.step_of};
ghost use Rattle.tape_core.specs.Behind.{AreInOrder, PassesTo, expected_over, passed_over};
ghost use Rattle.tape_core.specs.Cases.{CasesOfForeign, CasesOfPlaces, CasesOfSteps, CasesOfSinks};

/// Examples for the definitions of readers and sinks: foreign reels, valid positions, the effect of
/// a step, and the results of a sink.
pub fn cases()
    ensures foreign { CasesOfForeign }
    ensures places { CasesOfPlaces }
    ensures steps { CasesOfSteps }
    ensures sinks { CasesOfSinks }
{}

/// The section that a reader of one file reads is skipped by a reader of a later file of the set;
/// if the first reader completed the section, the second then expects the items that follow a
/// trailer label.
pub fn passes_over()
    ensures { (first later : State) (x : TapeItem) → AreInOrder first later
        → later.phase ≡ passed_over first.phase
        → PassesTo (expected_over (step_of first (Some x))) later (step_of later (Some x)) }
{}

/// In a reading of a copy of a valid set, no item of the section's data contradicts what was
/// delivered before, whatever items are unreadable.
pub fn copies_agree()
    ensures { (set : FileSet) (p : Position) (k : ℕ) (good : List Bool) (g : Bool)
        (item : TapeItem) (core : State) (heading : Heading) (form : FileForm) (count : ℕ)
        → IsLawful set → IsSome (nth set.volumes k)
        → slice_get (items set k) (length good) ≡ Some item → IsReading set p k good core
        → core.position ≢ Finished → core.phase ≡ DataWanted heading form count
        → Agrees set core form count (if g then item else bad) }
{}

/// In a reading of a copy of a valid set, a readable item after the data of the section needed ends
/// the section. So a reel that delivered data, and then has no trailer label of that section or one
/// with another count, is not a copy.
pub fn trailers_end()
    ensures { (set : FileSet) (p : Position) (k : ℕ) (good : List Bool) (item : TapeItem)
        (core : State) (heading : Heading) (form : FileForm) → IsLawful set
        → IsSome (nth set.volumes k)
        → slice_get (items set k) (length good) ≡ Some item → IsReading set p k good core
        → core.position ≢ Finished → core.phase ≡ TrailerWanted heading form
        → EndsSection (step_of core (Some item)).0 }
{}

/// On any reel: if no skipped block contradicts what was delivered before, the delivered parts are
/// exactly those of the skipped blocks, followed by the parts that are left.
pub fn skipped_blocks_certify()
    ensures { (form : FileForm) (delivered left : List Portion) (texts : List (List ℕ))
        → FitAll form delivered texts left → Certified form delivered texts left }
{}
