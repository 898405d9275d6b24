//! Laws about the normal form, each the contract of a function that does nothing.

ghost use Rattle.std.specs.Prelude.{List};
ghost use Rattle.tape_image.specs.Tape.{TapeItem};
ghost use Rattle.tape_set.specs.{Layout.FileSet, Lawful.IsLawful};
ghost use Rattle.tape_core.specs.declared.normal.numbers.FileSeen.{FileSeen};
ghost use Rattle.tape_core.specs.NormalForm.{Ahead.NormalIsAhead, Ahead.BehindIsAhead};
ghost use Rattle.tape_core.specs.NormalForm.Laws.{NormalKeeps, DataKept, NormalSpells, CopySpells};
ghost use Rattle.tape_core.specs.NormalForm.Laws.{BytesKept, CopyBytesKept, FilesFound};
ghost use Rattle.tape_core.specs.NormalForm.Laws.{CutBytesKept, CopyCutBytesKept};

/// A copy of a volume of a valid set is its own normal form, however damaged it is, and wherever it
/// ends.
#[tactic(auto, using(crate::proofs::NormalForm::Same::normal_keeps))]
pub fn normal_keeps()
    ensures { (set : FileSet) → IsLawful set → NormalKeeps set }
{}

/// The data of a file are the same in the normal form, whatever they look like.
pub fn data_kept()
    ensures { DataKept }
{}

/// On a tape with labels in EBCDIC no unreadable or lost label or mark after `VOL1` hides the next
/// file, unless a lost `HDR1` leaves two marks together, which end the volume.
#[tactic(auto, using(crate::proofs::NormalForm::Found::files_found))]
pub fn files_found()
    ensures { (seen : FileSeen) (rest : List TapeItem) → FilesFound seen rest }
{}

/// A reader takes from the normal form of any tape all that it takes from the tape, and comes to
/// the same end of the section or the file.
#[tactic(auto, using(crate::proofs::NormalForm::Ahead::normal_is_ahead))]
pub fn normal_is_ahead()
    ensures { NormalIsAhead }
{}

/// The same holds for a reader that begins after a trailer label.
#[tactic(auto, using(crate::proofs::NormalForm::Ahead::behind_is_ahead))]
pub fn behind_is_ahead()
    ensures { BehindIsAhead }
{}

/// An image that encodes the items of a tape up to the end of the medium gives one that encodes
/// those of the tape in normal form.
#[tactic(auto, using(crate::proofs::NormalForm::Spelled::normal_spells))]
pub fn normal_spells()
    ensures { NormalSpells }
{}

/// Such an image of a copy of a volume of a valid set gives one that encodes the same items.
#[tactic(auto, using(crate::proofs::NormalForm::Spelled::copy_spells))]
pub fn copy_spells()
    ensures { (set : FileSet) → IsLawful set → CopySpells set }
{}

/// An image that encodes items which are their own normal form, up to the end of the medium, gives
/// the same bytes.
pub fn bytes_kept()
    ensures { BytesKept }
{}

/// So does such an image of a copy of a volume of a valid set.
pub fn copy_bytes_kept()
    ensures { (set : FileSet) → IsLawful set → CopyBytesKept set }
{}

/// An image that begins so keeps its bytes too, wherever it is cut off.
pub fn cut_bytes_kept()
    ensures { CutBytesKept }
{}

/// So does one of a copy of a volume of a valid set.
pub fn copy_cut_bytes_kept()
    ensures { (set : FileSet) → IsLawful set → CopyCutBytesKept set }
{}
