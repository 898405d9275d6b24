//! Laws about the definitions that the contracts cite, each as the contract of a function that does
//! nothing.

ghost use Rattle.tape_writer.specs.Cases.{CasesOfTapes, CasesOfImages, CasesOfSets};
ghost use Rattle.tape_writer.specs.CasesOfInputs.{CasesOfInputs, CasesOfSetFaults, CasesOfWritten};
ghost use Rattle.tape_writer.specs.RecordLaws.{LinesAreCut, PiecesAreCut, WholeIsOne};
ghost use Rattle.tape_writer.specs.{Cases.CasesOfRefusals, CasesOfInputs.CasesOfRecordLaws};
ghost use Rattle.tape_writer.specs.{CasesOfFronts.CasesOfFronts, CasesOfHolding.CasesOfHolding};
ghost use Rattle.tape_writer.specs.CasesOfDrafts.{CasesOfDrafts, CasesOfInside};

/// An input is cut into lines at the line feeds, and the last line may have no line feed; an input
/// that consists of pieces of a fixed length is cut into these pieces, and a shorter rest is the
/// last record; a whole input is one record.
pub fn inputs_are_cut()
    ensures lines { LinesAreCut }
    ensures pieces { PiecesAreCut }
    ensures whole { WholeIsOne }
{}

/// Test cases for the definitions of tapes and images, of the files passed and written, of faults,
/// of inputs, of unfinished images and of write buffers.
pub fn cases()
    ensures tapes { CasesOfTapes }
    ensures images { CasesOfImages }
    ensures sets { CasesOfSets }
    ensures refusals { CasesOfRefusals }
    ensures inputs { CasesOfInputs }
    ensures set_faults { CasesOfSetFaults }
    ensures written { CasesOfWritten }
    ensures record_laws { CasesOfRecordLaws }
    ensures fronts { CasesOfFronts }
    ensures drafts { CasesOfDrafts }
    ensures inside { CasesOfInside }
    ensures holding { CasesOfHolding }
{}
