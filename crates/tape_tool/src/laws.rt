//! Examples for the definitions, proved as the contract of a function that does nothing.

ghost use Rattle.tape_tool.specs.Cases.{CasesOfEnds, CasesOfFaults, CasesOfLines, CasesOfNames};
ghost use Rattle.tape_tool.specs.{Cases.CasesOfStaging, CasesOfShowing.CasesOfShowing};
ghost use Rattle.tape_tool.specs.{CasesOfWriting.CasesOfWriting, CasesOfWords.CasesOfWords};
ghost use Rattle.tape_tool.specs.{Writing.EbcdicIsRead};

use tape_stage::Disk;

/// Examples for the definitions of the program: how runs end, the numbers of faults, the lines that
/// are printed, the names in a list, sessions over a stage, the report on a stage, refused shapes,
/// and values in arguments.
pub fn cases<D: Disk>()
    ensures ends { CasesOfEnds }
    ensures faults { CasesOfFaults }
    ensures lines { CasesOfLines }
    ensures names { CasesOfNames }
    ensures staging { CasesOfStaging D.Disk }
    ensures showing { CasesOfShowing }
    ensures writing { CasesOfWriting }
    ensures words { CasesOfWords }
{}

/// Each character of a label that `write` puts in EBCDIC is read back as the same character.
pub fn ebcdic_is_read()
    ensures { EbcdicIsRead }
{}
