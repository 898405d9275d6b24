//! Tests of the explanations that `--explain` prints after the line of a fault, and of what is
//! missing.
use crate::tape::Tape;
use std::test::Fail;
use tape_image::{ImageCause, ImageFault};
use tape_run::RunFault;
use tape_tool::{Explanation, FaultSite, ToolFault};
use tape_tool_calls::follow_in;
use tape_writer::system::FileFault;

/// Runs that end with a fault: the line about its site, and the beginning of its explanation.
const SITES: &str = "
    worked told.tap
    front told_cut.tap 2000
    damaged told_bad.tap 1
    put told.gz \\1F\\8B\\08\\00
    0: init . TLD 1
    put told.stage no stage
    folder told
    put told/ABC001.1.PAYROLL.stage no stage
    1: list --explain told_cut.tap =>   Image: told_cut.tap
    ~   The image ends in the middle of a block: it was cut off, or the length there
    1: list told.gz --explain =>   This does not look like a .tap image.
    ~   It is compressed with gzip: 'gunzip -k' decompresses it.
    put told.bz2 BZh91AY&SY
    1: list told.bz2 --explain =>   This does not look like a .tap image.
    ~   It is compressed with bzip2: 'bunzip2 -k' decompresses it.
    put told.zip PK\\03\\04\\14\\00
    1: list told.zip --explain =>   This does not look like a .tap image.
    ~   It is a zip archive: 'unzip' unpacks it.
    put told.aws P\\00\\00\\00\\A0\\00VOL1
    1: list told.aws --explain =>   This does not look like a .tap image.
    ~   It is an AWS image: 'tape convert' makes a SIMH image of it.
    3: extract ABC001 1 told.txt told.aws --explain
    ~   told.aws: an AWS image: 'tape convert' makes a SIMH image of it, or add --again
    3: extract ABC001 1 told.txt told.aws --again --explain
    put told.het P\\00\\00\\00\\A1\\00VOL1
    1: list told.het --explain =>   This does not look like a .tap image.
    ~   It is a HET image:
    put told.raw VOL1CONT01..............................................................\
4.......HDR1
    1: list told.raw --explain =>   This does not look like a .tap image.
    ~   It is the blocks of a tape without their lengths,
    put told.card this is a catalogue card
    1: list told.card --explain =>   This does not look like a .tap image.
    ~   Is it compressed, cut off, or of a different kind?
    1$ --explain list lost.tap =>   Image: lost.tap: No such file or directory
    ~   The image could not be opened.
    1$ list a\u{9b} --explain =>   Image: a\\u009B: No such
    1$ list told --explain =>   Image: told: Is a directory
    ~   This is a directory, not an image.
    1$ list told.tap --explain
    * full
    ~   Output: standard output
    ~   Output failed: the disk is full,
    1$ init . TLD 1 --explain =>   Image: ./TLD001.tap
    ~   The image already exists; it was not changed.
    1$ write . TLD 100000 A=told --explain =>   Input: A=told: Is a directory
    ~   The input could not be read: is it a directory,
    1$ write . TLD 100000 A=told.tap Ab=told.tap --explain =>   Input: Ab=told.tap
    1$ write none TLD 100000 A=told.stage --explain =>   Image: none/TLD001.tap: No such
    ~   The image could not be opened or created.
    put TLE001.tap kept
    1$ write . TLE 100000 A=told.stage --explain =>   Image: ./TLE001.tap
    ~   The image already exists and is not blank;
    # The input, the line that is too long, and its length.
    put told.txt one\\0A12345678901234567890\\0A
    1$ write . TLW 100000 A=told.stage B=told.txt --record 23 --explain
    ~   Input: B=told.txt, line 2: 20 bytes; a record has at most 19
    ~   A record is too long or,
    missing TLW001.tap
    1: write . TLW 100000 A=told.txt --format F --record 20 --form raw --explain
    ~   Input: A=told.txt, record 2: 5 bytes; a record has 20
    1: write . TLW 100000 A=/dev/zero --explain =>   Input: A=/dev/zero
    missing TLW001.tap
    # The set is complete if only standard output fails, and its images remain.
    1$ write . TLS 100000 A=told.stage --explain
    * full
    ~   Output: standard output
    ~   Output failed: the disk is full,
    0: check TLS001.tap
    1$ write . FUL 100000 A=told.stage --explain =>   Image: ./FUL001.tap
    ~   The image could not be written completely: is the disk full?
    1$ extract ABC001 1 told.tap lost.tap --explain =>   OUT: told.tap
    ~   OUT already exists and might be a tape image,
    1$ check told.tap --files-from lost.names --explain =>   List: lost.names
    1$ extract ABC001 1 told.txt --files-from . --explain =>   List: .
    1$ extract ABC001 1 told.txt told.tap --stage told.stage --explain =>   Stage: told.stage
    ~   This is not a stage, and it was not changed.
    1: extract ABC001 1 lost/told.txt told.tap --explain =>   OUT: lost/told.txt
    # Two images in conflict, in an argument and in a list.
    folder told_one told_other
    0: write told_one TLM 100000 ONE=told.stage | write told_other TLM 100000 OTHER=told.stage
    put told.names told_one/TLM001.tap\\0Atold_other/TLM001.tap
    1$ extract TLM001 1 told.txt told_other/TLM001.tap told_one/TLM001.tap --again --explain
    ~   Image: told_other/TLM001.tap
    ~   Image: told_one/TLM001.tap
    ~   These images have labels of different files
    1: extract TLM001 1 told.txt told.tap --files-from told.names --again --explain
    ~   Image: name 1 in the list
    ~   Image: name 2 in the list
    1$ unpack lost told.tap --explain =>   DIR: lost
    1: unpack told told_bad.tap --explain
    ~   Stage: the path reported as FAILED, with .stage after it
    ~   This is not a stage, and it was not changed.
    1$ unpack told lost.tap --explain
    * full
    ~   DIR: told
    ~   Writing to DIR or standard output failed:
";

#[test]
fn faults_have_their_places(rt: HostRuntime) -> Result<(), Fail> {
    follow_in(&rt, &Tape, "sites", SITES)
}

/// Faults without a run here, and the beginning of their explanation.
const TOLD: &[(ToolFault, FaultSite<'_>, &str)] = &[
    (
        ToolFault::File(FileFault::ReadFailed),
        FaultSite::Stdin,
        "  Image: standard input\n",
    ),
    (
        ToolFault::Image(ImageFault {
            place: 0,
            cause: ImageCause::OutOfMemory,
        }),
        FaultSite::Image("a.tap"),
        "  Out of memory.",
    ),
    (
        ToolFault::Run(RunFault::OutOfMemory),
        FaultSite::Out("o"),
        "  Out of memory.",
    ),
    (
        ToolFault::File(FileFault::ReadFailed),
        FaultSite::Folder("d"),
        "  DIR: d\n  An existing file in DIR",
    ),
    (ToolFault::StageInUse, FaultSite::Folder("d"), OF_FAILED),
    (
        ToolFault::Run(RunFault::OtherFile),
        FaultSite::Folder("d"),
        OF_FAILED,
    ),
];

const OF_FAILED: &str = "  Stage: the path reported as FAILED, with .stage after it\n  ";

#[test]
fn faults_are_told_in_words(rt: HostRuntime) -> Result<(), Fail> {
    for (fault, site, text) in TOLD {
        let explanation = Explanation {
            fault: *fault,
            site: *site,
            reason: None,
            kind: None,
        };
        let told = format!(in rt.alloc(); "{explanation}")?;
        assert!(rt; told.as_str().starts_with(text), "{told}");
    }
    Ok(())
}

/// Runs that end with status 3, and what is printed on standard error then.
const MISSING: &str = "
    first missing1.tap
    second missing2.tap
    put missing_noise.txt noise that is not an image
    3: extract DEF001 1 missing.txt missing1.tap --explain
    !   REEL 1: missing1.tap
    !   No label of set DEF001 was found on these images.
    !   Sets found: ABC001.
    !   Give one of them as SET, or add the images of set DEF001.
    3: extract ABC001 1 missing.txt missing_noise.txt --explain
    !   REEL 1: missing_noise.txt
    !   No file of any set was found on these images as they are. With --again,
    !   tape also reads labels in EBCDIC or with padding, and other formats.
    3: salvage ABC001 1 missing_none.txt missing_noise.txt --explain
    !   No file of any set was found on these images.
    !   'tape survey' says what they are.
    3: extract ABC001 2 missing.txt missing1.tap --explain
    !   REEL 1: missing1.tap
    !   No label of this file was found. Files of set ABC001 on these images:
    !   1.
    !   'tape survey' prints their names.
    3: extract ABC001 1 missing.txt missing1.tap --explain
    !   REEL 1: missing1.tap
    !   Section 2 of file 1 is on no image. It follows section 1 on
    !   volume ABC001, image missing1.tap.
    !   Look for the reel that comes after that one.
    3: salvage ABC001 1 missing.txt missing2.tap --explain
    !   Section 1 of file 1 is on no image: look for the reel with its
    !   beginning. 'tape survey' shows which volumes were found.
    3: extract ABC001 1 missing.txt missing2.tap missing1.tap --explain
    !   REEL 1: missing2.tap
    !   REEL 2: missing1.tap
    !   Each section of the file is complete on some image. With --again, tape reads
    !   the images until they yield nothing more, and their order does not matter.
    3: unpack . missing1.tap --set DEF001 --explain
    !   No label of set DEF001 was found on these images.
    !   Sets found: ABC001.
    !   Give one of them as SET, or add the images of set DEF001.
    # A section that is complete on no image may have been recovered from several. For `extract` the
    # section that AWAITS names counts.
    first_damaged missing3.tap 1
    first_damaged missing4.tap 2
    3$ extract ABC001 1 missing.txt missing3.tap --explain
    > REEL 1 BAD ITEM
    > AWAITS 1 1 1
    !   REEL 1: missing3.tap
    !   Section 1 of file 1 is complete and readable on no image. It begins on
    !   volume ABC001, image missing3.tap.
    !   Look for another copy of that reel, or for another image of it. If it has
    !   no block count (0), first 'tape merge' all its copies.
    3$ extract ABC001 1 missing.txt missing3.tap missing4.tap --again --explain
    > REEL 1 BAD ITEM
    > REEL 2 SECTION DONE
    > REEL 3 EARLIER SECTION
    > REEL 4 EARLIER SECTION
    > AWAITS 1 2 0
    !   REEL 1: missing4.tap
    !   REEL 2: missing3.tap
    !   REEL 3: missing4.tap
    !   REEL 4: missing3.tap
    !   Section 2 of file 1 is on no image. It follows section 1 on
    !   volume ABC001, image missing4.tap.
    !   Look for the reel that comes after that one.
    3: salvage ABC001 1 missing_one.txt missing4.tap missing3.tap --explain
    !   Section 1 of file 1 is complete and readable on no image. It begins on
    !   volume ABC001, image missing3.tap.
    !   Look for another copy of that reel, or for another image of it. If it has
    !   no block count (0), first 'tape merge' all its copies.
    # Sections that were recovered earlier are in the stage, and on none of these images.
    fill missing.bin 600 9
    0: write . MIS 1042 MANY=missing.bin --format S --block 18 --form raw
    3: extract MIS001 1 missing.txt MIS001.tap --stage missing.stage
    3$ extract MIS001 1 missing.txt MIS003.tap --stage missing.stage --explain
    > REEL 1 LATER SECTION
    > AWAITS 1 2 0
    !   REEL 1: MIS003.tap
    !   Section 2 of file 1 is on no image: look for the reel with its
    !   beginning. 'tape survey' shows which volumes were found.
    # Sections were named in the wrong order, and the file has a third one.
    3$ extract MIS001 1 missing.txt MIS002.tap MIS001.tap --explain
    > REEL 1 LATER SECTION
    > REEL 2 SECTION DONE
    > AWAITS 1 2 0
    !   REEL 1: MIS002.tap
    !   REEL 2: MIS001.tap
    !   Section 2 of file 1 is complete on some image. With --again, tape
    !   reads the images until they yield nothing more; their order does not matter.
    # Whether section 2 is complete was not determined, because section 1 is on no image.
    cut MIS002.tap 700
    3: extract MIS001 1 missing.txt MIS002.tap --stage missing.stage --explain
    !   REEL 1: MIS002.tap
    !   The last line says which file, section and block are expected next (AWAITS).
    !   Look for the reel with that section, or for another copy of it.
    !   'tape survey' shows which sections the images contain.
    3: check missing1.tap --explain
    !   Each line LACKS names a set, a file and its first section that is complete on
    !   no image: look for another copy of that section. Without such a line, no
    !   section was found at all. 'tape survey' shows what the images are.
    3: unpack . missing1.tap --explain
    !   The lines say what is missing. After AWAITS and NOT COMPARED, run it again
    !   with all images, old and new; after DIFFERENT unpack into another directory.
    !   For the other lines see 'tape survey', for CONFLICT also 'tape salvage'.
    3: stage ABC001.1.PAYROLL.stage --explain
    !   The stage has only a part of the file, or is damaged. After AWAITS, 'tape
    !   extract --stage' continues from it; after TRUNCATED AT, start a new stage.
    put missing.tap \\01\\02\\03\\04\\02\\00\\00\\00ab\\02\\00\\00\\00
    3: convert --resync found.tap missing.tap --explain
    !   reading began at byte 4
    !   The bytes between the places are lost, and perhaps blocks and tape marks with
    !   them. Each image is a reading of its own: name them together, and with other
    !   copies, for 'tape survey', 'tape unpack' or 'tape salvage'.
    3: compare missing1.tap missing2.tap missing1.tap --explain
    !   The images differ (after DIFFER, 'tape show IMAGE N' shows the item), or the
    !   image that they form has unreadable items, wrong block counts (COUNT) or no
    !   end (CUT): the lines say which.
";

#[test]
fn missing_parts_are_explained(rt: HostRuntime) -> Result<(), Fail> {
    follow_in(&rt, &Tape, "missing", MISSING)
}
