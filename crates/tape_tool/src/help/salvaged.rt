//! The help texts of `salvage` and `stage`.

// `salvage`: descriptions of arguments and commands.
pub const ABOUT_SALVAGE: &str = "Recover what is readable of a file that no image has completely";

pub const OUT_OF_SALVAGE: &str = "New file for the recovered records (never an existing one)";

pub const FORM_OF_SALVAGED: &str = "lines: end each record with a line feed;
raw: do not; counted: begin each with its length;
blocks: whole blocks";

// `salvage`: errors in arguments.
pub const TOO_MANY_TO_SALVAGE: &str =
    "salvage takes up to 256 IMAGEs, and any number of names from a list:
  find . -name '*.tap' -print0 | tape salvage SET FILE OUT --files-from - --null";

pub const AFTER_SALVAGE: &str = "Examples:
  tape salvage ABC001 1 ../out/payroll.part *.tap > ../out/payroll.gaps
  tape salvage ABC001 2 ../out/dump.bin old.tap --form blocks

Try 'tape extract --again' first: it writes a file only if nothing is missing.
'tape salvage' writes all records whose blocks are readable, in order, and
prints a line for each gap. A record with a missing part is left out. With
--form blocks it copies each readable block unchanged, even if tape does not
read the record format or the volume has no HDR2.

The lines give a section (counted from 1), its blocks (from 0) and the number
of records written so far:
  IMAGE 2 NOT OPENED    the second image could not be opened
  FILLED 1 3 7 9        blocks 7 to 9 of section 1 are taken from the third
                        image; the one in its line SECTION does not have them
  CONFLICT 1 1 3        the first and the third image have copies of section 1
                        that contradict each other, and are not joined
  LABELS DIFFER 2 3 1   on the third image section 2 has other labels than the
                        first section found, on the first image
  SECTION 1 2 40        section 1 is read from the second image, which has 40
                        data blocks of it, unreadable ones included
  GAP 1 5 7 120         blocks 5 to 7 of section 1 are missing, after record
                        120
  GAP 1 30 - 700        all blocks from 30 on are missing, number unknown
  GAP 2 - - 700         section 2 was not found on any image
  NO FORM 2 700         no label has the form of section 2: use --form blocks
  TORN 1 8 120          a record interrupted at block 8 is left out
  REFUSED 1 9 3 40 124  block 9 does not fit the record format (block fault 3
                        at byte 40): its records before byte 40 are written,
                        up to record 124, and the rest counts as missing
  UNSURE 1 30 38        items 30 to 38 may be blocks or labels, and are left
                        out
  COUNT 1 40 39         the trailer label counts 40 blocks, but there are 39
  UNCOUNTED 1           after the last line: section 1 has no block count
The last line is COMPLETE and the number of records if nothing is missing, and
neither copies nor labels differ; otherwise SALVAGED and their number. OUT is
written in both cases. Keep the lines with it: OUT itself does not show where
something is missing.

Images are opened more than once: a pipe such as '<(zcat NAME)' does not work.

Exit status: 0 the last line is COMPLETE, 1 error, 2 usage error, 3 it is
SALVAGED";

// `stage`: descriptions of arguments and commands.
pub const ABOUT_STAGE: &str = "Show what a stage contains, and write its records";

pub const STAGE_READ: &str = "Stage of 'tape extract' or 'tape unpack'; it is not changed";

pub const OUT_OF_STAGE: &str = "Output file for the records recovered so far";

pub const DAMAGED: &str = "Use the intact beginning of a damaged stage";

// `stage`: errors in arguments.
pub const ONE_OUT: &str = "stage takes one stage and at most one OUT";

pub const AFTER_STAGE: &str =
    "Two lines: set, file and number of complete records, then the last line of
'extract'.
  STAGE ABC001 1 20
  AWAITS 1 1 2

OUT receives the records recovered so far, from the start of the file and
without gaps. An incomplete last record is left out. A file that 'extract'
refuses as OUT is refused here too.

'tape: stage fault 2' means that the stage is damaged. With --damaged, tape uses
the part before the damage:
  tape stage payroll.stage part.txt --damaged
  STAGE ABC001 1 12
  TRUNCATED AT 1276
The number is the byte offset of the damage in the stage. Changed bytes inside a
record cannot be detected.

The stage is only read, so it may be on a read-only disk. While 'extract' uses
it, 'tape stage' fails with stage fault 7.

Exit status: 0 file complete, 1 error, 2 usage error, 3 file incomplete or stage
damaged

Example:
  tape stage payroll.stage part.txt";
