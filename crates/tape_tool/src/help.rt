//! The texts of help, and of most usage errors that the program finds itself.
mod created;
mod items;
mod recorded;
mod recovered;
mod salvaged;

pub(crate) use created::*;
pub(crate) use items::*;
pub(crate) use recorded::*;
pub(crate) use recovered::*;
pub(crate) use salvaged::*;

// The program, `list` and `check`: descriptions of arguments and commands.
pub const ABOUT: &str = "Read and write ANSI-labelled tape volumes (ECMA-13) as SIMH .tap images";

pub const EXPLAIN: &str = "Explain errors, and say what to do next [default: on a terminal]";

pub const NO_EXPLAIN: &str = "Print errors without explanations, on a terminal too";

pub const ABOUT_LIST: &str = "List the blocks, tape marks and labels of an image";

pub const IMAGE: &str = "SIMH .tap image [default: standard input]";

pub const OFFSETS: &str = "Print the byte offset and size of each item before its line";

pub const LIST_JSON: &str = "Print JSON: a line for each item, with its offset and size";

pub const ABOUT_CHECK: &str = "Report which file sections are on the images and what is missing";

pub const IMAGES: &str = "SIMH .tap images, in any order (at most 256; see
--files-from); '-' is standard input";

// The program, `list` and `check`: errors in arguments.
pub const NO_COMMAND: &str = "name a command, for example 'tape list'";

pub const DASH: &str = "'-' is not an image: omit IMAGE to read standard input,
or write './-' for a file of that name";

pub const ONE_IMAGE: &str = "list takes one image; to list several:
  for f in *.tap; do echo \"$f\"; tape list \"$f\"; done";

pub const REFUSED: &str = "these arguments are not accepted";

pub const NO_TEXT: &str = "error: a name on the command line is not valid UTF-8. Find it with
  ls | grep -axv '.*'
and rename it, name a link to it (ln -s), or use 'tape list < NAME'\n";

pub const AFTER: &str =
    "An error is one line on standard error: 'tape: KIND fault NUMBER', followed for
images by the byte offset ('tape: image fault 1 at 1884'). An explanation follows
if standard error is a terminal. --explain and TAPE_EXPLAIN=1 in the environment
request it elsewhere, and --no-explain and TAPE_EXPLAIN=0 decline it.

Image faults:
  1  the image ends inside a block     copy it again from its source
  2  block lengths do not match        damaged there, or not a .tap image:
  3  not a record length               'tape survey' names the kinds it knows
  4  longer than 4,294,967,295 bytes   only the part before can be read
  5  cannot be read                    a directory, or a failing disk
  6  out of memory

File faults:
  1  already exists                    it was not changed
  2  cannot be opened or created       check its name and your permissions
  3  cannot be read                    a directory, or a failing disk
  4  cannot be written                 the disk is full, or the pipe was closed

Run faults:
  1  recovered data cannot be saved    out of memory; with --stage, the disk is
                                       full or failing: run it again
  4  out of memory
  5  stage of another file or set

Stage faults:
  1  not a stage                       check its name
  2  damaged stage                     see 'tape stage --help'
  3  cannot be read or written         the disk is full or failing
  4  out of memory
  7  in use by another run             wait until it has finished

Label and write faults: see 'tape write --help'.

Exit status: 0 success, 1 error, 2 usage error, 3 something is missing, damaged
or in conflict

Examples:
  tape list reel.tap
  zcat reel.tap.gz | tape list
  tape survey *.tap";

pub const AFTER_LIST: &str =
    "Each line has the item's number, its kind, and the contents of a label:
  000001 VOL1 ABC001                                 volume
  000002 HDR1 PAYROLL           ABC001 0001 0001     file, set, section, file
                                                     number
  000003 HDR2 F 00800 00080 00                       record format, block and
                                                     record length, bytes before
                                                     the records of a block
  000004 MARK                                        tape mark
  000005 BLOCK 00800                                 any other block: its length
  000007 BAD                                         unreadable, or too long
  000009 EOF1 PAYROLL           ABC001 0001 0001 000003   as HDR1; data blocks
EOV1 and EOV2 appear at the end of a volume if the file continues on the next.
Identifiers may contain spaces, so select by column: 'cut -c13-29' is the file
of HDR1. Labels in other codes, such as EBCDIC, are listed as blocks.

With --offsets each line begins with the item's byte offset and its size, which
includes the length words:
  268 808 000005 BLOCK 00800
  1076 408 000006 BAD
The size of an unreadable block includes any erase gaps before it.

With --json each line is an object with the offset, the size and the number of
the item, its kind as 'row', and the values of a label by their names:
  {\"offset\":1076,\"size\":408,\"item\":6,\"row\":\"BAD\"}

The last line is 'END MARKED' (end-of-medium marker) or 'END PHYSICAL' (end of
file). If the image is damaged there is no such line: the items before the
damage are listed, and the error goes to standard error.

Exit status: 0 listed to the end, 1 error, 2 usage error

Examples:
  tape list reel.tap
  zcat reel.tap.gz | tape list
  mkdir ../lists
  for f in *.tap; do tape list \"$f\" >\"../lists/$f.txt\" || echo \"$f\"; done";

pub const AFTER_CHECK: &str =
    "One line per image, in the order given: its number, how many items it has, and
how it ends.
  IMAGE 1 12 MARKED                    with an end-of-medium marker
  IMAGE 2 9 PHYSICAL                   with the end of the file
  IMAGE 3 6 FAULT 1 1884               with image fault 1 at byte 1884
  IMAGE 4 0 NOT OPENED                 check its name and your permissions
One line per file section, in the order found: set, file, section, volume,
number of data blocks, and state.
  SECTION ABC001 1 1 ABC001 3 GOOD     complete
  SECTION ABC001 1 2 ABC002 5 BAD      a data block is unreadable
  SECTION ABC001 1 3 ABC003 5 COUNT    the trailer label gives another number
                                       of blocks
  SECTION ABC001 1 4 ABC004 3 CUT      no trailer label of it was found
If several copies of a section are found, the first GOOD one is reported, and
the first of all if none is. 'tape survey' also compares the copies.
For each incomplete file, the first section that no image has GOOD:
  LACKS ABC001 1 2
or, if sections were found and no file is incomplete:
  ALL SECTIONS FOUND

Names from LIST come after the IMAGEs; empty lines are ignored. A file ends
where a GOOD section says so. No label says whether more files follow the last
one found.

Exit status: 0 all sections found, 1 error, 2 usage error, 3 a section is
missing or damaged, or no section was found

Examples:
  tape check *.tap
  find . -name '*.tap' -print0 | tape check --files-from - --null";

// Lists of images: descriptions of arguments and commands.
pub const FROM: &str = "More names, one per line ('-': standard input)";

pub const NULL: &str = "Names in LIST end with NUL ('find -print0')";

// Lists of images: errors in arguments.
pub const TOO_MANY_TO_CHECK: &str =
    "check takes up to 256 IMAGEs, and any number of names from a list:
  find . -name '*.tap' -print0 | tape check --files-from - --null";

pub const TOO_MANY_TO_SURVEY: &str =
    "survey takes up to 256 IMAGEs, and any number of names from a list:
  find . -name '*.tap' -print0 | tape survey --files-from - --null";

pub const IMAGE_IS_PIPE: &str = "images are opened more than once, so none can be a pipe:
write it to a file, and name that";

pub const INPUT_TWICE: &str = "standard input can be read only once: '-' is named twice.
A file of this name is './-'";

pub const ODD_LINES: &str = "the lines of the list end with a carriage return too, or it begins
with a byte order mark, as lists of Windows do: make another one by
  tr -d '\\r' < LIST | sed '1s/^\\xef\\xbb\\xbf//' > NEW
If names really begin or end like this, end each with a NUL and add --null";

pub const NO_TEXT_IN_LIST: &str = "of the list is not valid UTF-8. Find the file with
  find . | grep -axv '.*'
and rename it, or list a link to it (ln -s)";

// `survey`: descriptions of arguments and commands.
pub const ABOUT_SURVEY: &str =
    "Report what is complete, missing or damaged, and what to do about it";

pub const SHELF: &str = "SIMH .tap images, in any order (at most 256; see --files-from)";

pub const SURVEY_ALL: &str = "Print each image, set, file and copy too, of any number of images";

pub const ROWS: &str = "Print tab-separated values, for scripts";

pub const SURVEY_JSON: &str = "Print the same rows as JSON, one object per line";

pub const TSV_OR_JSON: &str = "--tsv and --json exclude each other: name one of them";

pub const AFTER_SURVEY: &str =
    "When all images have been read, first what needs attention: images, files and
sections in lists, in the order in which to act, each with what to do.
  Not opened: check the names, and that you may read the files
    lost.tap
  Nothing was read: copy them again, decompress or convert them
    zip.tap                   no items
        image fault 3 at byte 0: a zip archive: 'unzip' unpacks it
  In conflict: find out which is right ('tape compare', 'tape list')
    OLD001 file 1 section 1: good copies on 1.tap and 2.tap differ
    DAY001 file 1 BACKUP: labels of different files, on mo.tap and tu.tap
  Complete on no image: read or copy it again; 'tape unpack' joins copies
    ABC001 file 2 LEDGER: section 1 has unreadable blocks on ABC002 (two.tap)
  Labels or marks damaged, or cut off: read the reel, or copy the image, again
    hdr.tap                   volume ABC003, 1 section
        item 11 is neither HDR1 nor a tape mark: counting continues
  Missing: look for the reel, or for other images of it
    ABC001 file 2 LEDGER: section 3, after volume ABC003 (three.tap)
  Unsupported: 'tape list' shows it, 'tape salvage --form blocks' its blocks
    raw.tap                   no labels; its first block has 10240 bytes
    VMS001 file 1 X.EXE: no HDR2 with a supported record format (fmt.tap)
  Suspect: look at it with 'tape list'
    SYS001 file 1 A: section 2 is good on SYS002, after the file's end (s.tap)
  Damaged, but other images have the sections or the volume whole
    cut.tap
If labels of different files have the same number, two sets share one
identifier. tape cannot separate them: keep the images of each set in a
directory of its own. Copies are compared by the number of their data blocks and
a digest of their contents.
Then how many images, sets and files there are, and how many in each state:
  14 images: 7 ok, 2 in conflict, 3 damaged, 1 not a tape, 1 not opened
  5 sets, 8 files: 3 complete, 2 in conflict, 2 incomplete, 1 not readable
  1 section with several good copies that agree
  All files are complete, and every image was read to its end.
That last line appears only if nothing is missing, each section found has a good
copy, whose blocks are in the format that HDR2 states, each image is a volume
from its label to its end in formats that tape reads, no number has labels of
different files, and no good copies differ. No label says whether more files
follow the last one found.

Then, of at most five images or with --all, the rest: each image; each set with
its volumes in order, and its files: number, identifier, creation date if there
is one, and state; and the sections with several good copies that agree:
  one.tap                   ok           volume ABC001, 2 sections
  two.tap                   damaged      volume ABC002, 2 sections
      2 unreadable blocks
      section 1 of file 2 has unreadable blocks, blocks found: 13
  Set ABC001: 1 of 2 files complete
    Volumes: ABC001, ABC002, ABC003, missing (follows ABC003)
     1 PAYROLL            1985-04-23  complete
     2 LEDGER             1985-04-23  incomplete
  ABC001 file 1 section 1: good, 2 copies agree
  ABC001 file 1 section 1: blocks not counted
The last line names a section without a block count, of which a missing block
would not be noticed; without the rest only the number of such sections is
printed. The wording may change; the exit status and the columns of --tsv will
not.

With --tsv these rows; a column whose value is not known is empty:
  IMAGE name state volume set system items files bad end owner words
           state: WHOLE, PARTIAL, CONFLICT (good copies of a section on it
           differ) or NOT OPENED; end as in check
  SECTION set file section volume blocks state EOF
           state as in check; EOF if its trailer label ends the file
  FILE set file identifier created state section volume CONFLICT sections format
           block record
           state: COMPLETE, BAD, COUNT or CUT, or MISSING: the section was not
           found, and the one before it is on that volume, or FORMAT: a block
           is not in the format that HDR2 states; sections: all that are damaged
           or missing, as 2:CUT;4-5:MISSING; format: F, D, S, U or V, and the
           lengths of a block and of a record, as its HDR2 states them
  COPIES set file section copies name other AGREE
           for a section with several good copies: how many agree with the
           first one, on the image NAME. If one differs, its image is OTHER, and
           the last column of this row and of the file is CONFLICT
  PADDED set file PADDING
           for a file with padding: NUL or SPACE, which is left out after the
           records of its blocks, or CIRCUMFLEX: its last record has only ^, so
           it may be padding
  UNCOUNTED set file section
           for a section without a block count
With --json each row is a JSON object on a line. Its member 'row' is the first
word; the columns follow, with null for a value that is not known. Names of
images are not escaped.

Exit status: 0 everything complete, 1 error, 2 usage error, 3 something is
missing, damaged or in conflict, or an image was not read to its end

Example:
  tape survey *.tap";
