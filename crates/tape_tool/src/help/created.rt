//! The help texts of the commands that create images.

// `init` and `write`: descriptions of arguments and commands.
pub const ABOUT_INIT: &str = "Create blank labelled volumes";

pub const FOLDER: &str = "Existing directory for the images";

pub const PREFIX: &str = "First three characters of the volume identifiers: A to Z, 0 to 9";

pub const COUNT: &str = "Number of volumes, 1 to 999: PRE001, PRE002, ...";

pub const ABOUT_WRITE: &str = "Write files to labelled volumes";

pub const CAPACITY: &str = "Maximum size of an image in bytes, at least --block plus 1024;
40K, 40M, 1G: K is 1024, M is 1024K, G is 1024M";

pub const FILES: &str = "File identifier (for the label) and the file with its records";

pub const FORMAT: &str = "F fixed, D variable, S spanned records";

pub const BLOCK: &str = "Longest block, 18 to 99999 (S: to 9999)";

pub const RECORD: &str = "Record length. F: required, 18 to 99999.
D: maximum plus 4, up to 9999 [default: as much
as a block holds]. S: not allowed";

pub const OFFSET: &str = "Bytes before a block's records, 0 to 99";

pub const PAD_FULL: &str = "D: fill every block to --block with padding";

pub const FORM: &str = "lines: one record per line; raw: F cuts the input
into records, S takes it as one record";

pub const DATE: &str = "Creation date in the labels, such as 1985-04-23
[default: none]";

pub const LABELS: &str = "Code of labels: ascii or ebcdic";

pub const DRY_RUN: &str = "Create nothing, only read the files and print the volumes";

// `init` and `write`: errors in arguments.
pub const NO_FOLDER: &str = "DIR is empty: write '.' for the current directory";

pub const WRONG_PREFIX: &str =
    "PRE must be three characters from A to Z and 0 to 9, for example 'ABC'";

pub const WRONG_CAPACITY: &str = "CAPACITY must be a number of bytes up to 4294967295, or a number
and K, M or G: K is 1024 bytes, M is 1024K, G is 1024M; for example '40M'";

pub const WRONG_DATE: &str = "--date must be a day from 1900 to 2099, for example 1985-04-23";

pub const INPUT_IS_IMAGE: &str =
    "an input is one of the images to be written and would be overwritten:
choose other inputs, another DIR or another PRE";

pub const AFTER_INIT: &str = "Each image is 100 bytes long: a volume label, two tape marks and the
end-of-medium marker. Existing files are not overwritten ('tape: file fault 1');
images created before the error are kept, and an incomplete one is removed.

Exit status: 0 all created, 1 error, 2 usage error

Example:
  tape init . ABC 2          creates ABC001.tap and ABC002.tap, and prints
                             'INIT 2'";

pub const AFTER_WRITE: &str =
    "Images are created as DIR/PRE001.tap, DIR/PRE002.tap and so on, as many as
needed, up to 256. An existing image must be blank, as 'tape init' creates it;
any other is refused ('tape: file fault 1'). The set is named after its first
volume. If writing fails, the images that were created are removed. Blank ones
that were begun are no longer blank: remove them before you try again. With
--explain the error names the input, and the line that is too long.

With '--labels ebcdic' the labels are in EBCDIC (code page 037), as on tapes of
IBM systems; the data are the same. 'tape survey', 'unpack', 'salvage' and
'extract --again' read such labels; 'list', 'check' and plain 'extract' do not.

Label faults:
  6  ID contains a character other than A to Z, 0 to 9, space and
     ! \" % & ' ( ) * + , - . / : ; < = > ? _
  7  ID is longer than 17 characters

Write faults:
  2  these block and record lengths are not possible
  3  CAPACITY is less than --block plus 1024
  4  a record is too long or, with F, not as long as --record
  7  more than 256 volumes are needed
  8  more than 9,999 files
 10  out of memory

Exit status: 0 all files written, 1 error, 2 usage error

Example:
  printf 'one\\ntwo\\n' > words.txt
  tape write . ABC 100000 WORDS=words.txt
creates ABC001.tap and prints 'VOLUME ABC001 486' and 'FILES 1 VOLUMES 1'.";

// `merge` and `compare`: descriptions of arguments and commands.
pub const ABOUT_MERGE: &str = "Make one good image from several readings of a tape";

pub const ABOUT_COMPARE: &str = "Report whether images can be readings of the same tape";

pub const MERGED_OUT: &str = "Image to create; it must not exist";

pub const LOG: &str = "Also create LOG, with a row for each item that fewer
than two images have, or that is bad in one; LOG
must not exist";

pub const READINGS: &str = "Two or more readings of the same tape: SIMH .tap images";

// `merge` and `compare`: errors in arguments.
pub const TOO_MANY_TO_MERGE: &str =
    "merge takes up to 256 IMAGEs, and any number of names from a list:
  tape merge OUT --files-from LIST";

pub const TOO_MANY_TO_COMPARE: &str =
    "compare takes up to 256 IMAGEs, and any number of names from a list:
  tape compare --files-from LIST";

pub const ONE_READING: &str =
    "name at least two readings of the tape ('merge' takes OUT before them)";

// Also for `salvage`: its OUT is a new file, too.
pub const MERGED_OUT_IS_DASH: &str =
    "OUT must be a file, because the report goes to standard output: \
write './-' for a file of that name";

pub const LOG_IS_DASH: &str = "LOG must be a file, because the report goes to standard output: \
write './-' for a file of that name";

pub const LOG_IS_OUT: &str = "LOG and OUT are the same file: choose another name for one of them";

pub const AFTER_MERGE: &str = "Examples:
  tape compare monday.tap tuesday.tap drive2.tap
  tape merge ../out/reel.tap monday.tap tuesday.tap drive2.tap

The images are readings of the same tape, made on several days or drives. They
are read side by side, item by item. If one has a bad block or ends early, the
others supply the item; an image with a fault ends there. OUT is as long as the
longest reading, and an item is bad only if it is bad in every reading that
reaches it. The order of the names makes no difference to a byte of OUT. Labels
are not needed. A block of more than 99,999 bytes counts as bad.
  IMAGE 1 1284 3 MARKED monday.tap
           a line for each image: its number, items, bad items, and its end, as
           in 'tape check'; and its name
  IMAGE 2 790 0 FAULT 1 632008 tuesday.tap
  MERGED 1284 1 496 MARKED
           OUT: its items, bad items, items that only one image has, and its
           end; CUT if all the longest images end with a fault
  MERGED 1283 0 0 MARKED COUNT 1
           the trailer label of one section gives a different number of blocks:
           one may have been lost in every reading of that section. Labels in
           EBCDIC, with padding or without HDR2 are not counted

If two images have different readable items at the same place, one of them is
wrong, and nothing says which. OUT is not created:
  DIFFER 57
           the number of the item, as in 'tape list'
  HAS 1 A BLOCK 800 45256 monday.tap
  HAS 2 B BLOCK 800 45256 tuesday.tap
  HAS 3 A BLOCK 800 45256 drive2.tap
           each image that reaches this item: its number; A, B or C for
           different items, - for a bad one; BLOCK and its length, MARK or BAD;
           the byte offset in the image; and the name
If most images agree, leave out the one that does not. If it differs in all
later items too, it has lost an item, or has one twice.

With --log a table of the items that are not confirmed, separated by tabs:
those that only one image has, or that are bad in one. A row has the number of
the item in OUT; BLOCK and its length, MARK or BAD; and for each image GOOD,
BAD, or nothing if it ended before. LOG appears only with OUT.

An existing OUT or LOG is never overwritten ('tape: file fault 1'), and
OUT appears only when it is complete. It contains no erase gaps, nothing after
an end-of-medium marker, and no data of bad blocks, so keep the images.

Exit status: 0 OUT has no bad item and no COUNT, 1 error, 2 usage error, 3 OUT
has one or ends within an item, or the images differ. 'tape survey OUT'
says whether the volume is complete";

pub const COMPARE_JSON: &str = "Print the lines as JSON, one object per line";

pub const AFTER_COMPARE: &str = "Examples:
  tape compare monday.tap tuesday.tap
  find . -name 'ABC001*.tap' | tape compare --files-from -

Reads the images side by side, as 'tape merge' does, and prints the same lines,
but creates nothing. MERGED describes the image that they would make together,
DIFFER the first item in which two of them differ; of two images, --explain says
how they differ. 'tape merge --help' explains the lines.

An image without items, or with bad items only, agrees with every image. The
IMAGE lines show how many items each has.

With --json each line is an object with its parts by their names; 'row' is the
first word.

Exit status: 0 the images agree, and the image that they would make has no bad
item and no COUNT, 1 error, 2 usage error, 3 they differ, or that image has one
or ends within an item";

// `convert`.
pub const ABOUT_CONVERT: &str = "Make a SIMH image of an image of another format";

pub const IMAGE_TO_CONVERT: &str = "Image to convert [default: standard input]";

pub const FORMAT_TO_CONVERT: &str = "Format of IMAGE, if it is not recognised: aws, e11 or
simh";

pub const RESYNC: &str = "In a SIMH image, continue after a wrong word";

pub const ONE_TO_CONVERT: &str = "convert takes one IMAGE after OUT";

pub const AFTER_CONVERT: &str = "Examples:
  tape convert reel.tap reel.aws
  gunzip -c reel.e11.gz | tape convert reel.tap

The format is recognised by the first 36,864 bytes of IMAGE, unless --format
says it:
  AWS      a header before each chunk of a block
  E11      SIMH without pad bytes after blocks of odd length
  SIMH, extended format
           descriptions, private records and markers are left out, and a bad
           record of length 0 becomes an unreadable block
  SIMH     copied up to the end of the medium
An image of another format is refused, as 'tape list' refuses it: with --explain
it is named, and the program that converts it.

OUT has the items of IMAGE, and all bytes of its blocks, also of unreadable
ones, except AWS blocks of several chunks with more than 99,999 bytes, which
become unreadable. If IMAGE is damaged, the byte offset of the fault is that in
the SIMH image, and there is no OUT.
  CONVERTED 1284
           the number of items of OUT

With --resync, reading of a SIMH image continues after each wrong word at the
next block that another one, a tape mark, a gap or the end follows. OUT has the
items before the first wrong word. What is found after each becomes an image of
its own, with a number before the extension, up to 99 in all:
  CONVERTED 9 reel-2.tap
and standard error says where:
  reading broke off at byte 268 and continued at byte 512: reel-2.tap
Blocks and tape marks may be lost between them. They can be named together, and
with other copies. What looks like a block in a damaged block is taken for one.

No existing file is overwritten ('tape: file fault 1'), and OUT appears only
when it is complete.

Exit status: 0 OUT is complete, 1 error, 2 usage error, 3 bytes were lost";
