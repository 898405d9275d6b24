//! The help texts of `extract` and `unpack`.

// `extract`: descriptions of arguments and commands.
pub const ABOUT_EXTRACT: &str = "Recover one file from the images of its set";

pub const SET: &str = "Set identifier, up to 6 characters; 'tape list' shows it in HDR1";

pub const FILE: &str = "Number of the file in its set, 1 to 9999";

pub const OUT: &str = "Output file; not touched until the file is complete";

pub const REELS: &str = "SIMH .tap images (at most 256; see --files-from)";

pub const FORM_OF_OUT: &str = "lines: end each record with a line feed;
raw: do not; counted: begin each with its length";

pub const STAGE: &str = "Save recovered data here, and continue from it";

pub const AGAIN: &str = "Repeat until a pass recovers nothing new";

pub const JOIN: &str = "Read the set identifier OTHER in labels as SET
(may be repeated)";

pub const RENUMBER: &str = "Number files and sections by their order, if the labels
do not: name the images in order";

pub const WRONG_JOIN: &str =
    "--join needs two different set identifiers, each of 1 to 6 characters without '=':
  --join OWN001=OWN002";

pub const JOINED_TWICE: &str = "an identifier after '=' may be in no other --join";

pub const RELABELS_NEED_AGAIN: &str = "--join and --renumber need --again";

pub const RELABELS_OF_INPUT: &str =
    "with --join or --renumber images are read twice: name a file instead of '-'";

pub const TEXT: &str = "Translate records from EBCDIC (code page 037) to
ISO 8859-1, which begins with ASCII";

pub const NOW_OF_OUT: &str = "Keep the present as the time of OUT, instead of noon
(UTC) of the creation date in its labels";

// `extract`: errors in arguments.
pub const WRONG_SET: &str = "SET must have 1 to 6 characters, for example 'ABC001'";

pub const TOO_MANY_IMAGES: &str =
    "extract takes up to 256 IMAGEs, and any number of names from a list:
  find . -name '*.tap' | tape extract SET FILE OUT --files-from -";

pub const OUT_IS_DASH: &str = "OUT must be a file, because the progress lines go to standard output:
write './-' for a file of that name";

pub const OUT_IS_FOLDER: &str =
    "OUT is empty or a directory: name a file, such as ../out/payroll.txt";

pub const OUT_IS_STAGE: &str =
    "OUT is the stage itself and would be overwritten: choose another name";

pub const OUT_IS_LINES: &str = "OUT is the file that the lines are printed to: choose another name";

pub const NAME_OF_DRAFT: &str =
    "a file named '.tape-1.part' or the like is an unfinished output, which the next run removes:
rename it first";

pub const OUT_IS_LIST: &str =
    "OUT is the list of images and would be overwritten: choose another name";

pub const OUT_IS_IMAGE: &str =
    "OUT is one of the images and would be overwritten. OUT comes before them:
  tape extract ABC001 1 payroll.txt *.tap";

pub const AFTER_EXTRACT: &str =
    "Name every image you have of the set, good or damaged. Images of sets with other
identifiers do no harm. Give --again whenever you name several: their order then
matters only if copies differ, and a block that is unreadable on one copy is
taken from another. Give --stage too if more reels may turn up: otherwise an
incomplete recovery keeps nothing.
Without --again images are read once, in order, each only as far as needed;
images after the one that completes the file are not read. Names from LIST come
after the IMAGEs; empty lines are ignored.

One line per image:
  REEL n COMPLETE                 file complete
  REEL n SECTION DONE             section complete; the file continues on
                                  another reel
  REEL n REEL ENDED               image ends early: add another copy
  REEL n BAD ITEM                 a block or label is unreadable: add another
                                  copy
  REEL n LATER SECTION            a later section of the file: use --again, or
                                  name it again after the others
  REEL n EARLIER SECTION          nothing new
  REEL n OTHER SET                belongs to another set
  REEL n NOT ON REEL              does not contain this file
  REEL n NOT LABELLED             no ECMA-13 labels, or a blank volume
  REEL n NOT OPENED               check its name and your permissions
  REEL n BLOCK COUNT LABEL SEEN   the trailer has another block count: a block
                                  was lost or duplicated
  REEL n BROKEN                   not read, because a count before it was wrong:
                                  use --again or --stage
  REEL n BAD BLOCK CAUSE OFFSET   block contents do not fit the record format
  REEL n BAD LABEL CAUSE          label cannot be read
  REEL n SECTION DIFFERS          labels do not match those read before; with
                                  --again also: other data than those recovered,
                                  or unreadable blocks and a wrong block count,
                                  or perhaps labels among its data
  REEL n SPAN LEFT                file ends inside a record
followed by ' IMAGE CAUSE OFFSET' if the image itself ended the reading ('tape
--help' lists the causes). The last line is 'COMPLETE n' (n records), or 'AWAITS
FILE SECTION BLOCK', the first block that is missing, counted from 0, and the
part of it if some of its parts were read. With --again 'UNCOUNTED n' follows if
section n has no block count, so that a missing block would not be noticed, and
'STAGED m n' if a complete file has sections m to n from its stage, and no image
has their block counts: the runs that read them reported missing ones.

With --again the numbering continues: the second pass over three images is
REEL 4 to REEL 6. With --explain the name of each image precedes its line, on
standard error:
  REEL 4: one.tap
With --again, images that are files are first read for their labels. If these
show two files under one number, or copies of a section contradict each other
(CONFLICT in 'tape survey' or 'tape salvage'), nothing is recovered ('tape: set
fault 1'); --explain names two such images.
With --again or --stage the data of an image that answers BLOCK COUNT is
discarded. With --again and without --stage the records are kept in memory until
the file is complete.

With --stage the recovered data is saved after each image, and the next run
continues from it. If a run is interrupted at any moment, the stage has the data
that was saved last, or the data that was being saved. When the file is
complete, OUT contains all that the stage has, and you may delete the stage.

The records go to .tape-1.part in OUT's directory. It becomes OUT when the file
is complete, and is removed otherwise; the next run removes one that a killed
run left. An OUT that is the stage, the list or one of the images is refused,
and so is one that may be a tape ('tape: file fault 1'): an existing file that
is not empty and has a name ending in .tap, begins like an image, or is
compressed, an archive or a stage. If OUT is a pipe, a device or a link to
nothing, the records are written to it at the end.

Exit status: 0 complete, 1 error, 2 usage error, 3 incomplete

Examples:
  tape extract ABC001 1 payroll.txt *.tap --again
  tape extract ABC001 1 payroll.txt *.tap --again --stage payroll.stage
  find . -name '*.tap' | tape extract ABC001 1 out.txt --files-from - --again";

// `unpack`: descriptions of arguments and commands.
pub const ABOUT_UNPACK: &str = "Recover every file on the images into a directory";

pub const FOLDER_OF_FILES: &str = "Existing directory for the files and their stages";

pub const SET_TO_UNPACK: &str = "Only files of this set";

pub const FORM_OF_FILES: &str = "lines: end each record with a line feed;
raw: do not; counted: begin each with its length;
auto: lines for a file whose bytes are all text, raw
for any other";

pub const FILES_TO_UNPACK: &str = "Only files with this number or name; '*' in a name
represents any characters. May be repeated";

pub const NOW: &str = "Keep the present as the time of the files, instead of
noon (UTC) of the creation date in their labels";

pub const LIST_ONLY: &str = "Print what would be done, and create nothing";

pub const SALVAGE_FILES: &str = "Write what is readable of each incomplete file as
NAME.salvaged, and where it has gaps as NAME.gaps";

pub const MANIFEST: &str = "List the SHA-256 checksum of each complete file in
MANIFEST.sha256, as 'sha256sum' does, and in
MANIFEST.jsonl also which images its blocks came from";

pub const VERIFY: &str = "Check the files of DIR against MANIFEST.sha256 and, if
IMAGEs are named, against these; recover nothing";

// `unpack`: errors in arguments.
pub const VERIFY_ALONE: &str =
    "--verify recovers nothing: it takes DIR, --form, --text and IMAGEs, and with
IMAGEs also --set and --file";

pub const TOO_MANY_TO_UNPACK: &str =
    "unpack takes up to 256 IMAGEs, and any number of names from a list:
  find . -name '*.tap' -print0 | tape unpack DIR --files-from - --null";

pub const DIR_IS_NO_FOLDER: &str = "DIR is not a directory. It comes before the images:
  mkdir ../out; tape unpack ../out *.tap";

pub const AFTER_UNPACK: &str =
    "tape first reads all images to find out which sets and files they contain, as
'tape survey' reports them. Then it recovers each file as 'tape extract --again'
does. A file that is incomplete leaves a stage in DIR, and the next run
continues from it, with other images too; but if each section is complete on one
of the images, the file is read from these alone. A file that is incomplete only
because a label is lost or unreadable is recovered as 'tape salvage' does.
Images are opened more than once: a pipe such as '<(zcat NAME)' does not work.

One line per file:
  FILE ABC001 1 COMPLETE 25 ../out/ABC001.1.PAYROLL
           written, 25 records
  FILE ABC001 2 AWAITS 2 2 14 ../out/ABC001.2.LEDGER.stage
           incomplete: file, section, block (and part) missing; its stage
  FILE ABC001 2 SALVAGED 90 ../out/ABC001.2.LEDGER.salvaged
           with --salvage: the readable records of an incomplete file
  FILE ABC001 1 STAGE KEPT ../out/ABC001.1.PAYROLL.stage
           after COMPLETE: the stage of an earlier run has other data than the
           file, or cannot be compared with it
  FILE ABC001 2 SECTION DIFFERS cut.tap
           a further line: this image was not used: it has other data ('tape
           compare' shows where), unreadable blocks and a wrong block count, or
           perhaps labels among its data
  FILE ABC001 2 UNCOUNTED 1
           section 1 has no block count: a missing block would not be noticed
  FILE ABC001 2 STAGED 2 3
           a complete file has sections 2 and 3 from its stage, and no image has
           their block counts: the runs that read them reported missing ones
  FILE ABC001 3 EXISTS ../out/ABC001.3.TAXES
           a file of this name exists, and has exactly the records of this one
  FILE ABC001 3 DIFFERENT ../out/ABC001.3.TAXES
           a file of this name exists, and has other records; it was not changed
  FILE ABC001 3 NOT COMPARED ../out/ABC001.3.TAXES
           a file of this name exists, but these images do not have all of this
           one, or it is no plain file; it was not changed
  FILE ABC001 4 CONFLICT
           labels of different files have this number, or good copies of a
           section differ: nothing was written. 'tape survey' says which. Keep
           the images of each set in a directory of its own
  FILE ABC001 5 NOT FOUND
           no label of this file was found, only of a later one of its set
  FILE ABC001 6 FAILED file fault 2 ../out/ABC001.6.INDEX
           this error; the other files are recovered if possible
With --list, READY or LACKS and a section replaces COMPLETE and AWAITS: whether
each section of the file is complete on some image, and its blocks are in the
format that HDR2 states. EXISTS then says only that a file of this name exists.
With --form auto the form follows READY and the number of records: 'lines' if
each byte of the records is printable ASCII, a tab or a form feed, otherwise
'raw'.
With --text the records of each chosen file are translated, even if its labels
are in ASCII; --form auto looks at the translated ones. Stages keep the data of
the tape.

Further lines:
  NO SET ABC002            no file was found that --set or --file means
  SECTION AFTER END a.tap  it has a section of a file after the section that
                           ends the file, and was not used for that
  INCOMPLETE IMAGE a.tap   it could not be opened, or is not a whole volume in
                           formats that tape reads; 'tape survey' says why
and a last line with the number of files by outcome:
  TOTAL 1 complete 1 existing 1 incomplete 1 in conflict 1 not found 1 failed

Files are named SET.FILE.NAME after their labels. In SET, '_' replaces a space
and %XX any other character except digits and capital letters; in NAME, %XX
replaces '%', unprintable characters and those that some file system refuses,
and spaces at the end are left out. A file gets its name when it is complete,
and its stage, NAME.stage, is then removed if the file begins with all that it
has. Existing files are never overwritten.

With --salvage, NAME.gaps names the images and has the lines of 'tape salvage'.
Both files are written anew by each run and removed when the file is complete,
unless somebody changed them.

With --manifest, MANIFEST.sha256 in DIR gets a line for each complete file: its
SHA-256, as it was written, and its name. A file that EXISTS gets one unless it
has it. Lines of other files stay. MANIFEST.jsonl has lines of JSON about these
files, also incomplete ones: their labels, and which images and blocks they were
made of. Later runs add lines. --verify reads the files again, as
'sha256sum -c MANIFEST.sha256' does in DIR, and prints a line for each that does
not agree, and the number of files by outcome:
  DIFFERS ABC001.1.PAYROLL     its contents were changed
  MISSING ABC001.2.LEDGER      there is no file of this name
  NOT READ ABC001.3.TAXES      it cannot be read, or is not a regular file
  TOTAL 21 agree 1 differ 1 missing 1 not read

With IMAGEs, --verify looks for each image of MANIFEST.jsonl among them, by its
size and SHA-256, and prints a line for each that it does not find:
  IMAGE DIFFERS a.tap          its contents were changed
  IMAGE MISSING b.tap          it was not named
  IMAGE NOT READ c.tap         it cannot be read, or MANIFEST.jsonl has no sum
Then the files are compared with those on the images, and nothing is recovered.

Exit status: 0 all chosen files complete and all images read, 1 error, 2 usage
error, 3 a file is incomplete, in conflict or not found, an image was not read
to its end, or no file was found. With --verify: 0 all files of the list agree,
and each file on the IMAGEs EXISTS; 3 one does not, or the list is empty

Examples:
  mkdir ../out; tape unpack ../out *.tap
  tape unpack ../out *.tap --manifest; tape unpack --verify ../out *.tap
  find . -name '*.tap' -print0 | tape unpack ../out --files-from - --null
  tape unpack ../out *.tap --set ABC001 --file 2 --file 'PAY*' --list";
