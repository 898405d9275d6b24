//! Tests of files that `unpack` recovers although labels of them are unreadable or lost, and of
//! `salvage`.
//!
//! The items of the example image: 0 is VOL1, 1 HDR1, 2 HDR2, 3 a tape mark, 4 to 6 blocks, 7 a
//! mark, 8 EOF1, 9 EOF2, 10 and 11 marks. The first mark ends at byte 268. The file has 25 records
//! of 80 bytes, so 2,025 bytes as lines.
use crate::tape::Tape;
use std::test::Fail;
use tape_tool_calls::follow_in;

const COMPLETED: &str = "
    # HDR2 is lost with no error, but EOF2 gives the format. Nothing else is missing.
    folder lost
    worked lost.tap
    omit lost.tap 2
    $ unpack lost lost.tap
    > FILE ABC001 1 COMPLETE 25 lost/ABC001.1.PAYROLL
    > TOTAL 1 complete 0 existing 0 incomplete 0 in conflict 0 not found 0 failed
    !   image 1: a file has no HDR2
    length lost/ABC001.1.PAYROLL 2025
    at lost/ABC001.1.PAYROLL 0 0001 \\20
    at lost/ABC001.1.PAYROLL 1944 0025 \\20
    missing lost/ABC001.1.PAYROLL.stage lost/.tape-1.part
    # HDR2 is unreadable, and a truncated copy names the file. The status is that of the images.
    folder out
    worked hdr2.tap
    spoil hdr2.tap 2
    front head.tap 268
    3$ unpack out hdr2.tap head.tap
    > FILE ABC001 1 COMPLETE 25 out/ABC001.1.PAYROLL
    > INCOMPLETE IMAGE hdr2.tap
    > INCOMPLETE IMAGE head.tap
    > TOTAL 1 complete 0 existing 0 incomplete 0 in conflict 0 not found 0 failed
    length out/ABC001.1.PAYROLL 2025
    at out/ABC001.1.PAYROLL 1944 0025 \\20
    missing out/ABC001.1.PAYROLL.stage out/.tape-1.part
    # An existing file is compared in the same way, and not changed.
    3$ unpack out hdr2.tap head.tap
    > FILE ABC001 1 EXISTS out/ABC001.1.PAYROLL
    > INCOMPLETE IMAGE hdr2.tap
    > INCOMPLETE IMAGE head.tap
    > TOTAL 0 complete 1 existing 0 incomplete 0 in conflict 0 not found 0 failed
    cut out/ABC001.1.PAYROLL 2026
    3: unpack out hdr2.tap head.tap
    | FILE ABC001 1 NOT COMPARED out/ABC001.1.PAYROLL
    length out/ABC001.1.PAYROLL 2026
    cut out/ABC001.1.PAYROLL 2024
    3: unpack out hdr2.tap head.tap
    | FILE ABC001 1 NOT COMPARED out/ABC001.1.PAYROLL
    length out/ABC001.1.PAYROLL 2024
    missing out/ABC001.1.PAYROLL.stage
    # The stage of an earlier run, which has the first block, its salvaged records, and a checksum.
    folder raw
    worked begun.tap
    spoil begun.tap 5
    3: unpack raw begun.tap --salvage --form raw
    length raw/ABC001.1.PAYROLL.salvaged 1200
    3: unpack raw hdr2.tap head.tap --form raw --manifest
    | FILE ABC001 1 COMPLETE 25 raw/ABC001.1.PAYROLL
    length raw/ABC001.1.PAYROLL 2000
    length raw/MANIFEST.sha256 83
    0: unpack raw --verify
    missing raw/ABC001.1.PAYROLL.stage raw/ABC001.1.PAYROLL.salvaged raw/ABC001.1.PAYROLL.gaps
    # Two copies have all blocks, and one a trailer label: the order of images does not matter.
    worked eof1.tap
    spoil eof1.tap 8
    folder first
    folder second
    3: unpack first hdr2.tap eof1.tap | unpack second eof1.tap hdr2.tap
    length first/ABC001.1.PAYROLL 2025
    length second/ABC001.1.PAYROLL 2025
";

#[test]
fn damaged_labels_do_not_matter(rt: HostRuntime) -> Result<(), Fail> {
    follow_in(&rt, &Tape, "completed", COMPLETED)
}

const LEFT: &str = "
    # HDR2 is lost, and a block is unreadable or lost, a mark lost, or a trailer label unreadable.
    folder out
    worked block.tap
    spoil block.tap 5
    omit block.tap 2
    3$ unpack out block.tap
    > FILE ABC001 1 AWAITS 1 1 0 out/ABC001.1.PAYROLL.stage
    > TOTAL 0 complete 0 existing 1 incomplete 0 in conflict 0 not found 0 failed
    !   image 1: a file has no HDR2
    missing out/ABC001.1.PAYROLL out/.tape-1.part
    folder others
    worked count.tap
    omit count.tap 5
    omit count.tap 2
    worked before.tap
    omit before.tap 3
    omit before.tap 2
    worked after.tap
    omit after.tap 7
    omit after.tap 2
    worked eof1.tap
    spoil eof1.tap 8
    omit eof1.tap 2
    3: unpack others count.tap | unpack others before.tap | unpack others after.tap
    missing others/ABC001.1.PAYROLL others/.tape-1.part
    3: unpack others eof1.tap
    missing others/ABC001.1.PAYROLL others/.tape-1.part
    # One copy has no HDR2, and the other one unreadable second labels: the format is unknown.
    folder form
    worked form.tap
    spoil form.tap 2
    spoil form.tap 9
    worked none.tap
    omit none.tap 2
    cut none.tap 180
    3: unpack form form.tap none.tap
    | FILE ABC001 1 AWAITS 1 1 0 form/ABC001.1.PAYROLL.stage
    missing form/ABC001.1.PAYROLL form/.tape-1.part
    # A stage with other data: of a copy that lost its second block, and was truncated after an
    # unreadable one.
    folder staged
    worked hdr2.tap
    spoil hdr2.tap 2
    front head.tap 268
    lost_damaged older.tap 3
    cut older.tap 1492
    3: unpack staged older.tap
    length staged/ABC001.1.PAYROLL.stage 1106
    3: unpack staged hdr2.tap head.tap
    | FILE ABC001 1 AWAITS 1 1 2 staged/ABC001.1.PAYROLL.stage
    missing staged/ABC001.1.PAYROLL staged/.tape-1.part
    length staged/ABC001.1.PAYROLL.stage 1106
    # The only complete file with this number is another one, whose volume label is unreadable. The
    # first image has labels of this one.
    folder other
    put other.txt ANOTHER\\0AFILE\\0A
    0: write other ABC 100000 OTHER=other.txt
    spoil other/ABC001.tap 0
    damaged one.tap 0
    3$ salvage ABC001 1 other/salvaged one.tap other/ABC001.tap
    > CONFLICT 1 2 1
    > SECTION 1 2 1
    > SALVAGED 2
    3: unpack other one.tap other/ABC001.tap
    | FILE ABC001 1 CONFLICT
    missing other/ABC001.1.PAYROLL other/ABC001.1.OTHER other/.tape-1.part
";

#[test]
fn nothing_else_is_completed(rt: HostRuntime) -> Result<(), Fail> {
    follow_in(&rt, &Tape, "not_completed", LEFT)
}

const CONTRARY: &str = "
    # Three recordings of five blocks, with the same labels; the third one has other data.
    folder one two three out kept after
    fill data.bin 2000 1
    fill other.bin 2000 2
    0: write one DAY 100000 A=data.bin --format F --record 80 --block 400 --form raw
    0: write two DAY 100000 A=data.bin --format F --record 80 --block 400 --form raw
    0: write three DAY 100000 A=other.bin --format F --record 80 --block 400 --form raw
    spoil one/DAY001.tap 5
    spoil three/DAY001.tap 6
    # Each has the block that the other one lacks, but the others differ.
    3$ unpack out one/DAY001.tap three/DAY001.tap --salvage
    > FILE DAY001 1 CONFLICT
    > FILE DAY001 1 SALVAGED 20 out/DAY001.1.A.salvaged
    > TOTAL 0 complete 0 existing 0 incomplete 1 in conflict 0 not found 0 failed
    # 20 records of 80 bytes, each with a line feed.
    length out/DAY001.1.A.salvaged 1620
    at out/DAY001.1.A.salvaged 1539 11111
    missing out/DAY001.1.A out/DAY001.1.A.stage
    # Nor is an existing file compared.
    put out/DAY001.1.A kept
    3$ unpack out one/DAY001.tap three/DAY001.tap
    > FILE DAY001 1 CONFLICT
    > TOTAL 0 complete 0 existing 0 incomplete 1 in conflict 0 not found 0 failed
    has out/DAY001.1.A kept
    # A stage with block 0, a copy of the others, and an image with another block 0 alone.
    3: unpack kept one/DAY001.tap
    spoil two/DAY001.tap 4
    spoil three/DAY001.tap 5
    spoil three/DAY001.tap 7
    spoil three/DAY001.tap 8
    3$ unpack kept two/DAY001.tap three/DAY001.tap
    > FILE DAY001 1 COMPLETE 25 kept/DAY001.1.A
    > FILE DAY001 1 SECTION DIFFERS three/DAY001.tap
    > TOTAL 1 complete 0 existing 0 incomplete 0 in conflict 0 not found 0 failed
    at kept/DAY001.1.A 0 11111
    missing kept/DAY001.1.A.stage
    # A copy with an unreadable block and a wrong block count is named if the file is incomplete.
    folder counts
    damaged last.tap 4
    lost_damaged doubtful.tap 3
    3$ unpack counts doubtful.tap last.tap
    > FILE ABC001 1 AWAITS 1 1 4 counts/ABC001.1.PAYROLL.stage
    > FILE ABC001 1 SECTION DIFFERS doubtful.tap
    > TOTAL 0 complete 0 existing 1 incomplete 0 in conflict 0 not found 0 failed
    damaged first.tap 0
    $ unpack counts doubtful.tap last.tap first.tap
    > FILE ABC001 1 COMPLETE 25 counts/ABC001.1.PAYROLL
    > TOTAL 1 complete 0 existing 0 incomplete 0 in conflict 0 not found 0 failed
    # Labels after a lost mark are not the blocks that another copy lacks.
    folder labels
    damaged marks.tap 9
    omit marks.tap 12
    omit marks.tap 3
    damaged unread.tap 0
    spoil unread.tap 5
    3$ unpack labels marks.tap unread.tap
    > FILE ABC001 1 AWAITS 1 1 0 labels/ABC001.1.PAYROLL.stage
    > FILE ABC001 1 SECTION DIFFERS marks.tap
    > INCOMPLETE IMAGE marks.tap
    > TOTAL 0 complete 0 existing 1 incomplete 0 in conflict 0 not found 0 failed
    3: extract ABC001 1 labels.txt marks.tap unread.tap --again
    missing labels.txt labels/ABC001.1.PAYROLL
    # A copy that ends before its first block has no labels among its data.
    folder short
    front short.tap 300
    3$ unpack short short.tap
    > FILE ABC001 1 AWAITS 1 1 0 short/ABC001.1.PAYROLL.stage
    > INCOMPLETE IMAGE short.tap
    > TOTAL 0 complete 0 existing 1 incomplete 0 in conflict 0 not found 0 failed
    3$ extract ABC001 1 short.txt short.tap --again
    > REEL 1 REEL ENDED IMAGE 1 268
    > AWAITS 1 1 0
    # Salvaged records are kept with a stage that has other data than the complete file.
    folder four days
    0: write four DAY 100000 A=other.bin --format F --record 80 --block 400 --form raw
    3: unpack days one/DAY001.tap --salvage
    0: unpack days four/DAY001.tap
    | FILE DAY001 1 STAGE KEPT days/DAY001.1.A.stage
    at days/DAY001.1.A 0 22222
    length days/DAY001.1.A.salvaged 1620
    0: unpack days four/DAY001.tap
    length days/DAY001.1.A.salvaged 1620
    # A section of the file after the one that ends it.
    worked ends.tap
    second second.tap
    3$ unpack after ends.tap second.tap
    > FILE ABC001 1 COMPLETE 25 after/ABC001.1.PAYROLL
    > SECTION AFTER END second.tap
    > TOTAL 1 complete 0 existing 0 incomplete 0 in conflict 0 not found 0 failed
    length after/ABC001.1.PAYROLL 2025
";

#[test]
fn contradictions_are_told(rt: HostRuntime) -> Result<(), Fail> {
    follow_in(&rt, &Tape, "contrary", CONTRARY)
}

const SALVAGED: &str = "
    # If nothing is missing, the output is the complete file, and an existing file is never
    # overwritten.
    worked salvage1.tap
    0: salvage ABC001 1 salvaged.txt salvage1.tap
    length salvaged.txt 2025
    missing salvaged.txt.part
    put salvaged.old kept
    file fault 1: salvage ABC001 1 salvaged.old salvage1.tap
    has salvaged.old kept
    0: salvage ABC001 1 salvaged.raw salvage1.tap --form raw
    length salvaged.raw 2000
    0: salvage ABC001 1 salvaged.blocks salvage1.tap --form blocks
    length salvaged.blocks 2000
    # The records of the readable blocks are recovered: the first ten, and the last ten.
    damaged salvage2.tap 2
    3: salvage ABC001 1 salvaged.two salvage2.tap
    length salvaged.two 1620
    at salvaged.two 1539 0025 \\20
    # The other copy has all blocks of the section.
    worked salvage3.tap
    worked salvage6.tap
    spoil salvage6.tap 5
    0: salvage ABC001 1 salvaged.three salvage6.tap salvage3.tap
    length salvaged.three 2025
    # An image with another number of blocks, which its trailer label counts, is no copy.
    3: salvage ABC001 1 salvaged.six salvage2.tap salvage3.tap
    | CONFLICT 1 2 1
    length salvaged.six 2025
    # If a block is lost, everything in the other blocks is recovered.
    lost salvage4.tap
    3: salvage ABC001 1 salvaged.four salvage4.tap
    length salvaged.four 1215
    # Images that cannot be opened, and files that no image contains.
    worked salvage5.tap
    3: salvage ABC001 2 salvaged.none salvage5.tap
    length salvaged.none 0
    3: salvage ABC001 1 salvaged.lost lost.tap
    file fault 2: salvage ABC001 1 missing/salvaged.txt salvage5.tap
    2: salvage | salvage ABC001 1 salvaged.word
    2: salvage ABC001 1 - x.tap => the report goes to standard output: write './-'
    2: salvage ABC001 1 salvaged.word x.tap --form tap
    missing salvaged.word
";

#[test]
fn files_are_salvaged(rt: HostRuntime) -> Result<(), Fail> {
    follow_in(&rt, &Tape, "salvaged_files", SALVAGED)
}

const OTHER_END: &str = "
    # A reel that lost the end of its first file and the beginning of the second. Its blocks complete
    # no other copy, although they are as many as the trailer label of the first file says.
    put one.bin AAAAAAAAAAAAAAAAAABBBBBBBBBBBBBBBBBB
    put two.bin CCCCCCCCCCCCCCCCCCDDDDDDDDDDDDDDDDDD
    folder good
    folder over
    0: write good DEF 10000 A=one.bin B=two.bin --format F --block 18 --record 18 --form raw
    0: write over DEF 10000 A=one.bin B=two.bin --format F --block 18 --record 18 --form raw
    spoil good/DEF001.tap 5
    omit over/DEF001.tap 5
    omit over/DEF001.tap 5
    omit over/DEF001.tap 5
    omit over/DEF001.tap 5
    omit over/DEF001.tap 5
    omit over/DEF001.tap 5
    omit over/DEF001.tap 5
    omit over/DEF001.tap 5
    omit over/DEF001.tap 5
    $ list over/DEF001.tap
    > 000001 VOL1 DEF001
    > 000002 HDR1 A                 DEF001 0001 0001
    > 000003 HDR2 F 00018 00018 00
    > 000004 MARK
    > 000005 BLOCK 00018
    > 000006 BLOCK 00018
    > 000007 MARK
    > 000008 EOF1 B                 DEF001 0001 0002 000002
    > 000009 EOF2 F 00018 00018 00
    > 000010 MARK
    > 000011 MARK
    > END MARKED
    3: salvage DEF001 1 s.txt over/DEF001.tap good/DEF001.tap
    | CONFLICT 1 2 1
    3: salvage DEF001 1 t.txt good/DEF001.tap over/DEF001.tap
    | CONFLICT 1 1 2
    set fault 1: extract DEF001 1 e.txt over/DEF001.tap good/DEF001.tap --again
    set fault 1: extract DEF001 1 e.txt good/DEF001.tap over/DEF001.tap --again
    missing e.txt
    folder days
    3: unpack days over/DEF001.tap
    3: unpack days good/DEF001.tap
    missing days/DEF001.1.A
";

#[test]
fn another_trailer_label_completes_nothing(rt: HostRuntime) -> Result<(), Fail> {
    follow_in(&rt, &Tape, "other_end", OTHER_END)
}
