//! Tests of tapes that are not written as the standard would have them: which commands read them,
//! and what they say.
use crate::tape::Tape;
use std::test::Fail;
use tape_tool_calls::follow_in;

const READ: &str = "
    ebcdic ebcdic.tap
    booted booted.tap
    marked marked.tap
    unnamed unnamed.tap
    worked worked.tap
    # The rules that were applied to an image are named, once for each image.
    0: survey ebcdic.tap booted.tap marked.tap
    ~   image 1: labels in EBCDIC
    ~   image 2: something before the first file is ignored
    ~   image 3: something before the first file is ignored
    0: survey unnamed.tap =>   image 1: no volume label
    $ survey --tsv worked.tap
    > ..
    folder out
    $ unpack out ebcdic.tap
    > FILE ABC001 1 COMPLETE 25 out/ABC001.1.PAYROLL
    > TOTAL 1 complete 0 existing 0 incomplete 0 in conflict 0 not found 0 failed
    !   image 1: labels in EBCDIC
    length out/ABC001.1.PAYROLL 2025
    at out/ABC001.1.PAYROLL 1944 0025 \\20
    remove out/ABC001.1.PAYROLL
    $ unpack out booted.tap
    > FILE ABC001 1 COMPLETE 25 out/ABC001.1.PAYROLL
    > TOTAL 1 complete 0 existing 0 incomplete 0 in conflict 0 not found 0 failed
    !   image 1: something before the first file is ignored
    remove out/ABC001.1.PAYROLL
    0: unpack out marked.tap
    length out/ABC001.1.PAYROLL 2025
    # A volume without its label is recovered, too.
    remove out/ABC001.1.PAYROLL
    0: unpack out unnamed.tap
    length out/ABC001.1.PAYROLL 2025
    $ extract --again ABC001 1 again.txt ebcdic.tap
    > REEL 1 COMPLETE
    > COMPLETE 25
    !   image 1: labels in EBCDIC
    length again.txt 2025
    0: extract --again ABC001 1 order.txt ebcdic.tap unnamed.tap
    ~   image 1: labels in EBCDIC
    ~   image 2: no volume label
    0: salvage ABC001 1 salvaged.txt ebcdic.tap =>   image 1: labels in EBCDIC
    length salvaged.txt 2025
    # Commands that write no file of the normal form read the tape as it is, and say nothing else.
    3$ extract ABC001 1 plain.txt ebcdic.tap
    > REEL 1 NOT LABELLED
    > AWAITS 1 1 0
    3$ extract ABC001 1 plain.txt booted.tap
    > REEL 1 NOT LABELLED
    > AWAITS 1 1 0
    missing plain.txt
    3: check ebcdic.tap | check marked.tap
    0: compare ebcdic.tap ebcdic.tap
    3: compare ebcdic.tap worked.tap
";

const UNCOUNTED: &str = "
    uncounted uncounted.tap
    worked worked.tap
    0: survey --tsv uncounted.tap
    | UNCOUNTED\tABC001\t1\t1
    ~   image 1: a file has no block count
    0: survey --json uncounted.tap
    | {\"row\":\"UNCOUNTED\",\"set\":\"ABC001\",\"file\":1,\"section\":1}
    0: survey uncounted.tap
    | ABC001 file 1 section 1: blocks not counted
    folder out
    $ unpack --list out uncounted.tap
    > FILE ABC001 1 READY out/ABC001.1.PAYROLL
    > FILE ABC001 1 UNCOUNTED 1
    > TOTAL 1 complete 0 existing 0 incomplete 0 in conflict 0 not found 0 failed
    !   image 1: a file has no block count
    $ unpack --manifest out worked.tap uncounted.tap
    > FILE ABC001 1 COMPLETE 25 out/ABC001.1.PAYROLL
    > FILE ABC001 1 UNCOUNTED 1
    > TOTAL 1 complete 0 existing 0 incomplete 0 in conflict 0 not found 0 failed
    !   image 2: a file has no block count
    at out/MANIFEST.jsonl 232 \"blocks_counted\":false,\"padding\":null,
    $ unpack out uncounted.tap
    > FILE ABC001 1 EXISTS out/ABC001.1.PAYROLL
    > FILE ABC001 1 UNCOUNTED 1
    > TOTAL 0 complete 1 existing 0 incomplete 0 in conflict 0 not found 0 failed
    !   image 1: a file has no block count
    folder other
    $ unpack --manifest other worked.tap
    > FILE ABC001 1 COMPLETE 25 other/ABC001.1.PAYROLL
    > TOTAL 1 complete 0 existing 0 incomplete 0 in conflict 0 not found 0 failed
    at other/MANIFEST.jsonl 232 \"blocks_counted\":true,\"padding\":null,
    $ extract --again ABC001 1 again.txt uncounted.tap
    > REEL 1 COMPLETE
    > COMPLETE 25
    > UNCOUNTED 1
    !   image 1: a file has no block count
    $ salvage ABC001 1 salvaged.txt uncounted.tap
    > SECTION 1 1 3
    > COMPLETE 25
    > UNCOUNTED 1
    !   image 1: a file has no block count
    0: salvage ABC001 1 kept.txt uncounted.tap --provenance kept.jsonl
    at kept.jsonl 224 \"blocks_counted\":false,\"padding\":null,
    # Of many images only their number is printed, unless all is wanted.
    0: survey uncounted.tap worked.tap worked.tap worked.tap worked.tap worked.tap
    | 1 section whose blocks are not counted
    0: survey --all uncounted.tap worked.tap worked.tap worked.tap worked.tap worked.tap
    | ABC001 file 1 section 1: blocks not counted
    # The sections of other files do not matter.
    3$ salvage ABC001 2 other.txt uncounted.tap
    > GAP 1 - - 0
    > SALVAGED 0
    !   image 1: a file has no block count
    # A command that reads the tape as it is cannot read the label.
    3$ extract ABC001 1 plain.txt uncounted.tap
    > REEL 1 BAD LABEL 3
    > AWAITS 1 1 3
";

#[test]
fn blocks_that_are_not_counted_are_reported(rt: HostRuntime) -> Result<(), Fail> {
    follow_in(&rt, &Tape, "not_counted", UNCOUNTED)
}

const BARE: &str = "
    # A reel without second labels: each of its three blocks is a record. On another copy of it an
    # item is unreadable that follows EOF1, and may be an EOF2.
    worked bare.tap
    omit bare.tap 9
    omit bare.tap 2
    worked doubted.tap
    spoil doubted.tap 9
    omit doubted.tap 2
    folder first
    folder second
    3: unpack first bare.tap doubted.tap | unpack second doubted.tap bare.tap
    length first/ABC001.1.PAYROLL 2003
    length second/ABC001.1.PAYROLL 2003
    3: extract --again ABC001 1 alone.txt doubted.tap
    0: extract --again ABC001 1 again.txt doubted.tap bare.tap
    length again.txt 2003
    missing alone.txt
";

#[test]
fn good_copies_show_that_there_are_no_second_labels(rt: HostRuntime) -> Result<(), Fail> {
    follow_in(&rt, &Tape, "bare", BARE)
}

#[test]
fn tapes_of_other_systems_are_read(rt: HostRuntime) -> Result<(), Fail> {
    follow_in(&rt, &Tape, "normal_form", READ)
}

const PADDED: &str = "
    # A file that ends with a record of circumflexes, which may be padding.
    put circumflexes.bin recordrecordrecord^^^^^^^^^^^^^^^^^^
    0: write . PAD 100000 A=circumflexes.bin --format F --block 36 --record 18 --form raw
    0: survey PAD001.tap
    | complete, the last records may be padding (^)
    0: survey --tsv PAD001.tap
    | PADDED\tPAD001\t1\tCIRCUMFLEX
    0: survey --json PAD001.tap
    | {\"row\":\"PADDED\",\"set\":\"PAD001\",\"file\":1,\"padding\":\"CIRCUMFLEX\"}
    folder padded
    0: unpack --form raw --manifest padded PAD001.tap
    at padded/MANIFEST.jsonl 217 \"blocks_counted\":true,\"padding\":\"CIRCUMFLEX\",
    length padded/PAD001.1.A 36
";

#[test]
fn padding_is_reported(rt: HostRuntime) -> Result<(), Fail> {
    follow_in(&rt, &Tape, "padded", PADDED)
}

const WRITTEN: &str = "
    # Labels are written in EBCDIC (VOL1, HDR1, EOF1), and data as they are.
    put r.bin recordrecordrecordRECORDRECORDRECORD
    $ write . EBC 100000 A=r.bin --format F --block 36 --record 18 --form raw --labels ebcdic
    > VOLUME EBC001 504
    > FILES 1 VOLUMES 1
    length EBC001.tap 504
    at EBC001.tap 4 \\E5\\D6\\D3\\F1
    at EBC001.tap 92 \\C8\\C4\\D9\\F1
    at EBC001.tap 272 recordrecordrecordRECORD
    at EBC001.tap 320 \\C5\\D6\\C6\\F1
    # The set is read back.
    0: survey EBC001.tap =>   image 1: labels in EBCDIC
    folder written
    $ unpack --form raw written EBC001.tap
    > FILE EBC001 1 COMPLETE 2 written/EBC001.1.A
    > TOTAL 1 complete 0 existing 0 incomplete 0 in conflict 0 not found 0 failed
    !   image 1: labels in EBCDIC
    length written/EBC001.1.A 36
    at written/EBC001.1.A 0 recordrecordrecordRECORD
    0: extract --again --form raw EBC001 1 again.bin EBC001.tap =>   image 1: labels in EBCDIC
    length again.bin 36
    3$ extract EBC001 1 plain.bin EBC001.tap
    > REEL 1 NOT LABELLED
    > AWAITS 1 1 0
    # So is one of two volumes.
    0: write . EBM 1060 A=r.bin B=r.bin --format F --block 36 --record 18 --form raw --labels ebcdic
    folder both
    0: unpack --form raw both EBM001.tap EBM002.tap
    length both/EBM001.1.A 36
    length both/EBM001.2.B 36
    # An image that exists is not overwritten.
    1: write . EBC 100000 A=r.bin --labels ebcdic => tape: file fault 1
    length EBC001.tap 504
";

#[test]
fn labels_in_ebcdic_are_written(rt: HostRuntime) -> Result<(), Fail> {
    follow_in(&rt, &Tape, "written_in_ebcdic", WRITTEN)
}
