//! Tests of `unpack`: what it writes, and which files.
use crate::tape::Tape;
use std::io::Write;
use std::test::Fail;
use tape_tool::LastLine;
use tape_tool_calls::follow_in;

const UNPACKED: &str = "
    # All files are unpacked in one run; a second run leaves them unchanged.
    folder unpacked
    worked unpack1.tap
    3: unpack unpacked lost.tap
    0: unpack unpacked/ unpack1.tap unpack1.tap
    length unpacked/ABC001.1.PAYROLL 2025
    missing unpacked/.tape-1.part unpacked/ABC001.1.PAYROLL.stage
    $ unpack unpacked unpack1.tap
    > FILE ABC001 1 EXISTS unpacked/ABC001.1.PAYROLL
    > TOTAL 0 complete 1 existing 0 incomplete 0 in conflict 0 not found 0 failed
    3: unpack unpacked unpack1.tap lost.tap
    | EXISTS
    # An existing file is compared, and never changed: one that is longer, shorter, or of another
    # form, and another file.
    cut unpacked/ABC001.1.PAYROLL 2026
    3$ unpack unpacked unpack1.tap
    > FILE ABC001 1 DIFFERENT unpacked/ABC001.1.PAYROLL
    > TOTAL 0 complete 1 existing 0 incomplete 0 in conflict 0 not found 0 failed
    length unpacked/ABC001.1.PAYROLL 2026
    cut unpacked/ABC001.1.PAYROLL 2024
    3: unpack unpacked unpack1.tap
    | DIFFERENT
    cut unpacked/ABC001.1.PAYROLL 2000
    3: unpack unpacked unpack1.tap --form raw
    | DIFFERENT
    put unpacked/ABC001.1.PAYROLL kept
    3: unpack unpacked unpack1.tap
    | DIFFERENT
    $ unpack unpacked unpack1.tap --list
    > FILE ABC001 1 EXISTS unpacked/ABC001.1.PAYROLL
    > TOTAL 0 complete 1 existing 0 incomplete 0 in conflict 0 not found 0 failed
    has unpacked/ABC001.1.PAYROLL kept
    # Damaged copies are read, one each day: the last one alone does not have all that the others
    # contributed.
    folder days
    damaged day1.tap 1
    damaged day2.tap 2
    3: unpack days day1.tap --form raw | unpack days day2.tap --form raw
    missing days/ABC001.1.PAYROLL
    0: unpack days day1.tap --form raw
    length days/ABC001.1.PAYROLL 2000
    missing days/ABC001.1.PAYROLL.stage
    # On one day, two copies complete each other, in either order.
    remove days/ABC001.1.PAYROLL
    0: unpack days day1.tap day2.tap
    at days/ABC001.1.PAYROLL 1944 0025 \\20
    # If no image has the whole file, copies are joined for the comparison, too. Nothing is saved.
    0: unpack days day2.tap day1.tap
    | EXISTS
    3$ unpack days day1.tap
    > FILE ABC001 1 NOT COMPARED days/ABC001.1.PAYROLL
    > TOTAL 0 complete 1 existing 0 incomplete 0 in conflict 0 not found 0 failed
    missing days/ABC001.1.PAYROLL.stage
    put days/ABC001.1.PAYROLL kept
    3: unpack days day1.tap
    | NOT COMPARED
    3: unpack days day2.tap day1.tap
    | DIFFERENT
    missing days/ABC001.1.PAYROLL.stage
    # If a complete copy is given, the file is read from it alone. The stage of an earlier run is
    # removed if the file begins with its data.
    folder older
    damaged older1.tap 9
    3: unpack older day1.tap
    length older/ABC001.1.PAYROLL.stage 681
    $ unpack older older1.tap
    > FILE ABC001 1 COMPLETE 25 older/ABC001.1.PAYROLL
    > TOTAL 1 complete 0 existing 0 incomplete 0 in conflict 0 not found 0 failed
    missing older/ABC001.1.PAYROLL.stage
    # A stage with other data is kept, for example that of a copy that lost a block and is damaged
    # after it, and so is one that is not a stage, or a link.
    remove older/ABC001.1.PAYROLL
    # An image whose labels give another block length is no copy.
    worked other1.tap
    3$ unpack older older1.tap other1.tap
    > FILE ABC001 1 CONFLICT
    > TOTAL 0 complete 0 existing 0 incomplete 1 in conflict 0 not found 0 failed
    lost_damaged older2.tap 3
    lost_damaged older3.tap 3
    cut older3.tap 1492
    3: unpack older older3.tap
    length older/ABC001.1.PAYROLL.stage 1106
    $ unpack older older1.tap older2.tap
    > FILE ABC001 1 COMPLETE 25 older/ABC001.1.PAYROLL
    > FILE ABC001 1 STAGE KEPT older/ABC001.1.PAYROLL.stage
    > TOTAL 1 complete 0 existing 0 incomplete 0 in conflict 0 not found 0 failed
    length older/ABC001.1.PAYROLL.stage 1106
    at older/ABC001.1.PAYROLL 405 0006 \\20
    remove older/ABC001.1.PAYROLL
    0: unpack older older1.tap --form raw
    | STAGE KEPT
    remove older/ABC001.1.PAYROLL
    put older/ABC001.1.PAYROLL.stage noise
    0: unpack older older1.tap
    | STAGE KEPT
    has older/ABC001.1.PAYROLL.stage noise
    remove older/ABC001.1.PAYROLL
    remove older/ABC001.1.PAYROLL.stage
    link older/ABC001.1.PAYROLL.stage ../older2.tap
    0: unpack older older1.tap
    | STAGE KEPT
    # The stage of a copy that lost a block is not continued from a damaged copy with other data.
    folder differs
    damaged differs1.tap 0
    3: unpack differs older3.tap
    3$ unpack differs differs1.tap
    > FILE ABC001 1 AWAITS 1 1 2 differs/ABC001.1.PAYROLL.stage
    > FILE ABC001 1 SECTION DIFFERS differs1.tap
    > TOTAL 0 complete 0 existing 1 incomplete 0 in conflict 0 not found 0 failed
    length differs/ABC001.1.PAYROLL.stage 1106
    missing differs/ABC001.1.PAYROLL
    # A file that is not a stage is unchanged, and a link in its place is not followed. The other
    # files are unpacked.
    folder failed
    damaged failed1.tap 1
    put failed/ABC001.1.PAYROLL.stage noise
    stage fault 1: unpack failed failed1.tap
    has failed/ABC001.1.PAYROLL.stage noise
    missing failed/ABC001.1.PAYROLL
    remove failed/ABC001.1.PAYROLL.stage
    put failed2.txt
    link failed/ABC001.1.PAYROLL.stage ../failed2.txt
    file fault 2: unpack failed failed1.tap
    length failed2.txt 0
    # A link that leads nowhere counts as existing.
    link failed/ABC001.1.PAYROLL lost.txt
    3: unpack failed failed1.tap
    | NOT COMPARED
    missing failed/ABC001.1.PAYROLL
    # Each run writes the readable records of an incomplete file anew, and removes them when the
    # file is complete, but only if they are unchanged since the last run.
    folder gaps
    damaged gaps1.tap 1
    damaged gaps2.tap 2
    3: unpack gaps gaps1.tap --salvage
    # 20 of 25 records of 80 bytes, each with a line feed.
    length gaps/ABC001.1.PAYROLL.salvaged 1620
    length gaps/ABC001.1.PAYROLL.gaps 190
    at gaps/ABC001.1.PAYROLL.gaps 0 FROM 1 gaps1.tap\\0ASECTION 1 1 5\\0A
    at gaps/ABC001.1.PAYROLL.gaps 31 GAP 1 1 1 5\\0ASALVAGED 20\\0ASUMS\\20
    missing gaps/.tape-1.part gaps/.tape-2.part
    3: unpack gaps gaps2.tap --salvage
    at gaps/ABC001.1.PAYROLL.gaps 31 GAP 1 2 2 10\\0ASALVAGED 20\\0A
    0: unpack gaps gaps1.tap --salvage
    missing gaps/ABC001.1.PAYROLL.salvaged gaps/ABC001.1.PAYROLL.gaps
    length gaps/ABC001.1.PAYROLL 2025
    # Files that were changed are not removed. A report alone, as a run that is interrupted leaves
    # it, is replaced if it is unchanged.
    remove gaps/ABC001.1.PAYROLL
    3: unpack gaps gaps1.tap --salvage
    put gaps/ABC001.1.PAYROLL.salvaged changed
    3: unpack gaps gaps1.tap --salvage
    has gaps/ABC001.1.PAYROLL.salvaged changed
    length gaps/ABC001.1.PAYROLL.gaps 190
    remove gaps/ABC001.1.PAYROLL.salvaged
    3: unpack gaps gaps1.tap --salvage
    length gaps/ABC001.1.PAYROLL.salvaged 1620
    remove gaps/ABC001.1.PAYROLL.salvaged
    put gaps/ABC001.1.PAYROLL.gaps mine
    0: unpack gaps gaps2.tap gaps1.tap --salvage
    has gaps/ABC001.1.PAYROLL.gaps mine
    # A run without --salvage removes them, too, unless they were changed.
    folder gaps4
    3: unpack gaps4 gaps1.tap --salvage
    0: unpack gaps4 gaps2.tap gaps1.tap
    missing gaps4/ABC001.1.PAYROLL.salvaged gaps4/ABC001.1.PAYROLL.gaps
    remove gaps4/ABC001.1.PAYROLL
    3: unpack gaps4 gaps1.tap --salvage
    put gaps4/ABC001.1.PAYROLL.salvaged changed
    0: unpack gaps4 gaps2.tap gaps1.tap
    has gaps4/ABC001.1.PAYROLL.salvaged changed
    length gaps4/ABC001.1.PAYROLL.gaps 190
    # They are left if looking them up fails. The file is complete nevertheless.
    remove gaps4/ABC001.1.PAYROLL
    0: unpack gaps4 gaps2.tap gaps1.tap
    * look gaps4/ABC001.1.PAYROLL.salvaged stale
    has gaps4/ABC001.1.PAYROLL.salvaged changed
    # No salvaged files remain after a complete copy was read.
    folder gaps3
    worked gaps3.tap
    0: unpack gaps3 gaps3.tap --salvage
    missing gaps3/ABC001.1.PAYROLL.gaps
    # Two sets with one identifier, and a blank volume.
    folder missed missed1 missed2
    fill missed_one.bin 130 1
    0: write missed1 MIX 100000 ONE=missed_one.bin | write missed2 MIX 100000 TWO=missed_one.bin
    3: unpack missed missed1/MIX001.tap missed2/MIX001.tap
    missing missed/MIX001.1.ONE missed/MIX001.1.TWO
    0: init missed1 BLK 1
    3: unpack missed missed1/BLK001.tap
    worked unpack2.tap
    2: unpack | unpack unpacked | unpack '' unpack2.tap | unpack unpack2.tap unpack2.tap
    is_worked unpack2.tap
    file fault 2: unpack missing unpack2.tap
";

#[test]
fn every_file_is_unpacked(rt: HostRuntime) -> Result<(), Fail> {
    follow_in(&rt, &Tape, "unpacked_files", UNPACKED)
}

/// The line that is remembered is not truncated.
#[test]
fn the_last_line_is_whole(rt: HostRuntime) -> Result<(), Fail> {
    let mut last = LastLine::new();
    last.write_all(b"REEL 1 COMPLETE\nCOMPLETE 12345678901234567890\n")?;
    assert!(rt; last.text() == b"COMPLETE 12345678901234567890".as_slice());
    Ok(())
}

/// Images of one set of three files, and of another set, and lines that choose files.
const CHOSEN: &str = "
    # Images of one set of three files, and of another set.
    folder chosen chosen1
    put chosen_a.txt A\\0A
    put chosen_b.txt B\\0AB\\0A
    put chosen1/CHO001.1.ONE kept
    0: write . CHO 100000 ONE=chosen_a.txt TWO=chosen_b.txt THREE=chosen_a.txt
    0: write . OTH 100000 ONE=chosen_b.txt
    # A file has the time of the day in its labels: noon of April 23rd, 1985.
    0: write . DAT 100000 ONE=chosen_b.txt --date 1985-04-23
    folder dated
    0: unpack dated DAT001.tap
    modified dated/DAT001.1.ONE 483105600
    has dated/DAT001.1.ONE B\\0AB\\0A
    0: extract DAT001 1 dated.txt lost.tap OTH001.tap DAT001.tap
    modified dated.txt 483105600
    0: extract DAT001 1 dated.txt DAT001.tap --now
    new dated.txt
    0: extract DAT001 1 dated.txt OTH001.tap DAT001.tap --again
    modified dated.txt 483105600
    0: salvage DAT001 1 dated1.txt OTH001.tap DAT001.tap | salvage OTH001 1 dated2.txt OTH001.tap
    modified dated1.txt 483105600
    new dated2.txt
    # Any other file than a plain one keeps the present.
    0: salvage DAT001 1 dated3.txt DAT001.tap --now
    new dated3.txt
    link dated4.txt dated3.txt
    0: extract DAT001 1 dated4.txt DAT001.tap
    new dated4.txt
    front chosen.tap 2288
    3$ unpack chosen1 --list CHO001.tap chosen.tap OTH001.tap
    > FILE CHO001 1 EXISTS chosen1/CHO001.1.ONE
    > FILE CHO001 2 READY chosen1/CHO001.2.TWO
    > FILE CHO001 3 READY chosen1/CHO001.3.THREE
    > FILE ABC001 1 LACKS 1 chosen1/ABC001.1.PAYROLL.stage
    > FILE OTH001 1 READY chosen1/OTH001.1.ONE
    > INCOMPLETE IMAGE chosen.tap
    > TOTAL 3 complete 1 existing 1 incomplete 0 in conflict 0 not found 0 failed
    $ unpack chosen --list CHO001.tap
    > FILE CHO001 1 READY chosen/CHO001.1.ONE
    > FILE CHO001 2 READY chosen/CHO001.2.TWO
    > FILE CHO001 3 READY chosen/CHO001.3.THREE
    > TOTAL 3 complete 0 existing 0 incomplete 0 in conflict 0 not found 0 failed
    $ unpack chosen CHO001.tap OTH001.tap --set CHO001 --file T* --file 3
    > FILE CHO001 2 COMPLETE 2 chosen/CHO001.2.TWO
    > FILE CHO001 3 COMPLETE 1 chosen/CHO001.3.THREE
    > TOTAL 2 complete 0 existing 0 incomplete 0 in conflict 0 not found 0 failed
    3$ unpack chosen OTH001.tap CHO001.tap --file *O*E --file 4 --file FOUR
    > FILE OTH001 1 COMPLETE 2 chosen/OTH001.1.ONE
    > FILE CHO001 1 COMPLETE 1 chosen/CHO001.1.ONE
    > NO FILE 4
    > NO FILE FOUR
    > TOTAL 2 complete 0 existing 0 incomplete 0 in conflict 2 not found 0 failed
    3$ unpack chosen CHO001.tap OTH001.tap --set OTH --file 1
    > NO SET OTH
    > TOTAL 0 complete 0 existing 0 incomplete 0 in conflict 1 not found 0 failed
    # A number without a label is not reported if other files are chosen.
    second_file second_only.tap
    $ unpack chosen second_only.tap --file LEDGER
    > FILE ABC001 2 COMPLETE 0 chosen/ABC001.2.LEDGER
    > TOTAL 1 complete 0 existing 0 incomplete 0 in conflict 0 not found 0 failed
    3$ unpack chosen second_only.tap
    > FILE ABC001 1 NOT FOUND
    > FILE ABC001 2 EXISTS chosen/ABC001.2.LEDGER
    > TOTAL 0 complete 1 existing 0 incomplete 0 in conflict 1 not found 0 failed
    # What is left by the lines.
    has chosen/CHO001.1.ONE A\\0A
    has chosen/CHO001.2.TWO B\\0AB\\0A
    has chosen1/CHO001.1.ONE kept
    missing chosen1/CHO001.2.TWO chosen1/ABC001.1.PAYROLL.stage
    2: unpack chosen --set '' CHO001.tap | unpack chosen --set TOOLONG CHO001.tap
    folder second
    3: unpack second second_only.tap
    length second/ABC001.2.LEDGER 0
    missing second/ABC001.1.LEDGER
";

#[test]
fn files_are_chosen(rt: HostRuntime) -> Result<(), Fail> {
    follow_in(&rt, &Tape, "chosen_files", CHOSEN)
}
