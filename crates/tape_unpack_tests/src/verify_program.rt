//! Tests of `unpack --form auto`, of `unpack --verify` with images, and of what killed runs left.
use crate::tape::Tape;
use std::test::Fail;
use tape_tool_calls::follow_in;

const CHOSEN: &str = "
    # Text is written as lines, and anything else as it is. A tab and a form feed are text.
    folder auto
    put auto_text.txt one\\09two\\0A\\0Cthree\\0A
    put auto_data.txt one\\80two\\0A
    0: write . TXT 100000 TEXT=auto_text.txt DATA=auto_data.txt --format D
    $ unpack auto TXT001.tap --form auto --list
    > FILE TXT001 1 READY lines auto/TXT001.1.TEXT
    > FILE TXT001 2 READY raw auto/TXT001.2.DATA
    > TOTAL 2 complete 0 existing 0 incomplete 0 in conflict 0 not found 0 failed
    missing auto/TXT001.1.TEXT auto/.tape-1.part
    $ unpack auto TXT001.tap --form auto
    > FILE TXT001 1 COMPLETE 2 lines auto/TXT001.1.TEXT
    > FILE TXT001 2 COMPLETE 1 raw auto/TXT001.2.DATA
    > TOTAL 2 complete 0 existing 0 incomplete 0 in conflict 0 not found 0 failed
    has auto/TXT001.1.TEXT one\\09two\\0A\\0Cthree\\0A
    has auto/TXT001.2.DATA one\\80two
    # Existing files are compared in the same forms.
    $ unpack auto TXT001.tap --form auto
    > FILE TXT001 1 EXISTS auto/TXT001.1.TEXT
    > FILE TXT001 2 EXISTS auto/TXT001.2.DATA
    > TOTAL 0 complete 2 existing 0 incomplete 0 in conflict 0 not found 0 failed
    3: unpack auto TXT001.tap
    | FILE TXT001 2 DIFFERENT auto/TXT001.2.DATA
    # A file from two damaged copies on two days, salvaged records, and a file of which HDR2 is lost.
    folder auto_days
    damaged auto1.tap 1
    damaged auto2.tap 2
    3: unpack auto_days auto1.tap --form auto --salvage
    | FILE ABC001 1 AWAITS 1 1 1 auto_days/ABC001.1.PAYROLL.stage
    | FILE ABC001 1 SALVAGED 20 lines auto_days/ABC001.1.PAYROLL.salvaged
    length auto_days/ABC001.1.PAYROLL.salvaged 1620
    3: unpack auto_days auto2.tap --form auto
    0: unpack auto_days auto1.tap --form auto
    | FILE ABC001 1 COMPLETE 25 lines auto_days/ABC001.1.PAYROLL
    length auto_days/ABC001.1.PAYROLL 2025
    missing auto_days/ABC001.1.PAYROLL.stage auto_days/ABC001.1.PAYROLL.salvaged
    0: unpack auto_days auto1.tap auto2.tap --form auto
    | FILE ABC001 1 EXISTS auto_days/ABC001.1.PAYROLL
    folder auto_lost
    worked auto3.tap
    omit auto3.tap 2
    0: unpack auto_lost auto3.tap --form auto
    | FILE ABC001 1 COMPLETE 25 lines auto_lost/ABC001.1.PAYROLL
    length auto_lost/ABC001.1.PAYROLL 2025
    0: unpack auto_lost auto3.tap --form auto
    | FILE ABC001 1 EXISTS auto_lost/ABC001.1.PAYROLL
";

#[test]
fn forms_are_chosen(rt: HostRuntime) -> Result<(), Fail> {
    follow_in(&rt, &Tape, "chosen_forms", CHOSEN)
}

const VERIFIED: &str = "
    # The file is compared in the form that is recorded.
    folder seen
    damaged seen1.tap 1
    damaged seen2.tap 2
    0: unpack seen seen1.tap seen2.tap --manifest --form raw
    $ unpack --verify seen seen1.tap seen2.tap
    > TOTAL 1 agree 0 differ 0 missing 0 not read
    > FILE ABC001 1 EXISTS seen/ABC001.1.PAYROLL
    > TOTAL 0 complete 1 existing 0 incomplete 0 in conflict 0 not found 0 failed
    # An image is not named, does not exist any more, or was changed.
    3: unpack --verify seen seen1.tap
    | IMAGE MISSING seen2.tap
    | FILE ABC001 1 NOT COMPARED seen/ABC001.1.PAYROLL
    remove seen2.tap
    3: unpack --verify seen seen1.tap seen2.tap
    | IMAGE NOT READ seen2.tap
    damaged seen2.tap 3
    3: unpack --verify seen seen1.tap seen2.tap
    | IMAGE DIFFERS seen2.tap
    | FILE ABC001 1 EXISTS seen/ABC001.1.PAYROLL
    # It has another name now.
    damaged moved.tap 2
    0: unpack --verify seen moved.tap seen1.tap
    # A truncated copy does not matter if the file agrees.
    damaged short.tap 9
    cut short.tap 1000
    0: unpack --verify seen moved.tap seen1.tap short.tap
    | FILE ABC001 1 EXISTS seen/ABC001.1.PAYROLL
    | INCOMPLETE IMAGE short.tap
    # The file was changed, and its checksum in the list.
    put seen/ABC001.1.PAYROLL x
    put seen/MANIFEST.sha256 \
        2d711642b726b04401627ca9fbac32f5c8530fb1903cc4db02258717921a4881  ABC001.1.PAYROLL\\0A
    3: unpack --verify seen moved.tap seen1.tap
    | TOTAL 1 agree 0 differ 0 missing 0 not read
    | FILE ABC001 1 DIFFERENT seen/ABC001.1.PAYROLL
    has seen/ABC001.1.PAYROLL x
    # It is gone. Nothing is recovered.
    remove seen/ABC001.1.PAYROLL
    3$ unpack --verify seen moved.tap seen1.tap
    > MISSING ABC001.1.PAYROLL
    > TOTAL 0 agree 0 differ 1 missing 0 not read
    > FILE ABC001 1 LACKS 1 seen/ABC001.1.PAYROLL.stage
    > TOTAL 0 complete 0 existing 1 incomplete 0 in conflict 0 not found 0 failed
    missing seen/ABC001.1.PAYROLL seen/ABC001.1.PAYROLL.stage seen/.tape-1.part
    worked whole.tap
    3: unpack --verify seen whole.tap
    | FILE ABC001 1 READY seen/ABC001.1.PAYROLL
    missing seen/ABC001.1.PAYROLL
    # A record without a checksum, and what is no record.
    put seen/MANIFEST.jsonl {\"row\":\"IMAGE\",\"image\":\"no.tap\",\"size\":null,\"sha256\":null}\\0A
    3: unpack --verify seen whole.tap
    | IMAGE NOT READ no.tap
    put seen/MANIFEST.jsonl {\"row\":\"IMAGE\"}\\0A
    file fault 3: unpack --verify seen whole.tap
    put seen/MANIFEST.jsonl {\"row\":\"FILE\",\"name\":\"x\",\"form\":\"other\"}\\0A
    file fault 3: unpack --verify seen whole.tap
    put seen/MANIFEST.jsonl {\"row\":\"MINE\" }}\\0A
    file fault 3: unpack --verify seen whole.tap
    put seen/MANIFEST.jsonl [1]\\0A
    file fault 3: unpack --verify seen whole.tap
";

#[test]
fn images_are_verified(rt: HostRuntime) -> Result<(), Fail> {
    follow_in(&rt, &Tape, "verified_images", VERIFIED)
}

const LEFT: &str = "
    # What a run that was killed left next to a complete file goes with the next one.
    folder left
    damaged left1.tap 1
    worked left2.tap
    3: unpack left left1.tap --salvage
    name left.stage left/ABC001.1.PAYROLL.stage
    name left.salvaged left/ABC001.1.PAYROLL.salvaged
    name left.gaps left/ABC001.1.PAYROLL.gaps
    0: unpack left left2.tap
    missing left/ABC001.1.PAYROLL.stage left/ABC001.1.PAYROLL.salvaged left/ABC001.1.PAYROLL.gaps
    name left/ABC001.1.PAYROLL.stage left.stage
    name left/ABC001.1.PAYROLL.salvaged left.salvaged
    name left/ABC001.1.PAYROLL.gaps left.gaps
    0: unpack left left2.tap --list
    length left/ABC001.1.PAYROLL.salvaged 1620
    $ unpack left left2.tap
    > FILE ABC001 1 EXISTS left/ABC001.1.PAYROLL
    > TOTAL 0 complete 1 existing 0 incomplete 0 in conflict 0 not found 0 failed
    missing left/ABC001.1.PAYROLL.stage left/ABC001.1.PAYROLL.salvaged left/ABC001.1.PAYROLL.gaps
    length left/ABC001.1.PAYROLL 2025
    # What is no stage stays, and so does the stage of a file that is not complete.
    put left/ABC001.1.PAYROLL.stage mine
    0: unpack left left2.tap
    has left/ABC001.1.PAYROLL.stage mine
    remove left/ABC001.1.PAYROLL.stage
    name left/ABC001.1.PAYROLL.stage left.stage
    cut left/ABC001.1.PAYROLL 100
    3: unpack left left2.tap
    | FILE ABC001 1 DIFFERENT left/ABC001.1.PAYROLL
    length left/ABC001.1.PAYROLL 100
    3: stage left/ABC001.1.PAYROLL.stage
    # A stage without data is none.
    remove left/ABC001.1.PAYROLL
    remove left/ABC001.1.PAYROLL.stage
    put left/ABC001.1.PAYROLL.stage
    $ unpack left left2.tap
    > FILE ABC001 1 COMPLETE 25 left/ABC001.1.PAYROLL
    > TOTAL 1 complete 0 existing 0 incomplete 0 in conflict 0 not found 0 failed
    missing left/ABC001.1.PAYROLL.stage
";

#[test]
fn remains_are_removed(rt: HostRuntime) -> Result<(), Fail> {
    follow_in(&rt, &Tape, "removed_remains", LEFT)
}
