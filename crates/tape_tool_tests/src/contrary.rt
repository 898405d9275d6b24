//! Tests of `extract --again` on copies that contradict each other, or their own trailer label.
use crate::tape::Tape;
use std::test::Fail;
use tape_tool_calls::follow_in;

const CONTRARY: &str = "
    # A copy with an unreadable block whose trailer label counts a block more is not used.
    damaged no_last.tap 4
    lost_damaged doubtful.tap 3
    3: extract ABC001 1 doubtful.txt doubtful.tap no_last.tap --again
    | REEL 2 SECTION DIFFERS
    | AWAITS 1 1 4
    3: extract ABC001 1 doubtful.txt no_last.tap doubtful.tap --again
    | REEL 3 SECTION DIFFERS
    | AWAITS 1 1 4
    missing doubtful.txt
    # Two copies complete each other, but a block that both have differs: nothing is recovered.
    folder monday sunday
    fill monday.bin 2000 1
    fill sunday.bin 2000 2
    0: write monday DAY 100000 A=monday.bin --format F --record 80 --block 400 --form raw
    0: write sunday DAY 100000 A=sunday.bin --format F --record 80 --block 400 --form raw
    spoil monday/DAY001.tap 5
    spoil sunday/DAY001.tap 6
    set fault 1$ extract DAY001 1 day.txt monday/DAY001.tap sunday/DAY001.tap --again
    set fault 1$ extract DAY001 1 day.txt sunday/DAY001.tap monday/DAY001.tap --again
    missing day.txt .tape-1.part
";

#[test]
fn contrary_copies_are_not_read(rt: HostRuntime) -> Result<(), Fail> {
    follow_in(&rt, &Tape, "contrary", CONTRARY)
}
