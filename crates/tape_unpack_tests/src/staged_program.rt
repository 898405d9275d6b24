//! Tests of sections that a stage alone has.
use crate::tape::Tape;
use std::test::Fail;
use tape_tool_calls::follow_in;

const STAGED: &str = "
    # A file of 25 records, two blocks of 400 bytes to a volume, which come one a day. The last run
    # has not seen the block counts of the sections that its stage had.
    fill a.bin 2000 A
    0: write . TWO 1500 A=a.bin --format F --record 80 --block 400 --form raw
    folder days
    3: unpack days TWO001.tap
    3: unpack days TWO002.tap
    | FILE TWO001 1 AWAITS 1 3 0 days/TWO001.1.A.stage
    0: unpack days TWO003.tap --manifest
    | FILE TWO001 1 COMPLETE 25 days/TWO001.1.A
    | FILE TWO001 1 STAGED 1 2
    at days/MANIFEST.jsonl 220 \"blocks_counted\":false,
    # A section that an image has in full is not one of them, even if the stage has it too.
    folder two
    3: unpack two TWO001.tap TWO002.tap
    0: unpack two TWO002.tap TWO003.tap --manifest
    | FILE TWO001 1 STAGED 1 1
    folder one
    3: unpack one TWO001.tap TWO002.tap
    0: unpack one TWO001.tap TWO003.tap
    | FILE TWO001 1 STAGED 2 2
    # With all volumes at hand there is nothing to say.
    folder all
    3: unpack all TWO001.tap
    0: unpack all TWO001.tap TWO002.tap TWO003.tap --manifest
    at all/MANIFEST.jsonl 220 \"blocks_counted\":true,
    # extract with --again says the same, and without it nothing more than before.
    3: extract TWO001 1 out.txt TWO001.tap TWO002.tap --stage again.stage
    3: extract TWO001 1 out.txt TWO001.tap TWO002.tap --stage plain.stage
    $ extract TWO001 1 out.txt TWO003.tap --again --stage again.stage
    > REEL 1 COMPLETE
    > COMPLETE 25
    > STAGED 1 2
    $ extract TWO001 1 plain.txt TWO003.tap --stage plain.stage
    > REEL 1 COMPLETE
    > COMPLETE 25
    # The stage of a complete file that was not written: no image shows its end.
    fill b.bin 80 B
    0: write . ONE 1500 B=b.bin --format F --record 80 --block 400 --form raw
    $ extract TWO001 1 more.txt ONE001.tap --again --stage again.stage
    > COMPLETE 25
    > STAGED 1 -
    $ extract TWO001 1 last.txt TWO003.tap --again --stage again.stage
    > COMPLETE 25
    > STAGED 1 2
";

#[test]
fn sections_of_a_stage_are_told(rt: HostRuntime) -> Result<(), Fail> {
    follow_in(&rt, &Tape, "staged", STAGED)
}
