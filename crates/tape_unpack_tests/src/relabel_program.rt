//! Tests of `--join` and `--renumber`.
use crate::tape::Tape;
use std::test::Fail;
use tape_tool_calls::follow_in;

const JOINED: &str = "
    first first.tap
    own own.tap
    folder out
    # The second volume has its own identifier as that of its set.
    3: unpack --list out first.tap own.tap
    | LACKS
    $ unpack out first.tap own.tap --join ABC001=ABC002
    > FILE ABC001 1 COMPLETE 50 out/ABC001.1.PAYROLL
    > TOTAL 1 complete 0 existing 0 incomplete 0 in conflict 0 not found 0 failed
    !   image 2: set ABC002 is read as ABC001
    length out/ABC001.1.PAYROLL 4050
    at out/ABC001.1.PAYROLL 2025 0001 \\20
    at out/ABC001.1.PAYROLL 3969 0025 \\20
    # The order of the images does not matter, since the sections have their numbers.
    $ salvage ABC001 1 salvaged.txt own.tap first.tap --join ABC001=ABC002
    > SECTION 1 2 3
    > SECTION 2 1 3
    > COMPLETE 50
    !   image 1: set ABC002 is read as ABC001
    length salvaged.txt 4050
    0: extract --again ABC001 1 again.txt first.tap own.tap --join ABC001=ABC002
    length again.txt 4050
    0: survey first.tap own.tap --join ABC001=ABC002 --tsv
    | FILE\tABC001\t1\tPAYROLL
    # An identifier that no label has is named, and changes nothing.
    3: unpack --list out first.tap own.tap --join OTHER1=OTHER2
    ~   no label has the set identifier OTHER1
    ~   no label has the set identifier OTHER2
    # Each of two pairs is read.
    0: unpack --list out first.tap own.tap --join NEW=ABC001 --join NEW=ABC002
    | FILE NEW    1 READY out/NEW___.1.PAYROLL
    ~   no label has the set identifier NEW
    ~   image 1: set ABC001 is read as NEW
    ~   image 2: set ABC002 is read as NEW
    2: unpack out first.tap --join ABC001 | unpack out first.tap --join ABC001=ABC001
    2: unpack out first.tap --join ABC001= | unpack out first.tap --join =ABC002
    2: unpack out first.tap --join ABC001=ABC002=ABC003 | unpack out first.tap --join ABC0001=A
    2: unpack out first.tap --join A=B --join C=B | unpack out first.tap --join A=B --join B=C
    2: unpack out first.tap --join A=B --join C=A
    2: extract ABC001 1 once.txt first.tap own.tap --join ABC001=ABC002
    2: survey - --join ABC001=ABC002
";

#[test]
fn sets_are_joined(rt: HostRuntime) -> Result<(), Fail> {
    follow_in(&rt, &Tape, "joined", JOINED)
}

const NUMBERED: &str = "
    first first.tap
    again again.tap
    second second.tap
    twins twins.tap
    folder out twin list
    # The second volume has section number 1.
    3: unpack --list out first.tap again.tap
    | CONFLICT
    $ unpack out first.tap again.tap --renumber
    > FILE ABC001 1 COMPLETE 50 out/ABC001.1.PAYROLL
    > TOTAL 1 complete 0 existing 0 incomplete 0 in conflict 0 not found 0 failed
    !   image 2: its first section is section 2 of file 1
    length out/ABC001.1.PAYROLL 4050
    $ salvage ABC001 1 salvaged.txt first.tap again.tap --renumber
    > SECTION 1 1 3
    > SECTION 2 2 3
    > COMPLETE 50
    !   image 2: its first section is section 2 of file 1
    length salvaged.txt 4050
    # A copy of a volume is no further volume.
    0: unpack --list list first.tap first.tap again.tap again.tap --renumber
    | FILE ABC001 1 READY list/ABC001.1.PAYROLL
    # In the other order the file does not continue on an image.
    3: unpack --list out again.tap first.tap --renumber
    ~   --renumber changes no number
    # Both files have sequence number 1.
    3: unpack --list out twins.tap
    | CONFLICT
    $ unpack twin twins.tap --renumber
    > FILE ABC001 1 COMPLETE 25 twin/ABC001.1.PAYROLL
    > FILE ABC001 2 COMPLETE 25 twin/ABC001.2.LEDGER
    > TOTAL 2 complete 0 existing 0 incomplete 0 in conflict 0 not found 0 failed
    !   image 1: files are numbered by their order
    length twin/ABC001.2.LEDGER 2025
    0: salvage ABC001 2 ledger.txt twins.tap --renumber
    length ledger.txt 2025
    # After an unreadable label, here EOF2, it is not certain which number a file has.
    spoil twins.tap 9
    3: unpack --list out twins.tap --renumber
    ~   image 1: not read from its header label 2 on: numbers are not certain
    # Sets with right numbers stay as they are, in any order.
    $ unpack --list list second.tap first.tap --renumber
    > FILE ABC001 1 READY list/ABC001.1.PAYROLL
    > TOTAL 1 complete 0 existing 0 incomplete 0 in conflict 0 not found 0 failed
    !   --renumber changes no number
";

#[test]
fn files_and_sections_are_numbered(rt: HostRuntime) -> Result<(), Fail> {
    follow_in(&rt, &Tape, "numbered", NUMBERED)
}
