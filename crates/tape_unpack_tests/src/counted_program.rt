//! Tests of the form `counted` in the commands that write records.
use crate::tape::Tape;
use std::test::Fail;
use tape_tool_calls::follow_in;

const COUNTED: &str = "
    # Each record of 80 bytes follows its length, of which the last byte is `P`.
    worked whole.tap
    0: extract --form counted ABC001 1 once.out whole.tap
    length once.out 2100
    at once.out 0 \\00\\00\\00P0001 \\20
    at once.out 2016 \\00\\00\\00P0025 \\20
    0: extract --form counted --again ABC001 1 again.out whole.tap
    length again.out 2100
    at again.out 2016 \\00\\00\\00P0025 \\20
    0: salvage --form counted ABC001 1 salvaged.out whole.tap
    length salvaged.out 2100
    at salvaged.out 2016 \\00\\00\\00P0025 \\20
    # Those recovered so far are in the same form.
    front front.tap 2288
    3: extract ABC001 1 no.out front.tap --stage days.stage
    3: stage --form counted days.stage staged.out
    length staged.out 1680
    at staged.out 1596 \\00\\00\\00P0020 \\20
    # An existing file is compared in the form of its record, or else in the one that is asked for.
    folder files other
    0: unpack --form counted --manifest files whole.tap
    length files/ABC001.1.PAYROLL 2100
    at files/ABC001.1.PAYROLL 2016 \\00\\00\\00P0025 \\20
    0: unpack --verify files whole.tap
    | FILE ABC001 1 EXISTS files/ABC001.1.PAYROLL
    0: unpack --form counted other whole.tap | unpack --form counted other whole.tap
    3: unpack other whole.tap
    | DIFFERENT
    # A record that is empty, and one on two volumes: 812 is 3 times 256 and 44, which is a comma.
    put lines.txt A\\0A\\0AB\\0A
    0: write . CNT 100000 LINES=lines.txt --format D
    0: extract --form counted CNT001 1 lines.out CNT001.tap
    has lines.out \\00\\00\\00\\01A\\00\\00\\00\\00\\00\\00\\00\\01B
    fill long.bin 812 A
    0: write . LNG 1200 LONG=long.bin --format S --block 100 --form raw
    0: extract --form counted LNG001 1 long.out LNG001.tap LNG002.tap
    length long.out 816
    at long.out 0 \\00\\00\\03,A
    # The form is for outputs only.
    2: write . CNT 100000 A=lines.txt --form counted
";

#[test]
fn records_follow_their_lengths(rt: HostRuntime) -> Result<(), Fail> {
    follow_in(&rt, &Tape, "counted", COUNTED)
}
