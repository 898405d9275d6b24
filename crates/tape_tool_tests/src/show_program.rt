//! Tests of `show`: labels by their fields, blocks as rows, and damaged images.
use crate::tape::Tape;
use std::test::Fail;
use tape_tool_calls::follow_in;

/// Runs of `show`. The example image has its labels at 0, 88 and 176, a mark at 264, and its first
/// block of 800 bytes at 268.
const ITEMS: &str = "
    worked show.tap
    damaged show_bad.tap 1
    $ show show.tap 1
    > Item 1: label, 80 bytes at 4
    >    1-4   label identifier        \"VOL1\"
    >    5-10  volume identifier       \"ABC001\"
    >   11     accessibility           \" \"
    >   12-24  reserved                \"             \"
    >   25-37  implementation          \"             \"
    >   38-51  owner                   \"              \"
    >   52-79  reserved                \"                            \"
    >   80     label standard version  \"4\"
    $ show show.tap 2 4
    > Item 2: label, 80 bytes at 92
    >    1-4   label identifier        \"HDR1\"
    >    5-21  file identifier         \"PAYROLL          \"
    >   22-27  file set identifier     \"ABC001\"
    >   28-31  section number          \"0001\"
    >   32-35  sequence number         \"0001\"
    >   36-39  generation number       \"0001\"
    >   40-41  generation version      \"00\"
    >   42-47  creation date           \" 00000\"
    >   48-53  expiration date         \" 00000\"
    >   54     accessibility           \" \"
    >   55-60  block count             \"000000\"
    >   61-73  implementation          \"             \"
    >   74-80  reserved                \"       \"
    > Item 3: label, 80 bytes at 180
    >    1-4   label identifier        \"HDR2\"
    >    5     record format           \"F\"
    >    6-10  block length            \"00800\"
    >   11-15  record length           \"00080\"
    >   16-50  for the system          \"                                   \"
    >   51-52  buffer offset           \"00\"
    >   53-80  reserved                \"                            \"
    > Item 4: tape mark
    # The second block of 400 bytes is unreadable, but the image has its bytes.
    0: show show_bad.tap 6
    | Item 6: unreadable block, 400 bytes at 680
    |   00000000  30 30 30 36 20 20 20 20 20 20 20 20 20 20 20 20  0006
    |   00000384  20 20 20 20 20 20 20 20 20 20 20 20 20 20 20 20
    # What an image has of the block in which it ends.
    put show_cut.tap \\08\\00\\00\\00abcd
    image fault 1 at 0$ show show_cut.tap 1 9
    > Item 1: block, cut off, 8 bytes at 4
    >   00000000  61 62 63 64                                      abcd
    # A gap before an unreadable block, an odd length, and lengths that differ.
    put show_odd.tap \\FE\\FF\\FF\\FF\\03\\00\\00\\80AB\\00\\00\\03\\00\\00\\80\
        \\02\\00\\00\\00ab\\03\\00\\00\\00
    image fault 2 at 16$ show show_odd.tap 1 2
    > Item 1: unreadable block, 3 bytes at 8
    >   00000000  41 42 00                                         AB.
    > Item 2: block, its lengths differ, 2 bytes at 20
    >   00000000  61 62                                            ab
    # The bytes alone. A mark has none.
    put show_two.tap \\02\\00\\00\\00ab\\02\\00\\00\\00\\00\\00\\00\\00\
        \\04\\00\\00\\00cdef\\04\\00\\00\\00
    0: show show_two.tap 1 3 --raw
    | abcdef
    # Text in EBCDIC.
    put show_e.tap \\04\\00\\00\\00\\C1\\C2\\F1\\00\\04\\00\\00\\00
    $ show show_e.tap 1 --ebcdic
    > Item 1: block, 4 bytes at 4
    >   00000000  C1 C2 F1 00                                      AB1.
    # A label in EBCDIC, with a byte that cannot be printed.
    put show_l.tap \\50\\00\\00\\00\\E5\\D6\\D3\\F1\\C5\\F0\\F0\\F0\\F0\\F1\\00\\40\\40\\40\\40\
        \\40\\40\\40\\40\\40\\40\\40\\40\\40\\40\\40\\40\\40\\40\\40\\40\\40\\40\\40\\40\\40\\40\
        \\40\\40\\40\\40\\40\\40\\40\\40\\40\\40\\40\\40\\40\\40\\40\\40\\40\\40\\40\\40\\40\\40\
        \\40\\40\\40\\40\\40\\40\\40\\40\\40\\40\\40\\40\\40\\40\\40\\40\\40\\40\\40\\40\\40\\50\
        \\00\\00\\00
    0: show show_l.tap 1
    | Item 1: label in EBCDIC, 80 bytes at 4
    |    1-4   label identifier        \"VOL1\"
    |    5-10  volume identifier       \"E00001\"
    |   11     accessibility           \"\\x00\"
    |   80     label standard version  \" \"
    # A label with padding, and one that is followed by other bytes.
    put show_p.tap T\\00\\00\\00VOL1P00001...................................\
        ...................................\\00\\00\\00\\00T\\00\\00\\00\
        R\\00\\00\\00VOL1P00001...................................\
        ...................................\\00\\01R\\00\\00\\00
    0: show show_p.tap 1 2
    | Item 1: label, 84 bytes at 4
    |    1-4   label identifier        \"VOL1\"
    |   81-84  padding                 \"\\x00\\x00\\x00\\x00\"
    | Item 2: block, 82 bytes at 96
    |   00000080  00 01                                            ..
    # Items up to the end, and none.
    $ show show_two.tap 3 9
    > Item 3: block, 4 bytes at 18
    >   00000000  63 64 65 66                                      cdef
    2: show show_two.tap 4 => the image ends before item N
    2: show show_two.tap 0 | show show_two.tap x | show show_two.tap 2 1 | show show_two.tap
    2: show show_two.tap 1 2 3 => M must be one number from N
    file fault 2: show lost.tap 1
    file fault 4: show show_two.tap 1
    * full
";

#[test]
fn items_are_shown(rt: HostRuntime) -> Result<(), Fail> {
    follow_in(&rt, &Tape, "items", ITEMS)
}
