//! Tests of lines of JSON: each command that prints them, and odd names.
use crate::tape::Tape;
use std::test::Fail;
use tape_tool_calls::follow_in;

/// The example image has twelve items; FORMATS.md lists their offsets.
const ITEMS: &str = "
    worked \"odd.tap
    $ survey --json \"odd.tap
    > {\"row\":\"IMAGE\",\"name\":\"\\\"odd.tap\",\"state\":\"WHOLE\",\"volume\":\"ABC001\",\
        \"set\":\"ABC001\",\"system\":null,\"items\":12,\"files\":1,\"bad\":0,\
        \"end\":\"MARKED\",\"owner\":null,\"words\":\"volume ABC001, 1 section\"}
    > {\"row\":\"SECTION\",\"set\":\"ABC001\",\"file\":1,\"section\":1,\"volume\":\"ABC001\",\
        \"blocks\":3,\"state\":\"GOOD\",\"eof\":true}
    > {\"row\":\"FILE\",\"set\":\"ABC001\",\"file\":1,\"identifier\":\"PAYROLL\",\
        \"created\":null,\"state\":\"COMPLETE\",\"section\":null,\"volume\":null,\
        \"conflict\":false,\"sections\":null,\"format\":\"F\",\"block\":800,\"record\":80}
    $ list --json \"odd.tap
    > {\"offset\":0,\"size\":88,\"item\":1,\"row\":\"VOL1\",\"volume\":\"ABC001\"}
    > {\"offset\":88,\"size\":88,\"item\":2,\"row\":\"HDR1\",\"identifier\":\"PAYROLL\",\
        \"set\":\"ABC001\",\"section\":1,\"file\":1}
    > {\"offset\":176,\"size\":88,\"item\":3,\"row\":\"HDR2\",\"format\":\"F\",\"block\":800,\
        \"record\":80,\"prefix\":0}
    > {\"offset\":264,\"size\":4,\"item\":4,\"row\":\"MARK\"}
    > {\"offset\":268,\"size\":808,\"item\":5,\"row\":\"BLOCK\",\"length\":800}
    > {\"offset\":1076,\"size\":808,\"item\":6,\"row\":\"BLOCK\",\"length\":800}
    > {\"offset\":1884,\"size\":408,\"item\":7,\"row\":\"BLOCK\",\"length\":400}
    > {\"offset\":2292,\"size\":4,\"item\":8,\"row\":\"MARK\"}
    > {\"offset\":2296,\"size\":88,\"item\":9,\"row\":\"EOF1\",\"identifier\":\"PAYROLL\",\
        \"set\":\"ABC001\",\"section\":1,\"file\":1,\"blocks\":3}
    > {\"offset\":2384,\"size\":88,\"item\":10,\"row\":\"EOF2\",\"format\":\"F\",\
        \"block\":800,\"record\":80,\"prefix\":0}
    > {\"offset\":2472,\"size\":4,\"item\":11,\"row\":\"MARK\"}
    > {\"offset\":2476,\"size\":4,\"item\":12,\"row\":\"MARK\"}
    > {\"offset\":2480,\"size\":4,\"item\":null,\"row\":\"END\",\"end\":\"MARKED\"}
    # The lines before a fault of the image are printed.
    put json_cut.tap \\00\\00\\00\\00\\08\\00\\00\\00abcd
    image fault 1 at 4$ list --json json_cut.tap
    > {\"offset\":0,\"size\":4,\"item\":1,\"row\":\"MARK\"}
";

#[test]
fn items(rt: HostRuntime) -> Result<(), Fail> {
    follow_in(&rt, &Tape, "json_items", ITEMS)
}

/// Names with a backslash, a control character, DEL, an invisible character, and others.
const NAMES: &str = "
    worked a\\u0041\\.tap b\u{1}\u{7f}\u{200b}ä字😀.tap
    0: survey --json a\\u0041\\.tap b\u{1}\u{7f}\u{200b}ä字😀.tap
    | \"name\":\"a\\\\u0041\\\\.tap\",\"state\":\"WHOLE\"
    | \"name\":\"b\\u0001\u{7f}\u{200b}ä字😀.tap\",\"state\":\"WHOLE\"
    | \"copies\":2,\"name\":\"a\\\\u0041\\\\.tap\",\"other\":null,\"result\":\"AGREE\"}
    $ compare --json a\\u0041\\.tap b\u{1}\u{7f}\u{200b}ä字😀.tap
    > {\"row\":\"IMAGE\",\"image\":1,\"items\":12,\"bad\":0,\"end\":\"MARKED\",\
        \"name\":\"a\\\\u0041\\\\.tap\"}
    > {\"row\":\"IMAGE\",\"image\":2,\"items\":12,\"bad\":0,\"end\":\"MARKED\",\
        \"name\":\"b\\u0001\u{7f}\u{200b}ä字😀.tap\"}
    > {\"row\":\"MERGED\",\"items\":12,\"bad\":0,\"alone\":0,\"end\":\"MARKED\",\"count\":null}
    # An item that differs: a block, and a mark after which the image ends in the next item.
    put json_one.tap \\02\\00\\00\\00ab\\02\\00\\00\\00
    put json_two.tap \\00\\00\\00\\00\\08\\00\\00\\00
    3: compare --json json_one.tap json_two.tap
    | {\"row\":\"DIFFER\",\"item\":1}
    | {\"row\":\"HAS\",\"image\":1,\"reading\":\"A\",\"kind\":\"BLOCK\",\"length\":2,\"offset\":0,\
        \"name\":\"json_one.tap\"}
    | {\"row\":\"HAS\",\"image\":2,\"reading\":\"B\",\"kind\":\"MARK\",\"length\":null,\
        \"offset\":0,\
        \"name\":\"json_two.tap\"}
    # An image that ends inside a block.
    3: compare --json json_two.tap json_two.tap
    | {\"row\":\"IMAGE\",\"image\":1,\"items\":1,\"bad\":0,\"end\":\"FAULT 1 4\",\
        \"name\":\"json_two.tap\"}
    # An image that does not exist has a row with its name.
    3$ survey --json \"lost
    > {\"row\":\"IMAGE\",\"name\":\"\\\"lost\",\"state\":\"NOT OPENED\",\"volume\":null,\
        \"set\":null,\"system\":null,\"items\":null,\"files\":null,\"bad\":null,\"end\":null,\
        \"owner\":null,\"words\":\"not opened\"}
    2: survey --tsv --json a.tap => --tsv and --json exclude each other
";

#[test]
fn names(rt: HostRuntime) -> Result<(), Fail> {
    follow_in(&rt, &Tape, "json_names", NAMES)
}
