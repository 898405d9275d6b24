//! Tests of `extract`: files, and exit statuses.
use crate::tape::Tape;
use std::test::Fail;
use tape_tool_calls::{follow, follow_in, holds, put};

const FILES: &str = "
    worked got.tap
    0: extract ABC001 1 got.txt got.tap
    length got.txt 2025
    0: extract --form raw ABC001 1 got.txt lost.tap got.tap lost.tap
    length got.txt 2000
    # While something is missing, an existing output is unchanged, and a new one is not created.
    front part.tap 2288
    put stays.txt kept
    3: extract ABC001 1 stays.txt part.tap
    has stays.txt kept
    3: extract ABC001 1 no.txt lost.tap
    missing no.txt
    3: extract ABC001 1 missing/no.txt part.tap
    worked made.tap
    file fault 2: extract ABC001 1 missing/no.txt made.tap
    # Files that a typing error would destroy are unchanged: the stage, the images under any name,
    # and an image whose name does not end in `.tap`.
    worked only.tap other.tap
    link linked.tap only.tap
    name named.tap only.tap
    2: extract ABC001 1 only.tap only.tap | extract ABC001 1 ./only.tap other.tap only.tap
    2: extract ABC001 1 linked.tap only.tap | extract ABC001 1 only.tap linked.tap
    2: extract ABC001 1 named.tap only.tap
    # This also holds if a list contains the name, and for the list itself.
    put only.names other.tap\\0Aonly.tap
    2: extract ABC001 1 linked.tap --files-from only.names
    2: extract ABC001 1 ./only.names other.tap --files-from only.names
    has only.names other.tap\\0Aonly.tap
    # OUT is forgotten.
    file fault 1: extract ABC001 1 only.tap other.tap | extract ABC001 1 linked.tap other.tap
    is_worked only.tap
    is_worked other.tap
    # A file that is named like an image but is not one, and one whose name only resembles that of
    # an image.
    put damaged.tap \\01
    put damaged.TAP \\01
    file fault 1: extract ABC001 1 damaged.tap only.tap | extract ABC001 1 damaged.TAP only.tap
    has damaged.TAP \\01
    put empty.tap
    0: extract ABC001 1 empty.tap only.tap
    length empty.tap 2025
    put tap \\01
    0: extract ABC001 1 tap only.tap
    length tap 2025
    # OUT is a directory, or a path without a file name: nothing is read.
    folder only_folder
    link only_link only_folder
    2: extract ABC001 1 only_folder only.tap | stage only.stage . => OUT is empty or a directory
    ?
    2: extract ABC001 1 only_link only.tap | extract ABC001 1 '' only.tap | stage only.stage ''
    ?
    2: salvage ABC001 1 none/ only.tap | merge '' only.tap other.tap => OUT is empty or a directory
    ?
    # The draft beside the output takes the output's name or is removed, and no other file is
    # affected.
    worked whole.tap
    front front.tap 2288
    # The draft of a run that was killed is removed.
    put .tape-1.part another
    put kept.txt kept
    # The permissions are kept, except set-user-ID.
    allow kept.txt 4640
    3: extract ABC001 1 kept.txt front.tap
    has kept.txt kept
    missing .tape-1.part
    0: extract ABC001 1 kept.txt front.tap whole.tap
    length kept.txt 2025
    allowed kept.txt 640
    missing .tape-1.part
    # If the output is a link, its target is written.
    put behind.txt kept
    link before.txt behind.txt
    0: extract ABC001 1 before.txt whole.tap
    length behind.txt 2025
    missing .tape-1.part
    # A device that accepts no bytes.
    file fault 4: extract ABC001 1 /dev/full whole.tap
    0: extract ABC001 1 /dev/null whole.tap
    # Invalid command lines of `extract`.
    2: extract | extract ABC001 1 out.txt | extract --form records ABC001 1 out.txt a.tap
";

#[test]
fn files(rt: HostRuntime) -> Result<(), Fail> {
    follow_in(&rt, &Tape, "files", FILES)
}

/// The first bytes of files that might be tapes: images, compressed files, archives and stages.
const KEPT: &[&[u8]] = &[
    b"\0\0\0\0",
    b"\xff\xff\xff\xff",
    b"\x1f\x8b\x08\0",
    b"\x1f\x9d\x90",
    b"BZh9",
    b"\xfd7zXZ\0",
    b"\x28\xb5\x2f\xfd",
    b"PK\x03\x04",
    b"7z\xbc\xaf\x27\x1c",
    b"LZIP\x01",
    b"\x04\x22\x4d\x18",
    b"Rar!\x1a\x07",
    b"\x51\0\0\0VOL1ABC001",
    b"\x50\0\0\0\xe5\xd6\xd3\xf1",
    b"O000000000000001TPCK2",
    b"C-----------------------------------------------\
      ------------------------------------------------\
      ------------------------------------------------TPCK2",
];

/// First bytes that differ from those of `KEPT` in one byte: such files are overwritten.
const PLAIN: &[&[u8]] = &[
    b"\xff\xff\xff",
    b"\x1f",
    b"\x1f\x8c\x08\0",
    b"BZ",
    b"B\xfd7zXZ",
    b"PK\x05\x06",
    b"7z\xbc\xaf\x27\x1d",
    b"\x51\0\0\0VOL0ABC001",
    b"O00000000000001TPCK2",
];

#[test]
fn what_may_keep_a_tape_is_never_the_output(rt: HostRuntime) -> Result<(), Fail> {
    follow_in(&rt, &Tape, "held", "worked held.tap")?;
    for bytes in KEPT {
        put(&rt, "kept.bin", *bytes)?;
        follow(
            &rt,
            &Tape,
            "file fault 1: extract ABC001 1 kept.bin held.tap",
        )?;
        assert!(rt; holds(&rt, "kept.bin", *bytes)?);
    }
    for bytes in PLAIN {
        put(&rt, "kept.bin", *bytes)?;
        follow(&rt, &Tape, "0: extract ABC001 1 kept.bin held.tap")?;
        follow(&rt, &Tape, "length kept.bin 2025")?;
    }
    Ok(())
}

const AGAIN: &str = "
    # Two copies that complete each other, each named once, and one with a wrong count before a good
    # one.
    damaged first_bad.tap 1
    damaged second_bad.tap 2
    3: extract ABC001 1 out.txt first_bad.tap second_bad.tap
    3: extract ABC001 1 out.txt second_bad.tap --again
    missing out.txt .tape-1.part
    0: extract ABC001 1 out.txt first_bad.tap second_bad.tap --again
    length out.txt 2025
    at out.txt 1944 0025 \\20
    0: extract ABC001 1 out.txt first_bad.tap second_bad.tap --form raw --again --stage a.stage
    length out.txt 2000
    length a.stage 2381
    # The data of a copy that lost a block is discarded even without a stage. No copy is complete,
    # so the one that is named last is read first.
    damaged late.tap 3
    damaged early.tap 1
    lost_damaged miscounted.tap 9
    3: extract ABC001 1 counted.txt miscounted.tap late.tap early.tap
    3: extract ABC001 1 counted.txt miscounted.tap --again
    missing counted.txt
    $ extract ABC001 1 counted.txt late.tap early.tap miscounted.tap --again
    > REEL 1 BLOCK COUNT 5 4
    > REEL 2 BAD ITEM
    > REEL 3 COMPLETE
    > COMPLETE 25
    length counted.txt 2025
    at counted.txt 405 0006 \\20
    # A complete copy is read first.
    damaged counted.tap 9
    $ extract ABC001 1 counted.txt miscounted.tap counted.tap --again
    > REEL 1 COMPLETE
    > COMPLETE 25
    # Labels of different files with one number, and complete copies of a section that differ:
    # nothing is read, and an existing output is unchanged.
    folder one other changed sub
    fill one.bin 130 1
    fill other.bin 130 2
    0: write one MIX 100000 ONE=one.bin | write other MIX 100000 OTHER=one.bin
    0: write changed MIX 100000 ONE=other.bin
    put mixed.txt kept
    set fault 1$ extract MIX001 1 mixed.txt one/MIX001.tap other/MIX001.tap --again
    set fault 1$ extract MIX001 1 mixed.txt one/MIX001.tap changed/MIX001.tap --again
    set fault 1$ extract MIX001 1 mixed.txt one/MIX001.tap other/MIX001.tap --again --stage a.stage
    # The same if one of the names is a directory, which cannot be surveyed.
    set fault 1$ extract MIX001 1 mixed.txt one/MIX001.tap changed/MIX001.tap sub --again
    has mixed.txt kept
    length a.stage 2381
    # A stage of a truncated copy that lost a block is not continued from copies that have other data
    # there, one of them with its first block unreadable. It is unchanged.
    lost_damaged lost_block.tap 3
    cut lost_block.tap 1492
    damaged no_first.tap 0
    3: extract ABC001 1 differs.txt lost_block.tap --again --stage differs.stage
    length differs.stage 1106
    3$ extract ABC001 1 differs.txt counted.tap no_first.tap --again --stage differs.stage
    > REEL 1 SECTION DIFFERS
    > REEL 2 SECTION DIFFERS
    > AWAITS 1 1 2
    missing differs.txt
    length differs.stage 1106
    # A copy with the same data continues it.
    3: extract ABC001 1 differs.txt lost_block.tap --again --stage differs.stage
    | REEL 1 BAD ITEM
    # A file is not affected by those of other sets, or by an image that is named twice.
    0: extract MIX001 1 mixed.txt one/MIX001.tap counted.tap one/MIX001.tap --again
";

#[test]
fn images_are_read_again(rt: HostRuntime) -> Result<(), Fail> {
    follow_in(&rt, &Tape, "again", AGAIN)
}

const WARNED: &str = "
    # Without --again an image with other data is read all the same, and a warning names it. The
    # copies are in blocks of 400; `whole.tap` has all five of them.
    lost_damaged other.tap 3
    damaged whole.tap 9
    3$ extract ABC001 1 staged.txt other.tap --stage warned.stage
    > REEL 1 BAD ITEM
    > AWAITS 1 1 2
    0: extract ABC001 1 staged.txt whole.tap --stage warned.stage => tape: warning: image 1 differs
    | REEL 1 COMPLETE
    length staged.txt 2025
    0: extract ABC001 1 warned.txt other.tap whole.tap => tape: warning: image 2 differs
    | REEL 2 COMPLETE
    # Over copies with the same data, damaged or not, there is no warning.
    damaged second.tap 1
    damaged third.tap 2
    $ extract ABC001 1 copies.txt second.tap third.tap whole.tap
    > REEL 1 BAD ITEM
    > REEL 2 BAD ITEM
    > REEL 3 COMPLETE
    > COMPLETE 25
    3: extract ABC001 1 saved.txt second.tap --stage copies.stage
    $ extract ABC001 1 saved.txt third.tap whole.tap --stage copies.stage
    > REEL 1 BAD ITEM
    > REEL 2 COMPLETE
    > COMPLETE 25
";

#[test]
fn images_that_differ_are_named(rt: HostRuntime) -> Result<(), Fail> {
    follow_in(&rt, &Tape, "warned", WARNED)
}
