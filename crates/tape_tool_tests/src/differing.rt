//! Tests of what is explained of two images that differ.
use crate::tape::Tape;
use std::test::Fail;
use tape_tool_calls::follow_in;

/// Comparisons of two images, and what is printed on standard error about the first difference.
const DIFFERING: &str = "
    first first.tap
    second second.tap
    3: compare first.tap second.tap --explain
    !   Item 1, a label, differs in
    !     volume identifier: \"ABC001\" and \"ABC002\"
    !   Later items differ too, even if one of the images lost an item here.
    !   'tape show IMAGE 1' shows this item.
    worked whole.tap lost.tap
    omit lost.tap 5
    3: compare whole.tap lost.tap --explain
    !   The blocks of item 6 have 800 and 400 bytes.
    !   From here on the second image agrees with the first one item later: it may have
    !   lost this item, or the first image has an item twice.
    !   'tape show IMAGE 6' shows this item.
    3: merge merged.tap lost.tap whole.tap --explain
    !   The blocks of item 6 have 400 and 800 bytes.
    !   From here on the first image agrees with the second one item later: it may have
    !   lost an item, or the second image has this item twice.
    !   'tape show IMAGE 6' shows this item.
    missing merged.tap
    # An unreadable item may be any other.
    spoil lost.tap 7
    3: compare whole.tap lost.tap --explain
    !   The blocks of item 6 have 800 and 400 bytes.
    !   From here on the second image agrees with the first one item later: it may have
    !   lost this item, or the first image has an item twice.
    !   'tape show IMAGE 6' shows this item.
    # The second image has a tape mark instead of the last block, which it lost too.
    omit whole.tap 6
    omit whole.tap 5
    3: compare lost.tap whole.tap --explain
    !   Item 6 is of another kind in each image.
    !   From here on the second image agrees with the first one item later: it may have
    !   lost this item, or the first image has an item twice.
    !   'tape show IMAGE 6' shows this item.
    folder one
    folder other
    put one.bin AAAAAAAAAAAAAAAAAABBBBBBBBBBBBBBBBBBCCCCCCCCCCCCCCCCCC
    put other.bin AAAAAAAAAAAAAAAAAABBBBBBBBBXBBBBXBBBCCCCCCCCCCCCCCCCCC
    0: write one DEF 10000 A=one.bin --format F --block 18 --record 18 --form raw
    0: write other DEF 10000 A=other.bin --format F --block 18 --record 18 --form raw
    3: compare one/DEF001.tap other/DEF001.tap --explain
    !   Bytes of item 6 that differ: 2 of 18. The first is byte 10,
    !   in hexadecimal 42 and 58.
    !   All later items that both images have agree.
    !   'tape show IMAGE 6' shows this item.
    # No item follows the one that differs.
    put last.tap \\02\\00\\00\\00AA\\02\\00\\00\\00
    put other.tap \\02\\00\\00\\00BB\\02\\00\\00\\00
    3: compare last.tap other.tap --explain
    !   Bytes of item 1 that differ: 2 of 2. The first is byte 1,
    !   in hexadecimal 41 and 42.
    !   No later item is on both images.
    !   'tape show IMAGE 1' shows this item.
    # EOF2, before two marks, may be lost or may have been replaced by a third mark.
    worked marks.tap third.tap
    omit third.tap 9
    3: compare marks.tap third.tap --explain
    !   Item 10 is of another kind in each image.
    !   All later items that both images have agree, also if the second image lost this
    !   item, or the first one has it twice.
    !   'tape show IMAGE 10' shows this item.
    3: compare third.tap marks.tap --explain
    !   Item 10 is of another kind in each image.
    !   All later items that both images have agree, also if the first image lost an
    !   item here, or the second one has this item twice.
    !   'tape show IMAGE 10' shows this item.
    # No item differs: one image ends early, and an item of the other is unreadable.
    front early.tap 176
    worked spoiled.tap
    spoil spoiled.tap 2
    3: compare early.tap spoiled.tap --explain
    !   The images differ (after DIFFER, 'tape show IMAGE N' shows the item), or the
    !   image that they form has unreadable items, wrong block counts (COUNT) or no
    !   end (CUT): the lines say which.
";

#[test]
fn differences_are_explained(rt: HostRuntime) -> Result<(), Fail> {
    follow_in(&rt, &Tape, "differing", DIFFERING)
}
