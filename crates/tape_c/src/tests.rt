//! Each call on a small image, and buffers that are too short.
use super::*;
use std::test::Fail;

/// A block of two bytes, a bad block of one byte after a gap, a tape mark, the end-of-medium
/// marker, and two bytes that are not part of the tape.
const IMAGE: [u8; 34] = [
    2, 0, 0, 0, 65, 66, 2, 0, 0, 0, 0xFE, 0xFF, 0xFF, 0xFF, 1, 0, 0, 0x80, 67, 0, 1, 0, 0, 0x80, 0,
    0, 0, 0, 0xFF, 0xFF, 0xFF, 0xFF, 9, 9,
];

const EMPTY: Entry = Entry {
    place: 99,
    length: 99,
    kind: 99,
};

#[test]
fn items_are_given(rt: HostRuntime) -> Result<(), Fail> {
    for (room, state, place) in [(4, 0, 28), (3, 0, 28), (2, 7, 24), (0, 7, 0)] {
        let mut out = [EMPTY; 4];
        let end = tape_items(rt.alloc(), &IMAGE, &mut out[..room]);
        let given = room.min(3);
        assert!(rt; end.count == given && end.state == state && end.place == place);
        for (number, entry) in [(0, (0, 2, 1)), (1, (14, 1, 2)), (2, (24, 0, 3))] {
            let want = if number < given { entry } else { (99, 99, 99) };
            let is = &out[number];
            assert!(rt; (is.place, is.length, is.kind) == want);
        }
    }
    Ok(())
}

#[test]
fn a_fault_is_told(rt: HostRuntime) -> Result<(), Fail> {
    let mut out = [EMPTY; 4];
    let end = tape_items(rt.alloc(), &IMAGE[..20], &mut out);
    assert!(rt; end.count == 1 && end.state == 1 && end.place == 14);
    let mut text = [0; 64];
    let end = tape_list(rt.alloc(), &IMAGE[..20], &mut text);
    assert!(rt; end.count == end.needed && end.state == 1 && end.place == 14);
    Ok(())
}

#[test]
fn texts_are_given(rt: HostRuntime) -> Result<(), Fail> {
    let mut text = [0; 64];
    let all = tape_list(rt.alloc(), &IMAGE, &mut text);
    assert!(rt; all.state == 0 && all.count == all.needed);
    let mut short = [0; 10];
    let cut = tape_list(rt.alloc(), &IMAGE, &mut short);
    assert!(rt; cut.state == 7 && cut.count == 10 && cut.needed == all.count);
    assert!(rt; text.starts_with(&short));
    let images = [Image { bytes: &IMAGE }, Image { bytes: &[] }];
    let mut rows = [0; 1024];
    let survey = tape_survey(rt.alloc(), &images, &mut rows);
    assert!(rt; survey.state == 8 && survey.count == survey.needed);
    assert!(rt; rows.starts_with(b"IMAGE\t1\t"));
    assert!(rt; tape_survey(rt.alloc(), &images, &mut []).needed == survey.count);
    Ok(())
}

#[test]
fn labels_are_read(_rt: HostRuntime) -> Result<(), Fail> {
    let rt = _rt;
    let trail = b"EOV1BIRDS            ABC00100020003000100 00000 00000 000042                    ";
    let label = tape_label(trail);
    assert!(rt; label.kind == 6 && label.fault == 0 && label.blocks == 42);
    assert!(rt; label.section == 2 && label.sequence == 3);
    let second = tape_label(
        b"HDR2S0204800100                                   07                            ",
    );
    assert!(rt; second.kind == 3 && second.format == 83 && second.offset == 7);
    assert!(rt; second.block_length == 2048 && second.record_length == 100);
    let other = tape_label(b"x");
    assert!(rt; other.kind == 0 && other.fault == 1);
    Ok(())
}
