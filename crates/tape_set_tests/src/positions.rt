//! Tests of positions: their order, and the positions after them.

ghost use Rattle.std.specs.Prelude.{◌<◌};
ghost use Rattle.tape_set.specs.Position.{block_of, sect_of};

use std::cmp::Ordering;
use std::process::Abort;
use tape_set::{Position, Want, position_cmp};

#[test]
fn positions_compare(rt: HostRuntime) {
    let at = Position::awaiting;
    let end = Position::Finished;
    for (a, b, want) in [
        (at(1, 0), at(1, 0), Ordering::Equal),
        (at(1, 0), at(1, 1), Ordering::Less),
        (at(1, 999999), at(2, 0), Ordering::Less),
        (at(2, 0), at(1, 4294967295), Ordering::Greater),
        (at(2, 7), at(2, 6), Ordering::Greater),
        (at(2, 7), at(10, 7), Ordering::Less),
        (at(2, 7), at(2, 7).at_part(1), Ordering::Less),
        (at(2, 7).at_part(9), at(2, 7).at_part(10), Ordering::Less),
        (at(2, 7).at_part(4294967295), at(2, 8), Ordering::Less),
        (at(2, 7).at_part(4294967295), at(3, 0), Ordering::Less),
        (at(2, 7).at_part(3), at(1, 8).at_part(4), Ordering::Greater),
        (at(2, 7).at_part(3), at(2, 7).at_part(3), Ordering::Equal),
        (at(0, 0), at(1, 0), Ordering::Less),
        (at(65535, 4294967295), end, Ordering::Less),
        (end, at(9999, 999999), Ordering::Greater),
        (end, end, Ordering::Equal),
    ] {
        assert!(rt; position_cmp(&a, &b) == want, "{a:?} and {b:?}");
    }
}

#[test]
fn files_begin_at_one_position(rt: HostRuntime) {
    let start = Position::Awaits {
        sect: 1,
        block: 0,
        part: 0,
    };
    assert!(rt; Position::start() == start);
    for (sect, block, part, is_start) in [
        (1, 0, 0, true),
        (1, 0, 1, false),
        (1, 1, 0, false),
        (2, 0, 0, false),
    ] {
        let position = Position::awaiting(sect, block).at_part(part);
        assert!(rt; position.is_start() == is_start, "{position:?}");
    }
    assert!(rt; !Position::Finished.is_start());
}

#[test]
fn positions_go_on(rt: HostRuntime) {
    let front = Position::awaiting(3, 41);
    let (block, section) = (Position::awaiting(3, 42), Position::awaiting(4, 0));
    goes_on(&rt, front, block, section);
    goes_on(&rt, front.at_part(5), block, section);
    let end = Position::Finished;
    goes_on(&rt, end, end, end);
}

/// Checks that `block` is the start of the block after `from`, and `section` that of the next
/// section.
fn goes_on(rt: &impl Abort, from: Position, block: Position, section: Position)
    requires block { block_of from < 4294967295 }
    requires sect { sect_of from < 65535 }
{
    assert!(rt; from.next_block() == block, "the block behind {from:?}");
    assert!(rt;
        from.next_section() == section,
        "the section behind {from:?}"
    );
}

#[test]
fn parts_of_positions(rt: HostRuntime) {
    let front = Position::awaiting(3, 41);
    assert!(rt; front.at_part(5).at_part(0) == front);
    assert!(rt; Position::Finished.at_part(5) == Position::Finished);
}

#[test]
fn wants_at_positions(rt: HostRuntime) {
    let want = Want {
        file: 7,
        sect: 3,
        block: 41,
        part: 5,
    };
    assert_eq!(rt; Position::awaiting(3, 41).at_part(5).want(7), Some(want));
    assert_eq!(rt; Position::Finished.want(7), None);
}
