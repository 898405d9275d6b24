//! Tests of sinks: the parts that they keep and return, and the calls that they refuse.

use crate::readers::reader;
use std::alloc::Global;
use std::process::Abort;
use tape_blocks::{Part, Span};
use tape_core::{Checkpoint, MemorySink, PartSink, PartWalk, Refusing, SinkFault};

const FIRST: (Span, &[u8]) = (Span::Whole, b"AB");

const SECOND: (Span, &[u8]) = (Span::First, b"");

const THIRD: (Span, &[u8]) = (Span::Last, b"0123456789");

/// Appends a part.
fn put(rt: &impl Abort, sink: &mut MemorySink, (span, bytes): (Span, &[u8])) {
    assert!(rt; bytes.len() < 100);
    let kept = sink.put(Part { span, bytes }).is_ok();
    assert!(rt; kept, "{span:?}");
}

/// Appends the three parts, with the weights 5 + 2, 5 + 0 and 5 + 10.
fn fill(rt: &impl Abort, sink: &mut MemorySink) {
    put(rt, sink, FIRST);
    put(rt, sink, SECOND);
    put(rt, sink, THIRD);
}

/// Returns the checkpoint after the first parts, with weight `staged`.
fn front(rt: &impl Abort, staged: u32) -> Checkpoint {
    reader(rt, 1).save(u64::from(staged))
}

/// Cuts the sink back to weight `staged`, which is at most its own.
fn cut(rt: &impl Abort, sink: &mut impl PartSink, staged: u32) -> Result<(), SinkFault> {
    let point = front(rt, staged);
    let (staged, weight) = (point.staged, sink.weight());
    assert!(rt; staged <= weight);
    sink.cut_to(&point)
}

/// Saves a checkpoint with weight `staged`, which is the sink's own.
fn note(rt: &impl Abort, sink: &mut impl PartSink, staged: u32) -> Result<(), SinkFault> {
    let point = front(rt, staged);
    let (staged, weight) = (point.staged, sink.weight());
    assert!(rt; staged == weight);
    sink.keep(&point)
}

/// Checks that `part` has the span `span` and the bytes `bytes`.
fn is_part(rt: &impl Abort, name: &str, part: Option<Part<'_>>, (span, bytes): (Span, &[u8])) {
    let part = part.expect(rt, "no part");
    assert!(rt; part.span == span && part.bytes == bytes, "{name}");
}

/// Checks that the sink contains `count` parts, with weight `weight`.
fn keeps(rt: &impl Abort, name: &str, sink: &MemorySink, count: usize, weight: u64) {
    assert!(rt; sink.count() == count && sink.weight() == weight, "{name}");
}

#[test]
fn parts_are_kept_and_weighed(rt: HostRuntime) {
    let mut sink = MemorySink::new(rt.alloc());
    keeps(&rt, "none", &sink, 0, 0);
    fill(&rt, &mut sink);
    keeps(&rt, "three", &sink, 3, 27);
    is_part(&rt, "the last", sink.part(2), THIRD);
    assert!(rt; sink.part(3).is_none());
}

/// Checks that cutting three parts back to weight `staged` keeps `count` parts.
fn is_cut(rt: &impl Abort, alloc: Global, staged: u32, count: usize) {
    let mut sink = MemorySink::new(alloc);
    fill(rt, &mut sink);
    let answer = cut(rt, &mut sink, staged);
    assert_eq!(rt; answer, Ok(()), "cut to {staged}");
    keeps(rt, "a front", &sink, count, u64::from(staged));
    let answer = note(rt, &mut sink, staged);
    assert_eq!(rt; answer, Ok(()), "noted at {staged}");
}

#[test]
fn a_cut_keeps_the_front_of_its_weight(rt: HostRuntime) {
    is_cut(&rt, rt.alloc(), 27, 3);
    is_cut(&rt, rt.alloc(), 12, 2);
    is_cut(&rt, rt.alloc(), 7, 1);
    is_cut(&rt, rt.alloc(), 0, 0);
}

#[test]
fn parts_go_behind_a_cut(rt: HostRuntime) {
    let mut sink = MemorySink::new(rt.alloc());
    fill(&rt, &mut sink);
    let answer = cut(&rt, &mut sink, 12);
    assert_eq!(rt; answer, Ok(()));
    fill(&rt, &mut sink);
    keeps(&rt, "two and three", &sink, 5, 39);
    is_part(&rt, "part 0", sink.part(0), FIRST);
    is_part(&rt, "part 1", sink.part(1), SECOND);
    is_part(&rt, "part 2", sink.part(2), FIRST);
    is_part(&rt, "part 3", sink.part(3), SECOND);
    is_part(&rt, "part 4", sink.part(4), THIRD);
}

/// Checks that the next part is `wanted`.
fn gives(rt: &impl Abort, name: &str, sink: &mut MemorySink, wanted: (Span, &[u8])) {
    is_part(rt, name, sink.next_part().expect(rt, "refused"), wanted);
}

/// Checks that no part is left.
fn gives_none(rt: &impl Abort, sink: &mut MemorySink) {
    let is_none = sink.next_part().expect(rt, "refused").is_none();
    assert!(rt; is_none);
}

/// Walks over the three parts.
fn walks(rt: &impl Abort, sink: &mut MemorySink) {
    sink.rewind();
    gives(rt, "first", sink, FIRST);
    gives(rt, "second", sink, SECOND);
    gives(rt, "third", sink, THIRD);
    gives_none(rt, sink);
    gives_none(rt, sink);
}

#[test]
fn parts_are_given_back_in_order(rt: HostRuntime) {
    let mut sink = MemorySink::new(rt.alloc());
    fill(&rt, &mut sink);
    walks(&rt, &mut sink);
    walks(&rt, &mut sink);
}

/// Checks that appending two bytes gets the answer `answer`, and that the inner sink then has
/// `count` parts of weight `weight`.
fn puts(
    rt: &impl Abort,
    name: &str,
    sink: &mut Refusing<MemorySink>,
    answer: Result<(), SinkFault>,
    (count, weight): (usize, u64),
) {
    let (span, bytes) = FIRST;
    assert!(rt; bytes.len() < 100);
    let given = sink.put(Part { span, bytes });
    assert_eq!(rt; given, answer, "{name}");
    assert!(rt; sink.weight() == weight, "{name}");
    keeps(rt, name, sink.inner(), count, weight);
}

#[test]
fn a_refused_put_leaves_the_sink(rt: HostRuntime) {
    let mut sink = Refusing::new(MemorySink::new(rt.alloc()), 1);
    puts(&rt, "kept", &mut sink, Ok(()), (1, 7));
    puts(&rt, "refused", &mut sink, Err(SinkFault::Device), (1, 7));
    puts(&rt, "kept again", &mut sink, Ok(()), (2, 14));
}

#[test]
fn a_refused_cut(rt: HostRuntime) {
    let mut sink = Refusing::new(MemorySink::new(rt.alloc()), 0);
    let answer = cut(&rt, &mut sink, 0);
    assert_eq!(rt; answer, Err(SinkFault::Failed));
}

#[test]
fn a_refused_note(rt: HostRuntime) {
    let mut sink = Refusing::new(MemorySink::new(rt.alloc()), 0);
    let answer = note(&rt, &mut sink, 0);
    assert_eq!(rt; answer, Err(SinkFault::Device));
    let answer = note(&rt, &mut sink, 0);
    assert_eq!(rt; answer, Ok(()));
}

#[test]
fn faults_have_numbers(rt: HostRuntime) {
    let numbers = [
        SinkFault::OutOfMemory.number(),
        SinkFault::Device.number(),
        SinkFault::Full.number(),
        SinkFault::Failed.number(),
    ];
    assert!(rt; numbers == [1, 2, 3, 4], "{numbers:?}");
}
