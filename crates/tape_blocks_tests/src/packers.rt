//! Tests of a packer, call by call.

use crate::worked::{reads, shape};
use std::alloc::{AllocError, Global};
use std::test::*;
use tape_blocks::{Offer, PackFault, Packer, Shape, Span};
use tape_label::Format;

// A call to a packer, with its result.
#[derive(Clone, Copy)]
enum Call<'a> {
    Offer(&'a [u8], Result<Offer, PackFault>),
    Rest(bool),
    Take(Option<&'a [u8]>),
}

// Returns true if the packer returns the result of the call.
fn answers(packer: &mut Packer, call: &Call<'_>) -> bool {
    match call {
        Call::Offer(rest, answer) => packer.offer(rest) == *answer,
        Call::Rest(answer) => packer.rest() == *answer,
        Call::Take(answer) => packer.take_block() == *answer,
    }
}

// Returns the number, from 1, of the first call for which a new packer returns another result. Call
// 0 creates the packer.
fn first_wrong(alloc: Global, shape: Shape, calls: &[Call<'_>]) -> Option<usize> {
    let Ok(mut packer) = Packer::new(alloc, shape) else {
        return Some(0);
    };
    for (n, call) in calls.iter().enumerate() {
        if !answers(&mut packer, call) {
            return Some(n + 1);
        }
    }
    None
}

#[test]
fn answers_each_offer(rt: HostRuntime) {
    let calls = [
        Call::Offer(b"12345678901", Err(PackFault::RecordLength)),
        Call::Rest(false),
        Call::Take(None),
        Call::Offer(b"1234567890", Ok(Offer::Taken)),
        Call::Rest(true),
        Call::Offer(b"1", Ok(Offer::BlockReady(0))),
        // The block is closed, and nothing is checked before it is taken.
        Call::Offer(b"12345678901", Ok(Offer::BlockReady(0))),
        Call::Rest(true),
        Call::Take(Some(b"00141234567890^^^^")),
        Call::Rest(false),
        Call::Offer(b"12345678901", Err(PackFault::RecordLength)),
        Call::Offer(b"1", Ok(Offer::Taken)),
        Call::Take(Some(b"00051^^^^^^^^^^^^^")),
    ];
    assert_eq!(rt;
        first_wrong(rt.alloc(), shape(Format::Counted, 18, 14, 0), &calls),
        None
    );
}

#[test]
fn keeps_a_full_block_until_the_next_offer(rt: HostRuntime) {
    let calls = [
        Call::Offer(&[b'A'; 18], Ok(Offer::Taken)),
        Call::Rest(true),
        Call::Offer(&[b'B'; 18], Ok(Offer::BlockReady(0))),
        Call::Take(Some(&[b'A'; 18])),
        Call::Offer(&[b'B'; 18], Ok(Offer::Taken)),
    ];
    assert_eq!(rt;
        first_wrong(rt.alloc(), shape(Format::Fixed, 18, 18, 0), &calls),
        None
    );
}

#[test]
fn goes_on_with_a_record_when_its_block_was_taken(rt: HostRuntime) {
    let calls = [
        Call::Offer(b"12345678901234567890", Ok(Offer::BlockReady(13))),
        Call::Take(Some(b"100181234567890123")),
        Call::Rest(false),
        Call::Offer(b"4567890", Ok(Offer::Taken)),
        // A new record begins, although the previous record has just ended in this block.
        Call::Offer(b"A", Ok(Offer::Taken)),
        Call::Take(Some(b"30012456789000006A")),
    ];
    assert_eq!(rt;
        first_wrong(rt.alloc(), shape(Format::Spanned, 18, 0, 0), &calls),
        None
    );
}

// Returns true if the packer accepts `front`, the first bytes of `rest`, and its block then
// contains only them, as segment number `n`.
fn cuts(packer: &mut Packer, shape: &Shape, n: usize, rest: &[u8], front: &[u8]) -> bool {
    let span = match n {
        0 => Span::First,
        300 => Span::Last,
        _ => Span::Middle,
    };
    let ends = span == Span::Last;
    let answer = if ends {
        Offer::Taken
    } else {
        Offer::BlockReady(front.len())
    };
    if packer.offer(rest) != Ok(answer) {
        return false;
    }
    match packer.take_block() {
        None => false,
        Some(block) => block.len() == front.len() + 5
            && reads(shape, n > 0, block, !ends, &[(span, front)]),
    }
}

// Returns `len` bytes.
fn long_record(alloc: Global, len: u32) -> Result<Vec<u8>, AllocError> {
    let mut record = Vec::new(alloc);
    for n in 0..len {
        record.push((n % 251) as u8)?;
    }
    Ok(record)
}

// A record of 3,000,000 bytes is offered piece by piece: 300 segments of 9,994 bytes and one of
// 1,800.
#[test]
fn cuts_a_long_record(rt: HostRuntime) -> Result<(), Fail> {
    let shape = shape(Format::Spanned, 9_999, 0, 0);
    let mut packer = Packer::new(rt.alloc(), shape)?;
    let record = long_record(rt.alloc(), 3_000_000)?;
    let mut rest = record.as_slice();
    for n in 0..301 {
        let (front, behind) = rest.split_at(rest.len().min(9_994));
        assert!(rt; cuts(&mut packer, &shape, n, rest, front), "{n}");
        rest = behind;
    }
    assert!(rt; rest.is_empty());
    Ok(())
}
