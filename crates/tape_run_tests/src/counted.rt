//! Tests of the counted form: each record follows its length in four bytes, the most significant
//! first.

use crate::devices::Narrow;
use crate::extract::shelf_of;
use crate::image::{long_byte, long_first, long_second, payroll, set_id};
use crate::now::Name;
use crate::salvaged::Both;
use crate::volumes::records;
use std::alloc::Global;
use std::test::Fail;
use tape_blocks::{Form, Part, Span};
use tape_core::MemorySink;
use tape_run::{
    Content, OutSink, SalvageTask, Session, extract_streaming, extract_to, salvage_to, write_part,
};

/// The long record of 290 bytes, which is 1 times 256 and 34, after its length.
fn long_record() -> [u8; 294] {
    let mut record = [0u8; 294];
    record[2] = 1;
    record[3] = 34;
    for (place, slot) in record[4..].iter_mut().enumerate() {
        *slot = long_byte(place);
    }
    record
}

/// The 25 records of the example file, each of 80 bytes.
fn payroll_records(alloc: Global) -> Result<Vec<u8>, Fail> {
    let records = records(alloc, b"")?;
    let mut counted = Vec::new(alloc);
    for record in records.as_slice().chunks(80) {
        counted.extend_from_slice(&[0, 0, 0, 80])?;
        counted.extend_from_slice(record)?;
    }
    Ok(counted)
}

/// Parts of records, and how many bytes are written and held back after each.
const PARTS: [(Span, &[u8], usize, usize); 7] = [
    (Span::First, b"AB", 0, 2),
    (Span::Middle, b"", 0, 2),
    (Span::Middle, b"CDE", 0, 5),
    (Span::Last, b"F", 10, 0),
    (Span::Whole, b"", 14, 0),
    (Span::Whole, b"G", 19, 0),
    (Span::First, b"HI", 19, 2),
];

/// Nothing of a record is written before it ends.
#[test]
fn records_in_parts(rt: HostRuntime) -> Result<(), Fail> {
    let mut out = Vec::new(rt.alloc());
    let mut held = Vec::new(rt.alloc());
    for (span, bytes, written, waits) in PARTS {
        write_part(&mut out, Part { span, bytes }, Form::Counted, &mut held)?;
        assert!(rt;
            out.len() == written && held.len() == waits,
            "{written} {waits}"
        );
    }
    let text = b"\0\0\0\x06ABCDEF\0\0\0\0\0\0\0\x01G";
    assert!(rt; out.as_slice() == text.as_slice() && held.as_slice() == b"HI".as_slice());
    Ok(())
}

/// In the other forms a part is written when it comes, and nothing is held back.
#[test]
fn parts_of_lines(rt: HostRuntime) -> Result<(), Fail> {
    let mut out = Vec::new(rt.alloc());
    let mut held = Vec::new(rt.alloc());
    for (span, bytes, _, _) in PARTS {
        write_part(&mut out, Part { span, bytes }, Form::Lines, &mut held)?;
        assert!(rt; held.is_empty());
    }
    assert!(rt; out.as_slice() == b"ABCDEF\n\nG\nHI".as_slice());
    Ok(())
}

/// Returns the bytes of a file, which is completed by these images: written at once, or from the
/// parts of a sink.
fn written(alloc: Global, images: &mut [Option<&[u8]>], at_once: bool) -> Result<Vec<u8>, Fail> {
    let mut shelf = shelf_of(alloc, images)?;
    let mut report = Vec::new(alloc);
    let mut out = Vec::new(alloc);
    let form = Form::Counted;
    if !at_once {
        let mut session = Session::new(alloc, set_id(), 1, MemorySink::new(alloc))?;
        extract_to(&mut session, &mut shelf, form, &mut out, &mut report)?;
        return Ok(out);
    }
    let sink = OutSink::new(alloc, Narrow::new(alloc, 10000, true), form);
    let mut session = Session::new(alloc, set_id(), 1, sink)?;
    let mut name = Name {
        is_free: true,
        there: None,
    };
    extract_streaming(&mut session, &mut shelf, form, &mut name, &mut report)?;
    match name.there {
        Some(there) => Ok(there.taken),
        None => Ok(out),
    }
}

#[test]
fn files_in_the_counted_form(rt: HostRuntime) -> Result<(), Fail> {
    let (first, second) = (long_first(rt.alloc())?, long_second(rt.alloc())?);
    let (first, second) = (first.bytes.as_slice(), second.bytes.as_slice());
    let whole = payroll(rt.alloc())?;
    let records = payroll_records(rt.alloc())?;
    let record = long_record();
    for at_once in [false, true] {
        let long = written(rt.alloc(), &mut [Some(first), Some(second)], at_once)?;
        assert!(rt; long.as_slice() == record.as_slice(), "{at_once}");
        let pay = written(rt.alloc(), &mut [Some(whole.bytes.as_slice())], at_once)?;
        assert!(rt; pay.as_slice() == records.as_slice(), "{at_once}");
    }
    Ok(())
}

/// Records that are salvaged have the same form.
#[test]
fn salvaged_records(rt: HostRuntime) -> Result<(), Fail> {
    let task = SalvageTask {
        set_id: set_id(),
        file: 1,
        content: Content::Records,
        form: Form::Counted,
    };
    let mut name = Name {
        is_free: true,
        there: None,
    };
    let (first, second) = (long_first(rt.alloc())?, long_second(rt.alloc())?);
    let (first, second) = (first.bytes.as_slice(), second.bytes.as_slice());
    let mut shelf = Both { first, second };
    let mut report = Vec::new(rt.alloc());
    let out = Narrow::new(rt.alloc(), 10000, true);
    let done = salvage_to(rt.alloc(), &task, &mut shelf, out, &mut name, &mut report)?;
    let long = long_record();
    let same = name
        .there
        .is_some_and(|there| there.taken.as_slice() == long.as_slice());
    assert!(rt; done && same);
    Ok(())
}
