//! Tests of characters, fields, digits, and the names of kinds, formats and faults.

use crate::samples::{head, volume};
use std::test::*;
use tape_label::*;

#[test]
fn a_characters(rt: HostRuntime) {
    let table = b" !\"%&'()*+,-./0123456789:;<=>?ABCDEFGHIJKLMNOPQRSTUVWXYZ_";
    for byte in 0..=255 {
        assert_eq!(rt; is_a_character(byte), table.contains(&byte), "byte {byte}");
    }
    assert_eq!(rt; first_other(table), None);
    assert_eq!(rt; first_other(b"TAPE#1"), Some(4));
}

#[test]
fn fields_of_a_text(rt: HostRuntime) {
    for (text, want) in [
        ("ABC", Ok(Field::of_bytes(*b"ABC   "))),
        ("", Ok(Field::of_bytes([b' '; 6]))),
        ("ABC001", Ok(Field::of_bytes(*b"ABC001"))),
        ("ABC0012", Err(LabelFault::FieldLength)),
        ("ABC#@1", Err(LabelFault::NotACharacter(3))),
        ("abc", Err(LabelFault::NotACharacter(0))),
    ] {
        assert_eq!(rt; Field::<6>::new(text), want, "field of `{text}`");
    }
}

/// The length is counted in bytes (`Ä` has two) and is checked before the characters.
#[test]
fn fields_count_bytes(rt: HostRuntime) {
    assert_eq!(rt; Field::<2>::new("AÄ"), Err(LabelFault::FieldLength));
    assert_eq!(rt; Field::<3>::new("AÄ"), Err(LabelFault::NotACharacter(1)));
}

#[test]
fn fields_of_any_bytes(rt: HostRuntime) {
    let field = Field::of_bytes([0, 0xff, b'a']);
    assert_eq!(rt; field.bytes(), [0, 0xff, b'a'].as_slice());
    for (last, same) in [(b'a', true), (b'b', false)] {
        let other = Field::of_bytes([0, 0xff, last]);
        assert_eq!(rt; same_field(&field, &other), same, "last byte {last}");
    }
    laws::widths(&head());
    laws::volume_widths(&volume());
}

#[test]
fn digits_are_written(rt: HostRuntime) {
    assert_eq!(rt; digits_of::<4>(25), *b"0025");
    assert_eq!(rt; digits_of::<4>(9999), *b"9999");
    assert_eq!(rt; digits_of::<15>(2125), *b"000000000002125");
    assert_eq!(rt; digits_of::<20>(u64::MAX), *b"18446744073709551615");
}

#[test]
fn digits_are_read(rt: HostRuntime) {
    for (text, want) in [
        ("0025", Some(25)),
        ("9999999999999999999", Some(9_999_999_999_999_999_999)),
        ("", Some(0)),
        ("  25", None),
        ("+025", None),
        ("/025", None),
        ("002:", None),
    ] {
        let digits = text.as_bytes();
        assert!(rt; digits.len() <= 19, "`{text}` is short");
        assert_eq!(rt; digits_value(digits), want, "digits `{text}`");
    }
}

#[test]
fn letters_of_formats(rt: HostRuntime) {
    for (format, letter) in [
        (Format::Fixed, b'F'),
        (Format::Counted, b'D'),
        (Format::Spanned, b'S'),
    ] {
        assert_eq!(rt; format.letter(), letter, "format {format:?}");
    }
}

#[test]
fn numbers_of_faults(rt: HostRuntime) {
    for (fault, number) in [
        (LabelFault::NotEighty, 1),
        (LabelFault::Identifier, 2),
        (LabelFault::NotDigits(28), 3),
        (LabelFault::Format(0x55), 4),
        (LabelFault::FieldRange(28), 5),
        (LabelFault::NotACharacter(3), 6),
        (LabelFault::FieldLength, 7),
    ] {
        assert_eq!(rt; fault.number(), number, "fault {fault:?}");
    }
}

#[test]
fn texts_of_faults(rt: HostRuntime) -> Result<(), Fail> {
    for (fault, text) in [
        (
            LabelFault::NotDigits(28),
            "the number at position 28 contains a character that is not a digit",
        ),
        (
            LabelFault::NotACharacter(3),
            "the byte at index 3 is not an a-character",
        ),
    ] {
        let told = format!(in rt.alloc(); "{fault}")?;
        assert_eq!(rt; told.as_str(), text);
    }
    Ok(())
}
