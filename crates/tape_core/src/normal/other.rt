//! Items that are not expected. From such an item on a tape is left unchanged, unless its labels are
//! in EBCDIC or have padding: no reader knows these, so they are still looked for.

ghost use Rattle.std.specs.Prelude.{◌≡◌, if◌then◌else◌};
ghost use Rattle.tape_image.specs.Tape.{bad};
ghost use Rattle.tape_label.specs.{Kinds.kind_at};
ghost use Rattle.tape_core.specs.NormalForm.{Codes.in_ascii, Mended.is_hdr1, Mended.lost};
ghost use Rattle.tape_core.specs.NormalForm.{is_next_header, seems_label};
ghost use Rattle.tape_core.specs.NormalForm.Steps.{any_at, header_at, headers_at, left_at, other_at};
ghost use Rattle.tape_core.specs.NormalForm.Steps.{same, step_of, trailers_at};

use crate::normal::code::{Code, label_in};
use crate::normal::machine::{Change, DROPPED, Missing, SAME, TapePlace, header, translated};
use crate::normal::numbers::{FileSeen, NO_FILE};
use tape_label::{Kind, is_further_header, kind};

/// Returns the place after an item that is not expected: `place`, if labels are looked for.
pub(crate) fn left(code: Code, place: TapePlace) -> TapePlace
    ensures { result ≡ left_at code place }
{
    match code {
        Code::Ascii => TapePlace::Over,
        Code::Ebcdic | Code::PaddedAscii | Code::PaddedEbcdic => place,
    }
}

/// Takes a block as the first label of a file, or else as what `other` says.
#[tactic(auto, using(crate::proofs::Labels::no_kind))]
fn header_or(
    code: Code,
    seen: FileSeen,
    bytes: &[u8],
    other: (TapePlace, Change),
) -> (TapePlace, Change)
    ensures { result ≡ if is_hdr1 (kind_at (in_ascii code bytes.now))
        then header_at code Missing.Nothing (lost seen) (in_ascii code bytes.now) else other }
{
    let Some(text) = label_in(code, bytes) else {
        return other;
    };
    match kind(&text) {
        Some(Kind::Hdr1) => header(code, Missing::Nothing, seen.lost(), text),
        _ => other,
    }
}

/// Takes a block that is not the label expected there: the `HDR1` of a file, or else data.
pub(crate) fn other_block(code: Code, seen: FileSeen, bytes: &[u8]) -> (TapePlace, Change)
    ensures { result ≡ other_at code seen (in_ascii code bytes.now) }
{
    match code {
        Code::Ascii => (TapePlace::Over, SAME),
        Code::Ebcdic | Code::PaddedAscii | Code::PaddedEbcdic => {
            let data = (TapePlace::Data(code, seen.lost()), SAME);
            header_or(code, seen, bytes, data)
        }
    }
}

/// Takes a block where any label may be.
fn any_label(code: Code, bytes: &[u8]) -> Change
    ensures { result ≡ any_at code (in_ascii code bytes.now) }
{
    match label_in(code, bytes) {
        Some(text) => translated(code, text),
        None => SAME,
    }
}

/// Returns whether a block seems to be a label that is not known here: it begins with three capital
/// letters and a digit.
fn seems_label(text: &[u8; 80]) -> bool
    ensures { result ≡ seems_label text.now }
{
    kind(text).is_none()
        && text[0].is_ascii_uppercase()
        && text[1].is_ascii_uppercase()
        && text[2].is_ascii_uppercase()
        && text[3].is_ascii_digit()
}

/// Returns whether a block continues the header labels. In ASCII any block does.
#[tactic(auto, using(crate::proofs::Labels::no_kind, crate::proofs::Labels::none_next))]
fn is_next_header(code: Code, bytes: &[u8]) -> bool
    ensures { result ≡ is_next_header code (in_ascii code bytes.now) }
{
    if let Code::Ascii = code {
        return true;
    }
    let Some(text) = label_in(code, bytes) else {
        return false;
    };
    matches!(kind(&text), Some(Kind::Hdr2)) || is_further_header(&text) || seems_label(&text)
}

/// Takes a block where a further header label may be.
pub(crate) fn further_header(code: Code, seen: FileSeen, bytes: &[u8]) -> (TapePlace, Change)
    ensures { result ≡ headers_at code seen (in_ascii code bytes.now) }
{
    if is_next_header(code, bytes) {
        return (TapePlace::Headers(code, seen), any_label(code, bytes));
    }
    other_block(code, seen, bytes)
}

/// Takes a block where a further trailer label may be.
pub(crate) fn further_trailer(code: Code, seen: FileSeen, bytes: &[u8]) -> (TapePlace, Change)
    ensures { result ≡ trailers_at code seen (in_ascii code bytes.now) }
{
    let trailer = (TapePlace::Trailers(code, seen), any_label(code, bytes));
    match code {
        Code::Ascii => trailer,
        Code::Ebcdic | Code::PaddedAscii | Code::PaddedEbcdic => {
            header_or(code, seen, bytes, trailer)
        }
    }
}

/// Returns what is expected after an item that cannot be read, and what replaces it.
pub(crate) fn step_at_bad(place: TapePlace) -> (TapePlace, Change)
    ensures { result ≡ step_of place bad }
{
    let next = match place {
        TapePlace::Ended => return (TapePlace::Ended, DROPPED),
        TapePlace::Data(code, seen) => TapePlace::Data(code, seen.uncounted()),
        TapePlace::Labels(code, _) => left(code, TapePlace::Headers(code, NO_FILE.lost())),
        TapePlace::Blank(code) => left(code, TapePlace::Trailer(code, NO_FILE.lost())),
        TapePlace::Second(code, seen) => left(code, TapePlace::Headers(code, seen.lost())),
        TapePlace::Headers(code, seen) => left(code, TapePlace::Headers(code, seen.lost())),
        TapePlace::Trailer(code, seen) => left(code, TapePlace::Trailer(code, seen.lost())),
        TapePlace::Trailers(code, seen) => left(code, TapePlace::Trailers(code, seen.lost())),
        TapePlace::Next(code, seen) => left(code, TapePlace::Headers(code, seen.lost())),
        TapePlace::Start(_) | TapePlace::Over => TapePlace::Over,
    };
    (next, SAME)
}
