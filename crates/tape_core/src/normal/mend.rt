//! Makes second labels readable whose numbers begin with blanks or NULs.

ghost use Rattle.std.specs.Prelude.{◌≡◌, ◌≤◌};
ghost use Rattle.tape_core.specs.NormalForm.Mended.{mended, filled_number, fill_at};

use tape_label::{read_head2, read_wide_head2};

/// Replaces the blanks and NULs that a number begins with by `0`.
pub(crate) fn fill(number: &mut [u8])
    ensures { number.new ≡ filled_number number.old }
{
    if !number.is_empty() && (number[0] == 0 || number[0] == b' ') {
        number[0] = b'0';
        fill(&mut number[1..]);
    }
}

/// Fills the number at the positions `first` to `last`, counted from 1.
fn fill_at(text: &mut [u8; 80], first: usize, last: usize)
    requires first { 1 ≤ first }
    requires order { first ≤ last }
    requires last { last ≤ 80 }
    ensures { text.new ≡ fill_at first last text.old }
{
    fill(&mut text[first - 1..last]);
}

/// Returns a second label as it is, or with its numbers filled with zeros: whichever the strict
/// reading accepts, or else the wider one. If both can be read, or none, it stays as it is.
pub(crate) fn mended(label: &[u8; 80]) -> [u8; 80]
    ensures { result ≡ mended label.now }
{
    if read_head2(label).is_ok() {
        return *label;
    }
    let mut filled = *label;
    fill_at(&mut filled, 6, 10);
    fill_at(&mut filled, 11, 15);
    fill_at(&mut filled, 51, 52);
    if read_head2(&filled).is_ok() {
        return filled;
    }
    match (read_wide_head2(label), read_wide_head2(&filled)) {
        (Err(_), Ok(_)) => filled,
        _ => *label,
    }
}
