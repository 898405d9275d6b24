//! The dates of labels.
ghost use Rattle.std.specs.Prelude.{◌≡◌, Some};
ghost use Rattle.tape_run.specs.Dates.{in_months, in_year, date_of, day_text, two_digits};

use std::fmt;
use tape_label::{Field, digits_value};

/// A day of the calendar, which is printed as 1985-04-23, for example.
#[derive(Clone, Copy)]
pub struct Date {
    /// The year, 1900 to 2099.
    pub year: u16,
    /// The month, 1 to 12.
    pub month: u16,
    /// The day of the month, from 1.
    pub day: u16,
}

/// Returns the date of day number `day` of the last months of a year, which have the given numbers
/// of days.
fn in_months(lengths: &[u16], year: u16, day: u16) -> Option<Date>
    ensures { result ≡ in_months lengths.now year day }
{
    match lengths {
        [] => None,
        [length, rest @ ..] => {
            if day <= *length {
                let month = 12usize.saturating_sub(rest.len()) as u16;
                return Some(Date { year, month, day });
            }
            in_months(rest, year, day - *length)
        }
    }
}

/// Returns the date of a day of a year, counted from 1.
fn in_year(year: u16, day: u16) -> Option<Date>
    ensures { result ≡ in_year year day }
{
    if day == 0 {
        return None;
    }
    let leap = year % 4 == 0 && (year % 100 != 0 || year % 400 == 0);
    let february = if leap { 29 } else { 28 };
    let lengths = [31, february, 31, 30, 31, 30, 31, 31, 30, 31, 30, 31];
    in_months(&lengths, year, day)
}

/// Returns the date in the six characters of a label, if they are a date.
pub fn date_of(field: &Field<6>) -> Option<Date>
    ensures { result ≡ date_of field.now }
{
    let [century, rest @ ..] = field.bytes() else {
        return None;
    };
    let digits = digits_value(rest)?;
    let first = match *century {
        b' ' => 1900,
        b'0' => 2000,
        _ => return None,
    };
    in_year(first + (digits / 1000) as u16, (digits % 1000) as u16)
}

impl fmt::Display for Date {
    ghost output = { λ date. Some (day_text date) };

    fn fmt<W: fmt::Write>(&self, f: &mut fmt::Formatter<W>) -> fmt::Result {
        let year = self.year;
        let month = TwoDigits(self.month);
        let day = TwoDigits(self.day);
        write!(f, "{year}-{month}-{day}")
    }
}

/// A number in at least two digits.
#[derive(Clone, Copy)]
struct TwoDigits(u16);

impl fmt::Display for TwoDigits {
    ghost output = { λ number. Some (two_digits number.0) };

    fn fmt<W: fmt::Write>(&self, f: &mut fmt::Formatter<W>) -> fmt::Result {
        let number = self.0;
        let zero = if number < 10 { "0" } else { "" };
        write!(f, "{zero}{number}")
    }
}
