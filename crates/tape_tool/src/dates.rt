//! The dates of labels, as arguments and as times of files.
ghost use Rattle.std.specs.Prelude.{IfOk, IfSome};
ghost use Rattle.tape_tool.specs.Writing.{IsDay};

use crate::normal::NormalImages;
use crate::refusal::are_files;
use crate::screen::{Host, Progress};
use std::alloc::{AllocError, Global};
use std::fs;
use std::fs::File;
use std::io::Read;
use std::time::{Duration, SystemTime, UNIX_EPOCH};
use tape_image::{ImageReader, Item};
use tape_label::{Field, digits_value, read_head1};
use tape_run::{ImageSource, date_of};

/// The maximum number of days in a year.
const DAYS: u16 = 366;

/// Returns the six characters of a label for the day `text`, which is written as 1985-04-23, or
/// `None` if `text` is no day from 1900 to 2099 in this form.
///
/// # Errors
///
/// Returns `AllocError` if an allocation fails.
pub fn day_of(alloc: Global, text: &str) -> Result<Option<Field<6>>, AllocError>
    ensures { IfOk result (λ found. IfSome found (λ field. IsDay text.now field)) }
{
    let year = text
        .split('-')
        .next()
        .and_then(|year| year.parse::<u16>().ok());
    let Some(year) = year else {
        return Ok(None);
    };
    for day in 1..=DAYS {
        let field = field_of(year, day);
        if let Some(date) = date_of(&field) {
            let shown = format!(in alloc; "{date}")?;
            if shown.as_str() == text {
                return Ok(Some(field));
            }
        }
    }
    Ok(None)
}

/// Sets the time of the file at `path` to noon of the day `created`, if it is one. Nothing is lost
/// if the time cannot be set.
pub fn set_time<R: Host>(rt: &R, path: &str, created: &Field<6>) {
    if let Some(noon) = noon_of(created)
        && let Ok(file) = File::open(rt, path)
    {
        let _ = file.set_modified(noon);
    }
}

/// Sets the time of the output at `path` to noon of the day on which a file was created, by the
/// first header label of the file on the images. Does nothing if the output is not a plain file, or
/// the images cannot be read once more.
pub fn date_output<R: Progress>(rt: &R, path: &str, names: &[&str], set_id: Field<6>, file: u16) {
    let is_plain = fs::symlink_metadata(rt.host(), path).is_ok_and(|there| there.is_file());
    if !is_plain || !are_files(rt.host(), names) {
        return;
    }
    let mut images = NormalImages::again(rt, names);
    for number in 0..names.len() {
        if let Ok(Some(image)) = images.mount(number)
            && let Some(created) = created_on(rt.alloc(), image, set_id, file)
        {
            set_time(rt.host(), path, &created);
            return;
        }
    }
}

/// Returns the creation date in the first header label of a file on an image, if it has one. The
/// image is read up to that label.
fn created_on<R: Read + Drop>(
    alloc: Global,
    device: R,
    set_id: Field<6>,
    file: u16,
) -> Option<Field<6>> {
    let mut device = device;
    let mut image = ImageReader::new(alloc, &mut device).ok()?;
    // The tape marks since the header labels: one before the data, and one after them.
    let mut marks = 0u8;
    for _ in 0..u64::MAX {
        match image.next() {
            Ok(Some(Item::Block(block))) => {
                if let (0, Ok(head)) = (marks, read_head1(block))
                    && (head.set_id, head.sequence) == (set_id, file)
                {
                    return Some(head.created);
                }
            }
            Ok(Some(Item::Mark)) => {
                marks = match marks {
                    0 => 1,
                    1 => 2,
                    _ => 0,
                };
            }
            Ok(Some(Item::Bad)) => {}
            _ => break,
        }
    }
    None
}

/// Returns noon (UTC) of the day in the six characters of a label, or `None` if they are no day
/// from 1970 on.
fn noon_of(created: &Field<6>) -> Option<SystemTime> {
    date_of(created)?;
    let [century, digits @ ..] = created.bytes() else {
        return None;
    };
    let number = digits_value(digits)?;
    let century = if *century == b' ' { 1_900u64 } else { 2_000 };
    let years = century.saturating_add(number / 1000).checked_sub(1_970)?;
    // The leap years are 1972, 1976 and so on to 2096.
    let leap_days = years.saturating_add(1) / 4;
    let days = years.saturating_mul(365).saturating_add(leap_days);
    let days = days.saturating_add((number % 1000).saturating_sub(1));
    let seconds = days.saturating_mul(86_400).saturating_add(43_200);
    UNIX_EPOCH.checked_add(Duration::from_secs(seconds))
}

/// Returns the six characters for a day of a year: one for the century, two for the year in it, and
/// three for the day.
fn field_of(year: u16, day: u16) -> Field<6> {
    let century = if year < 2000 { b' ' } else { b'0' };
    let digit = |number: u16| b'0' + (number % 10) as u8;
    Field::of_bytes([
        century,
        digit(year / 10),
        digit(year),
        digit(day / 100),
        digit(day / 10),
        digit(day),
    ])
}
