// The texts of dates.

ghost use Rattle.std.specs.Prelude.{◌≡◌, ◌<◌, ◌+◌, ◌/◌, ◌%◌, ◌≤ℤ◌, pos, OnOk, OnErr, IfOk, string_bytes};
ghost use Rattle.adf_base.specs.Dates.{plain_text};
ghost use Rattle.adf_fields.specs.Dates.{IsCivilDay, IsStampText, AppendsStampText, DatesHaveOneText, civil_text, is_civil};
ghost use Rattle.adf_fields.specs.declared.date_texts.TheConstants.{CIVIL_DAYS, DAYS_TO_1978};

use adf_base::{NoMemory, Stamp};
use jiff::ToSpan;
use jiff::civil::{Date, date};
use std::alloc::{AllocError, Global};

// The days from 1970-01-01 to 1978-01-01.
const DAYS_TO_1978: u32 = 2922;

/// The days from 1978-01-01 to the first whose year has five digits.
pub const CIVIL_DAYS: u32 = 2_929_975;

// Whether a date has a civil text: at most 9999-12-31, a minute of the day and a tick of the minute.
fn is_civil(s: Stamp) -> bool
    ensures { result ≡ is_civil s }
{
    s.days < CIVIL_DAYS && s.mins < 1440 && s.ticks < 3000
}

// The civil date of a day since 1978-01-01, up to 9999-12-31.
fn civil_day(days: u32) -> Date
    requires { days < CIVIL_DAYS }
    ensures { IsCivilDay (days + DAYS_TO_1978) result }
{
    date(1970, 1, 1)
        .checked_add(i64::from(days + DAYS_TO_1978).days())
        .unwrap()
}

fn civil_text(alloc: Global, s: Stamp, day: Date) -> Result<String, AllocError>
    requires mins { s.mins < 1440 }
    requires ticks { s.ticks < 3000 }
    ensures { IfOk result (λ t. string_bytes t ≡ civil_text day s) }
{
    let (hours, mins) = (s.mins / 60, s.mins % 60);
    let (seconds, ticks) = (s.ticks / 50, s.ticks % 50);
    format!(in alloc; "{day} {hours:02}:{mins:02}:{seconds:02}.{ticks:02}")
}

fn plain(alloc: Global, s: Stamp) -> Result<String, AllocError>
    ensures { IfOk result (λ t. string_bytes t ≡ plain_text s) }
{
    let (days, mins, ticks) = (s.days, s.mins, s.ticks);
    format!(in alloc; "{days}:{mins}:{ticks}")
}

// The text of a date.
fn text_of(alloc: Global, s: Stamp) -> Result<String, AllocError>
    ensures { IfOk result (λ t. IsStampText s (string_bytes t)) }
{
    if is_civil(s) {
        civil_text(alloc, s, civil_day(s.days))
    } else {
        plain(alloc, s)
    }
}

/// Appends the text of a date; if memory is refused, `out` is unchanged.
pub fn stamp_text(s: Stamp, out: &mut String) -> Result<(), NoMemory>
    ensures ok { OnOk result (AppendsStampText s (string_bytes out.old) (string_bytes out.new)) }
    ensures err { OnErr result (string_bytes out.new ≡ string_bytes out.old) }
{
    let alloc = *out.allocator();
    let text = text_of(alloc, s)?;
    Ok(out.push_str(text.as_str())?)
}

// The first digit of a number below 100.
fn tens(n: u32) -> u8
    requires { n < 100 }
    ensures { result ≡ 48 + n / 10 }
{
    b'0' + (n / 10) as u8
}

// The last digit of a number.
fn ones(n: u32) -> u8
    ensures { result ≡ 48 + n % 10 }
{
    b'0' + (n % 10) as u8
}

// The year, the month and the day of the month.
fn numbers_of(day: Date) -> (u32, u32, u32)
    requires { pos 0 ≤ℤ day.year }
    ensures year { day.year ≡ pos result.0 }
    ensures month { result.1 ≡ day.month }
    ensures day { result.2 ≡ day.day }
{
    (day.year() as u32, day.month() as u32, day.day() as u32)
}

// The text of a civil date.
fn civil_digits(s: Stamp, day: Date) -> [u8; 22]
    requires year { pos 0 ≤ℤ day.year }
    requires mins { s.mins < 1440 }
    requires ticks { s.ticks < 3000 }
    ensures { result ≡ civil_text day s }
{
    let (year, month, date) = numbers_of(day);
    let (century, year) = (year / 100, year % 100);
    let (hours, mins) = (s.mins / 60, s.mins % 60);
    let (seconds, ticks) = (s.ticks / 50, s.ticks % 50);
    [
        tens(century),
        ones(century),
        tens(year),
        ones(year),
        b'-',
        tens(month),
        ones(month),
        b'-',
        tens(date),
        ones(date),
        b' ',
        tens(hours),
        ones(hours),
        b':',
        tens(mins),
        ones(mins),
        b':',
        tens(seconds),
        ones(seconds),
        b'.',
        tens(ticks),
        ones(ticks),
    ]
}

/// Appends the text of a date; if memory is refused, part of it may have been appended.
pub fn push_stamp(text: &mut Vec<u8>, s: Stamp) -> Result<(), AllocError>
    ensures { OnOk result (AppendsStampText s text.old.items text.new.items) }
{
    if is_civil(s) {
        text.extend_from_slice(&civil_digits(s, civil_day(s.days)))
    } else {
        let plain = plain(*text.allocator(), s)?;
        text.extend_from_slice(plain.as_bytes())
    }
}

/// Every date has exactly one text.
pub fn dates_have_one_text()
    ensures { DatesHaveOneText }
{}
