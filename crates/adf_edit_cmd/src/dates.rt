// Dates in lines: their three numbers, or the text that listings write of them.

ghost use Rattle.std.specs.Prelude.{◌≡◌, ◌<◌, ◌+◌, ◌∷◌, [], ◌≤ℤ◌, ℕ, pos, true, false, Some, IfOk, IfErr};
ghost use Rattle.jiff.specs.{Types.Date as CivilDate, Words.IsYmd, Words.date_text};
ghost use Rattle.adf_base.specs.declared.dates.Stamp.{Stamp as StampValue};
ghost use Rattle.adf_fields.specs.Dates.{IsCivilDay, IsCivilText, IsStampText, clock_text, is_civil, two_digits};
ghost use Rattle.adf_edit_cmd.specs.{Lines.SaysDate, declared.dates.TheConstants.DAYS_TO_1978};

use adf_base::Stamp;
use adf_fields::push_stamp;
use adf_manifest::read_stamp;
use adf_names::PathFault;
use jiff::civil::Date;
use std::alloc::{AllocError, Global};

// The days from 1970-01-01 to 1978-01-01.
const DAYS_TO_1978: u32 = 2922;

// The number below 100 that two digits say; of other bytes, any number.
fn number(tens: u8, ones: u8) -> u32
    ensures below { result < 10_000 }
    ensures digits { (n : ℕ) → (tens ∷ ones ∷ []) ≡ two_digits n → result ≡ n }
{
    u32::from(tens.saturating_sub(b'0')) * 10 + u32::from(ones.saturating_sub(b'0'))
}

// The days from 1978-01-01 to the date with this year, month and day; `None` if the calendar has none from there on.
fn days_to(year: u32, month: u32, day: u32) -> Option<u32>
    ensures { (date : CivilDate) (days : ℕ) → IsYmd (pos year) (pos month) (pos day) date
        → IsCivilDay (days + DAYS_TO_1978) date → result ≡ Some days }
{
    if year > 9999 || month > 12 || day > 31 {
        return None;
    }
    let date = Date::new(year as i16, month as i8, day as i8).ok()?;
    let days = date.to_plain().to_unix_epoch_day() - DAYS_TO_1978 as i32;
    if days < 0 { None } else { Some(days as u32) }
}

// The days from 1978-01-01 to the date that is written so; of another text, any number or none.
fn days_written(text: &[u8]) -> Option<u32>
    ensures { (date : CivilDate) (days : ℕ) → pos 0 ≤ℤ date.year → text.now ≡ date_text date
        → IsCivilDay (days + DAYS_TO_1978) date → result ≡ Some days }
{
    let [y0, y1, y2, y3, _, m0, m1, _, d0, d1] = text else {
        return None;
    };
    days_to(
        number(*y0, *y1) * 100 + number(*y2, *y3),
        number(*m0, *m1),
        number(*d0, *d1),
    )
}

// The minutes and the ticks of the time that is written so; of another text, any numbers or none.
fn clock_written(text: &[u8]) -> Option<(u32, u32)>
    ensures { (s : StampValue) → text.now ≡ clock_text s → result ≡ Some (s.mins, s.ticks) }
{
    let [h0, h1, _, m0, m1, _, s0, s1, _, t0, t1] = text else {
        return None;
    };
    let mins = number(*h0, *h1) * 60 + number(*m0, *m1);
    let ticks = number(*s0, *s1) * 50 + number(*t0, *t1);
    Some((mins, ticks))
}

// The date of a civil text; of another text, any date or none.
fn stamp_written(text: &[u8]) -> Option<Stamp>
    ensures { (s : StampValue) → IsCivilText s text.now → result ≡ Some s }
{
    if text.len() != 22 {
        return None;
    }
    let days = days_written(&text[..10])?;
    let (mins, ticks) = clock_written(&text[11..])?;
    Some(Stamp { days, mins, ticks })
}

// Whether listings write a date so.
fn is_listed(alloc: Global, stamp: Stamp, text: &[u8]) -> Result<bool, AllocError>
    ensures yes { IfOk result (λ same. same ≡ true → IsStampText stamp text.now) }
    ensures no { IfOk result (λ same. same ≡ false → ¬ IsStampText stamp text.now) }
{
    let mut written = Vec::new(alloc);
    push_stamp(&mut written, stamp)?;
    Ok(written.as_slice() == text)
}

// The date that listings write so, if it has a civil text.
fn read_listed(alloc: Global, text: &[u8]) -> Result<Stamp, PathFault>
    ensures ok { IfOk result (λ s. IsStampText s text.now) }
    ensures bad { IfErr result (λ f. f ≡ PathFault.BadText → (s : StampValue) → is_civil s ≡ true
        → ¬ IsStampText s text.now) }
{
    let Some(stamp) = stamp_written(text) else {
        return Err(PathFault::BadText);
    };
    match is_listed(alloc, stamp, text) {
        Ok(true) => Ok(stamp),
        Ok(false) => Err(PathFault::BadText),
        Err(_) => Err(PathFault::NoMemory),
    }
}

/// The date that a text says. `BadText` if and only if it says none; `NoMemory` if an allocation fails.
#[tactic(auto, using(crate::proofs::ListedDates::no_said_date))]
pub fn said_date(alloc: Global, text: &[u8]) -> Result<Stamp, PathFault>
    ensures ok { IfOk result (λ s. SaysDate text.now s) }
    ensures bad { IfErr result (λ f. f ≡ PathFault.BadText → (s : StampValue) → ¬ SaysDate text.now s) }
{
    match read_stamp(text) {
        Some(stamp) => Ok(stamp),
        None => read_listed(alloc, text),
    }
}
