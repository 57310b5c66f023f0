//! The text of an instant: a date and a time of day in UTC.
ghost use Rattle.std.specs.Prelude.{◌≡◌, ◌+◌, ◌%◌, ◌≤◌, pos, ◌-ℤ◌, OnOk};
ghost use Rattle.edn_model.specs.Form as model;
ghost use Rattle.edn_model.specs.Instants.{date_text, IsDate};
ghost use Rattle.edn_model.specs.Canon.{Canon};
ghost use Rattle.edn_print.specs.Printed.{Appends, KeepsFront, clock_text};
ghost use Rattle.edn_print.specs.Printable.{nearest};

use crate::token::append;
use fb_memory::Memory;
use jiff_core::civil::Date;

/// The milliseconds of a day.
const DAY: u64 = 86_400_000;

/// The first and the last instant that have a text.
const FIRST: i64 = -62_135_596_800_000;

const LAST: i64 = 253_402_300_799_999;

/// The days from -9999-01-01, where the calendar begins, to 0001-01-01.
const DAYS_BEFORE: u32 = 3_652_425;

/// An instant in milliseconds from 1970-01-01T00:00:00Z. One that has no text is printed as the nearest that has.
pub(crate) fn print_instant(out: &mut Vec<u8>, millis: i64) -> Result<(), Memory>
    ensures ok { OnOk result
        (Appends (Canon (model.instant (nearest millis))) out.old.items out.new.items) }
    ensures kept { KeepsFront out.old.items out.new.items }
{
    let since_first = millis.clamp(FIRST, LAST).abs_diff(FIRST);
    append(out, b"#inst \"")?;
    print_date(out, (since_first / DAY) as u32)?;
    append(out, b"T")?;
    append(out, &clock((since_first % DAY) as u32))?;
    append(out, b"-00:00\"")
}

/// The date that many days after 0001-01-01.
fn print_date(out: &mut Vec<u8>, days: u32) -> Result<(), Memory>
    requires { days ≤ 3652058 }
    ensures ok { OnOk result
        (Appends (IsDate (pos days -ℤ pos 719162)) out.old.items out.new.items) }
    ensures kept { KeepsFront out.old.items out.new.items }
{
    let date = Date::from_days_since_min(days + DAYS_BEFORE);
    let year = date.year.unsigned_abs();
    append(
        out,
        &civil(u32::from(year), u32::from(date.month), u32::from(date.day)),
    )
}

/// The text of a date.
fn civil(year: u32, month: u32, day: u32) -> [u8; 10]
    ensures { result ≡ date_text year month day }
{
    [
        digit(year / 10 / 10 / 10),
        digit(year / 10 / 10),
        digit(year / 10),
        digit(year),
        b'-',
        digit(month / 10),
        digit(month),
        b'-',
        digit(day / 10),
        digit(day),
    ]
}

/// The text of a time of day, in milliseconds from midnight.
fn clock(millis: u32) -> [u8; 12]
    ensures { result ≡ clock_text millis }
{
    let seconds = millis / 1000;
    let minutes = seconds / 60;
    let hour = minutes / 60;
    let minute = minutes % 60;
    let second = seconds % 60;
    [
        digit(hour / 10),
        digit(hour),
        b':',
        digit(minute / 10),
        digit(minute),
        b':',
        digit(second / 10),
        digit(second),
        b'.',
        digit(millis % 1000 / 10 / 10),
        digit(millis % 1000 / 10),
        digit(millis % 1000),
    ]
}

/// The last digit of a number.
fn digit(n: u32) -> u8
    ensures { result ≡ 48 + n % 10 }
{
    b'0' + (n % 10) as u8
}
