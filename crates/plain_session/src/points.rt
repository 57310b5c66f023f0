//! Points in time: the ends that as-of and since take, and those of a range of the log.
use crate::stops::{ReadStop, or_refused};
use edn_form::Edn;
use fb_numbers::{GREATEST_T, TRANSACTIONS};
use fb_values::Entry;
use plain_reads::{basis, end_of_instant, end_of_number};

const BAD_POINT: &str = "read/bad-point";

/// The t after the last transaction up to the point.
pub(crate) fn end_of(entries: &[Entry], point: &Edn) -> Result<u64, ReadStop> {
    let end = match point {
        Edn::Int(n) => u64::try_from(*n).ok().and_then(|n| end_of_number(n)),
        Edn::Inst(millis) => Some(end_of_instant(entries, *millis) as u64),
        _ => None,
    };
    or_refused(end, BAD_POINT, 1)
}

/// The t that an integer is, or of which it is the transaction's entity.
pub(crate) fn t_in(form: &Edn) -> Option<u32> {
    let Edn::Int(n) = form else {
        return None;
    };
    let n = u64::try_from(*n).ok()?;
    let t = n.checked_sub(TRANSACTIONS).unwrap_or(n);
    let t = u32::try_from(t).ok()?;
    if t <= GREATEST_T { Some(t) } else { None }
}

/// The t to begin with and the one to stop before.
pub(crate) fn log_range(
    entries: &[Entry],
    start: &Edn,
    stop: &Edn,
) -> Result<(u64, u64), ReadStop> {
    let start = match start {
        Edn::Nil => Some(1),
        _ => bound(entries, start),
    };
    let stop = match stop {
        Edn::Nil => Some(u64::from(basis(entries)) + 1),
        _ => bound(entries, stop),
    };
    Ok((
        or_refused(start, BAD_POINT, 1)?,
        or_refused(stop, BAD_POINT, 2)?,
    ))
}

/// An instant stands for the number of transactions before it.
fn bound(entries: &[Entry], point: &Edn) -> Option<u64> {
    match point {
        Edn::Inst(millis) => Some(count_before(entries, *millis)),
        _ => t_in(point).map(u64::from),
    }
}

fn count_before(entries: &[Entry], instant: i64) -> u64 {
    entries
        .iter()
        .filter(|entry| entry.instant < instant)
        .count() as u64
}
