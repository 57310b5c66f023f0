//! Points in time: where as-of and since cut a history, and the two ends of a range of the log.
ghost use Rattle.std.specs.Prelude.{◌≡◌, ◌+◌, MatchResult, Ok, Err};
ghost use Rattle.edn_form.specs.View.{form_of};
ghost use Rattle.edn_model.specs.Form.{integer};
ghost use Rattle.fb_model.specs.History.{basis};
ghost use Rattle.read_model.specs.Points.{t_of as model_t_of, end_of as model_end_of, point_in, bound_of as model_bound_of, start_of as model_start_of, stop_of as model_stop_of, log_range as model_log_range, bad_point as model_bad_point};
ghost use Rattle.read_model.specs.Components.{t_in};

use crate::instants::{count_before, count_upto};
use edn_form::Edn;
use fb_model::lawful_histories_are_counted_by_t;
use fb_numbers::{GREATEST_T, t_of_transaction};
use fb_view::Snapshot;
use read_model::points_agree;
use read_refusals::{Reason, Refusal};

/// The transactions from t `start` on and before t `stop`.
#[derive(Clone, Copy, Debug, PartialEq, Eq)]
pub struct LogRange {
    pub start: u32,
    pub stop: u32,
}

/// The end of the point that follows the command's word: the t after the last transaction up to it. An instant
/// costs a logarithm of the entries.
pub fn point(snapshot: &Snapshot, form: &Edn) -> Result<u32, Refusal>
    ensures { result ≡ point_in snapshot.now.entries (form_of form.now) }
{
    end_of(snapshot, form).ok_or(bad_point(1))
}

/// The range of the log that the two forms after the command's word give.
pub fn log_range(snapshot: &Snapshot, start: &Edn, stop: &Edn) -> Result<LogRange, Refusal>
    ensures { MatchResult result
        (λ range. model_log_range snapshot.now.entries (form_of start.now) (form_of stop.now)
        ≡ Ok (range.start, range.stop))
        (λ refusal. model_log_range snapshot.now.entries (form_of start.now) (form_of stop.now)
        ≡ Err refusal) }
{
    let start = start_of(snapshot, start).ok_or(bad_point(1))?;
    let stop = stop_of(snapshot, stop).ok_or(bad_point(2))?;
    Ok(LogRange { start, stop })
}

fn bad_point(at: usize) -> Refusal
    ensures { result ≡ model_bad_point at }
{
    Refusal {
        reason: Reason::BadPoint,
        at,
    }
}

fn end_of(snapshot: &Snapshot, form: &Edn) -> Option<u32>
    ensures { result ≡ model_end_of snapshot.now.entries (form_of form.now) }
{
    points_agree();
    match form {
        Edn::Int(n) => Some(t_of(*n)? + 1),
        Edn::Inst(millis) => Some(count_upto(snapshot, *millis)),
        _ => None,
    }
}

fn start_of(snapshot: &Snapshot, form: &Edn) -> Option<u32>
    ensures { result ≡ model_start_of snapshot.now.entries (form_of form.now) }
{
    match form {
        Edn::Nil => Some(1),
        _ => Some(bound_of(snapshot, form)?.max(1)),
    }
}

fn stop_of(snapshot: &Snapshot, form: &Edn) -> Option<u32>
    ensures { result ≡ model_stop_of snapshot.now.entries (form_of form.now) }
{
    match form {
        Edn::Nil => Some(log_end(snapshot)),
        _ => bound_of(snapshot, form),
    }
}

fn bound_of(snapshot: &Snapshot, form: &Edn) -> Option<u32>
    ensures { result ≡ model_bound_of snapshot.now.entries (form_of form.now) }
{
    match form {
        Edn::Int(n) => t_of(*n),
        Edn::Inst(millis) => Some(count_before(snapshot, *millis)),
        _ => None,
    }
}

/// The t after the last transaction.
fn log_end(snapshot: &Snapshot) -> u32
    ensures { result ≡ basis snapshot.now.entries + 1 }
{
    lawful_histories_are_counted_by_t();
    snapshot.entries().len()
}

/// The t that the number is, or of whose transaction it is the entity.
pub fn t_of(n: i64) -> Option<u32>
    ensures { result ≡ t_in (integer n) }
{
    let n = u64::try_from(n).ok()?;
    t_of_number(n)
}

fn t_of_number(n: u64) -> Option<u32>
    ensures { result ≡ model_t_of n }
{
    if n <= u64::from(GREATEST_T) {
        return Some(n as u32);
    }
    t_of_transaction(n)
}
