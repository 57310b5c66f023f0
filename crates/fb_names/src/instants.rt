//! How many entries of a history are early: before an instant, or up to one.
ghost use Rattle.std.specs.Prelude.{◌≡◌};
ghost use Rattle.view_model.specs.Window.{end_of_instant};
ghost use Rattle.read_model.specs.Points.{count_before as model_count_before};
ghost use Rattle.fb_model.specs.Lawful.{IsLawful};
ghost use Rattle.fb_names.specs.Early.{is_early, count_early};

use fb_history::EntryList;
use fb_view::Snapshot;

/// Which instants are early.
#[derive(Clone, Copy)]
pub enum Early {
    Before(i64),
    UpTo(i64),
}

impl Early {
    fn has(self, instant: i64) -> bool
        ensures { result ≡ is_early self instant }
    {
        match self {
            Early::Before(end) => instant < end,
            Early::UpTo(end) => instant <= end,
        }
    }
}

/// How many transactions were recorded before the instant.
pub fn count_before(snapshot: &Snapshot, instant: i64) -> u32
    ensures { result ≡ model_count_before snapshot.now.entries instant }
{
    count_early(snapshot.entries(), Early::Before(instant))
}

/// How many transactions were recorded up to the instant.
pub fn count_upto(snapshot: &Snapshot, instant: i64) -> u32
    ensures { result ≡ end_of_instant snapshot.now.entries instant }
{
    count_early(snapshot.entries(), Early::UpTo(instant))
}

/// How many entries are early. Instants rise, so they are the first ones, and a search finds the end of them.
fn count_early(entries: &EntryList, early: Early) -> u32
    requires { IsLawful entries.now }
    ensures { result ≡ count_early entries.now early }
{
    let mut from = 0;
    let mut to = entries.len();
    while from < to {
        let middle = from + (to - from) / 2;
        if early.has(entries.at(middle).instant) {
            from = middle + 1;
        } else {
            to = middle;
        }
    }
    from
}
