//! The latest numbers of a history: all that the first three laws ask of it.
ghost use Rattle.std.specs.Prelude.{◌≡◌, [], ◌∷◌, ◌++◌, List, max};
ghost use Rattle.fb_values.specs.declared.facts.Entry.{Entry};
ghost use Rattle.fb_model.specs.History.{users_in};
ghost use Rattle.tx_laws.specs.Own.{IsLatestOf};

use fb_facts::Facts;
use fb_numbers::user_number;
use fb_values::{Datom, Entry};

/// The latest numbers of a history.
#[derive(Drop)]
pub struct Latest {
    /// The t of the last entry.
    pub basis: u32,
    /// The instant of the last entry.
    pub instant: i64,
    /// The greatest n of a user entity that is the entity of a datom, or 0.
    pub issued: u64,
}

impl Latest {
    /// Where there is no entry.
    pub fn none() -> Latest
        ensures { IsLatestOf result [] }
    {
        Latest {
            basis: 0,
            instant: 0,
            issued: 0,
        }
    }

    pub(crate) fn of<F: Facts>(facts: &F) -> Latest
        ensures { IsLatestOf result (F.history facts.now) }
    {
        Latest {
            basis: facts.basis(),
            instant: facts.last_instant(),
            issued: facts.issued(),
        }
    }

    /// Where the entry is one more.
    pub fn with(&self, entry: &Entry) -> Latest
        ensures { (h : List Entry) → IsLatestOf self.now h
            → IsLatestOf result (h ++ entry.now ∷ []) }
    {
        Latest {
            basis: entry.t,
            instant: entry.instant,
            issued: greatest_user(self.issued, entry.datoms.as_slice()),
        }
    }
}

/// The greater one of a user number and those of the datoms' entities.
fn greatest_user(least: u64, datoms: &[Datom]) -> u64
    ensures { result ≡ max least (users_in datoms.now) }
{
    let mut users = least;
    for d in datoms {
        users = users.max(user_number(d.e));
    }
    users
}
