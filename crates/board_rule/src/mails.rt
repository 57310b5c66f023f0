//! The snapshots with which the mail slots begin.
ghost use Rattle.std.specs.Prelude.{◌≡◌, List, length};

use std::marker::Model;

/// A snapshot for each session, in their order. Contracts see the list of them.
#[derive(Drop)]
pub struct Mails<S: Drop> {
    snapshots: Vec<S>,
}

impl<S: Drop> Model for Mails<S> {
    ghost Value = { List S };

    ghost view = { λ m. m.snapshots.items };
}

impl<S: Drop> Mails<S> {
    pub fn of(snapshots: Vec<S>) -> Mails<S>
        ensures { result ≡ snapshots.items }
    {
        Mails { snapshots }
    }

    pub fn len(&self) -> usize
        ensures { result ≡ length self.now }
    {
        self.snapshots.len()
    }

    pub fn into_vec(self) -> Vec<S>
        ensures { result.items ≡ self }
    {
        self.snapshots
    }
}
