//! Snapshots that are mailed. Each comes twice, so that one copy serves both the answer and the seat's last snapshot.
ghost use Rattle.std.specs.Prelude.{◌≡◌, [], length, None, IfOk};
ghost use Rattle.std.specs.List.{All};

use board_seats::{Mailed, Named};
use fb_memory::Memory;
use fb_values::Entry;
use fb_view::Snapshot;
use std::alloc::Global;

/// Two equal snapshots.
#[derive(Drop)]
pub struct Letter {
    pub(crate) one: Snapshot,
    pub(crate) two: Snapshot,
    ghost same: { two ≡ one },
}

impl Named for Letter {
    ghost use Rattle.fb_conn.specs.Homes.{marks_by, follows};

    type Entry = Entry;

    type Origin = ();

    ghost entries = { λ letter. letter.one.entries };

    ghost authors = { λ _. [] };

    ghost marks = { λ letter. marks_by None letter.one.covered };

    ghost follows = { follows };

    ghost sound = { λ _. Unit {0} };

    ghost origin = { λ _. tt };

    fn basis(&self) -> u32 {
        self.one.basis()
    }
}

impl Mailed for Letter {
    fn share(&self) -> Result<Letter, Memory> {
        Letter::of(&self.one)
    }
}

impl Letter {
    /// Both copies, or none.
    pub(crate) fn of(snapshot: &Snapshot) -> Result<Letter, Memory>
        ensures { IfOk result (λ letter. letter.one ≡ snapshot.now) }
    {
        let one = snapshot.share()?;
        let two = snapshot.share()?;
        Ok(Letter { one, two })
    }
}

/// A letter with this snapshot for each of so many sessions.
pub(crate) fn letters_of(
    alloc: Global,
    snapshot: &Snapshot,
    sessions: u32,
) -> Result<Vec<Letter>, Memory>
    ensures count { IfOk result (λ letters. length letters.items ≡ sessions) }
    ensures letters { IfOk result
        (λ letters. All (λ letter. letter.one.entries ≡ snapshot.now.entries) letters.items) }
{
    let mut letters = Vec::with_capacity(alloc, sessions as usize)?;
    for _ in 0..sessions {
        letters.push_reserved(Letter::of(snapshot)?);
    }
    Ok(letters)
}
