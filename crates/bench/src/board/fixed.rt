//! A history of one entry, to which nothing is added, and its snapshot.
ghost use Rattle.std.specs.Prelude.{◌≡◌, [], ◌∷◌, length, IfOk};

use board_rule::{Mailed, Named};
use fb_memory::Memory;
use std::alloc::Global;
use std::sync::ArcStr;

/// The value of slot 0, as small as a counter under a lock.
#[derive(Drop)]
pub struct Fixed {
    pub counter: u64,
}

impl Named for Fixed {
    ghost use Rattle.board_rule.specs.Views.{unmarked};

    type Entry = u32;

    type Origin = u64;

    ghost entries = { λ h. 0 ∷ [] };

    ghost authors = { λ h. [] };

    ghost marks = { λ h. unmarked };

    ghost follows = { λ l e. Unit {0} };

    ghost sound = { λ h. Unit {0} };

    ghost origin = { λ h. h.counter };

    fn basis(&self) -> u32 {
        0
    }
}

/// A snapshot, which takes one reference count to share.
#[derive(Drop)]
pub struct Sheet {
    pub text: ArcStr,
}

impl Named for Sheet {
    ghost use Rattle.board_rule.specs.Views.{unmarked};

    type Entry = u32;

    type Origin = ();

    ghost entries = { λ s. 0 ∷ [] };

    ghost authors = { λ s. [] };

    ghost marks = { λ s. unmarked };

    ghost follows = { λ l e. Unit {0} };

    ghost sound = { λ s. Unit {0} };

    ghost origin = { λ s. tt };

    fn basis(&self) -> u32 {
        0
    }
}

impl Mailed for Sheet {
    fn share(&self) -> Result<Sheet, Memory> {
        Ok(Sheet {
            text: self.text.clone()?,
        })
    }
}

/// That many snapshots.
pub fn sheets(alloc: Global, count: u32) -> Result<Vec<Sheet>, Memory>
    ensures { IfOk result (λ v. length v.items ≡ count) }
{
    let mut sheets = Vec::new(alloc);
    for _ in 0..count {
        sheets.push(Sheet {
            text: ArcStr::from_str(alloc, "snapshot")?,
        })?;
    }
    Ok(sheets)
}
