//! Who wrote the entries.
ghost use Rattle.std.specs.Prelude.{◌≡◌, ◌<◌, ◌^◌, ◌-◌, [], ◌∷◌, ◌++◌, length, slice_get, IfOk, Some};

use fb_chunks::{ChunkList, Share};
use fb_memory::Memory;
use std::alloc::Global;
use std::marker::Model;

/// The sessions that wrote the entries from t = 1 on, in their order.
#[derive(Drop)]
pub struct Authors {
    alloc: Global,
    /// None while nobody has written, so that an empty list takes no memory.
    sessions: Option<ChunkList<u32>>,
}

impl Model for Authors {
    ghost use Rattle.std.specs.Prelude.{ℕ, List, [], length, ◌<◌, ◌^◌, unwrap_or};

    ghost Value = { List ℕ };

    ghost view = { λ a. unwrap_or a.sessions [] };

    ghost invariant = { λ a. length (unwrap_or a.sessions []) < 2 ^ 32 };
}

impl Authors {
    /// Nobody. It takes no memory.
    pub fn new(alloc: Global) -> Authors
        ensures { result ≡ [] }
    {
        Authors {
            alloc,
            sessions: None,
        }
    }

    pub fn len(&self) -> u32
        ensures { result ≡ length self.now }
    {
        match &self.sessions {
            Some(sessions) => sessions.len() as u32,
            None => 0,
        }
    }

    pub fn at(&self, place: u32) -> u32
        requires { place < length self.now }
        ensures { slice_get self.now place ≡ Some result }
    {
        match &self.sessions {
            Some(sessions) => *sessions.at(place as usize),
            None => unreachable!(),
        }
    }

    /// The list with one more author at its end.
    pub fn with(&self, author: u32) -> Result<Authors, Memory>
        requires { length self.now < 2 ^ 32 - 1 }
        ensures { IfOk result (λ a. a ≡ self.now ++ author ∷ []) }
    {
        let sessions = match &self.sessions {
            Some(sessions) => sessions.with(author)?,
            None => ChunkList::new(self.alloc)?.with(author)?,
        };
        Ok(Authors {
            alloc: self.alloc,
            sessions: Some(sessions),
        })
    }

    /// The same list, at the cost of a few reference counts.
    pub fn share(&self) -> Result<Authors, Memory>
        ensures { IfOk result (λ a. a ≡ self.now) }
    {
        let sessions = match &self.sessions {
            Some(sessions) => Some(sessions.share()?),
            None => None,
        };
        Ok(Authors {
            alloc: self.alloc,
            sessions,
        })
    }
}
