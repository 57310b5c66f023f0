//! A text that is short enough to lie in the value itself.
ghost use Rattle.std.specs.Prelude.{◌≡◌, ℕ, ◌≤◌, length, take, IsUtf8};

use std::marker::Model;
use std::str;

/// The longest text that lies in the value itself, in bytes. With its length and the tag of `Text` it fills three words,
/// so that a value of the database takes no more room than it does for its numbers.
pub const SHORT: usize = 22;

/// UTF-8 text of at most `SHORT` bytes, at the beginning of its room.
#[derive(Drop)]
pub struct Short {
    len: u8,
    room: [u8; SHORT],
}

impl Model for Short {
    ghost use Rattle.std.specs.Prelude.{◌≤◌, ℕ, List, take, IsUtf8};
    ghost use Rattle.fb_text.specs.declared.short.TheConstants.{SHORT};

    ghost Value = { List ℕ };

    ghost view = { λ s. take s.len s.room };

    ghost invariant = { λ s. (s.len ≤ SHORT) × ∥ IsUtf8 (take s.len s.room) ∥₁ };
}

impl Short {
    pub fn of(s: &str) -> Short
        requires { length s.now ≤ SHORT }
        ensures { result ≡ s.now }
    {
        let mut room = [0; SHORT];
        room[..s.len()].copy_from_slice(s.as_bytes());
        Short {
            len: s.len() as u8,
            room,
        }
    }

    pub fn as_str(&self) -> &str
        ensures { result.now ≡ self.now }
    {
        unsafe { str::from_utf8_unchecked(&self.room[..self.len as usize]) }
    }

    pub fn copy(&self) -> Short
        ensures { result ≡ self.now }
    {
        Short {
            len: self.len,
            room: self.room,
        }
    }
}
