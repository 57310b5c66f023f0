//! Text, wherever its bytes lie.
ghost use Rattle.std.specs.Prelude.{◌≡◌, length, IfOk};

use crate::short::{SHORT, Short};
use fb_memory::Memory;
use std::alloc::Global;
use std::marker::Model;
use std::sync::ArcStr;

/// UTF-8 text. A short one lies in the value itself; the copies of a longer one share its bytes.
#[derive(Drop)]
pub struct Text {
    kept: Repr,
}

#[derive(Drop)]
enum Repr {
    Here(Short),
    Shared(ArcStr),
}

impl Model for Text {
    ghost use Rattle.std.specs.Prelude.{ℕ, List};
    ghost use Rattle.fb_text.specs.Texts.{bytes_of};

    ghost Value = { List ℕ };

    ghost view = { λ t. bytes_of t.kept };
}

impl Text {
    /// The text of these bytes, which are copied.
    pub fn of(alloc: Global, s: &str) -> Result<Text, Memory>
        ensures { IfOk result (λ t. t ≡ s.now) }
    {
        let kept = if s.len() <= SHORT {
            Repr::Here(Short::of(s))
        } else {
            Repr::Shared(ArcStr::from_str(alloc, s)?)
        };
        Ok(Text { kept })
    }

    pub fn as_str(&self) -> &str
        ensures { result.now ≡ self.now }
    {
        match &self.kept {
            Repr::Here(short) => short.as_str(),
            Repr::Shared(text) => text.as_str(),
        }
    }

    /// In bytes.
    pub fn len(&self) -> usize
        ensures { result ≡ length self.now }
    {
        self.as_str().len()
    }

    /// The same text, whose bytes are shared unless they are few.
    pub fn copy(&self) -> Result<Text, Memory>
        ensures { IfOk result (λ t. t ≡ self.now) }
    {
        let kept = match &self.kept {
            Repr::Here(short) => Repr::Here(short.copy()),
            Repr::Shared(text) => Repr::Shared(text.clone()?),
        };
        Ok(Text { kept })
    }
}
