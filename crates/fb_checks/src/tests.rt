//! What checks are made of.
ghost use Rattle.std.specs.Prelude.{◌≡◌};
ghost use Rattle.fb_checks.specs.Checks.{is_empty_text as model_is_empty_text};

use crate::check::{BoxedCheck, Check};
use crate::kept::KeptCheck;
use fb_text::Text;
use fb_values::{Datom, Value};

/// A test of datoms. Callers store an `S`, or a closure, which is kept as a `K`.
#[derive(Drop)]
pub enum Test<S, K> {
    /// Every value but a string without a character.
    NotEmpty,
    /// What a caller has stored.
    Stored(S),
    /// A closure that a caller has stored.
    Closure(K),
}

/// The test that each added value of an attribute has to pass.
#[derive(Drop)]
pub struct AttrTest<T> {
    /// The attribute's name, which is a keyword without its colon.
    pub attr: Text,
    pub test: T,
}

/// An entity that has a value of the marker has to have one of the needed attribute. Both are names.
#[derive(Drop)]
pub struct Need {
    pub marker: Text,
    pub needed: Text,
}

impl Check for Test<BoxedCheck, KeptCheck> {
    ghost use Rattle.fb_checks.specs.Checks.{passes_test};
    ghost use Rattle.fb_checks.specs.Decided.{passes_of};

    ghost passes = { λ test. passes_test (λ s. (Check-box s).passes s.value)
        (λ kept. passes_of kept.decided) test };

    fn test(&self, d: &Datom) -> bool {
        match self {
            Test::NotEmpty => !is_empty_text(&d.v),
            Test::Stored(s) => s.test(d),
            Test::Closure(kept) => kept.test(d),
        }
    }
}

fn is_empty_text(v: &Value) -> bool
    ensures { result ≡ model_is_empty_text v.now }
{
    match v {
        Value::Str(text) => text.len() == 0,
        _ => false,
    }
}
