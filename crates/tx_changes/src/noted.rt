//! What is asked of triples, asking by asking.
ghost use Rattle.std.specs.Prelude.{◌≡◌};
ghost use Rattle.tx_changes.specs.Noted.{noted_cmp};

use std::cmp::Ordering;
use tx_asks::Asking;

/// How a form asks for a triple.
#[derive(Clone, Copy)]
pub enum AskedAs {
    /// To be added.
    Added,
    /// To be retracted, as a triple.
    Retracted,
    /// To be retracted, since a retraction of every value or of an entity finds it.
    Swept,
    /// To be retracted, since an addition gives its entity another value.
    Replaced,
}

/// A form asks a triple in this way.
#[derive(Drop)]
pub struct Noted {
    pub asking: Asking,
    pub way: AskedAs,
}

/// By the triple: entity, attribute and value.
pub fn cmp_triples(x: &Noted, y: &Noted) -> Ordering
    ensures { result ≡ noted_cmp x.now y.now }
{
    let (x, y) = (&x.asking, &y.asking);
    x.e.cmp(&y.e)
        .then_with(|| x.a.cmp(&y.a))
        .then_with(|| x.v.cmp(&y.v))
}
