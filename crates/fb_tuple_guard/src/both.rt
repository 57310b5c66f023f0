//! Two guards as one.
use fb_facts::Facts;
use fb_memory::Memory;
use fb_values::Datom;
use tx_refusals::Bar;
use tx_step::Guard;

/// Bars by the first guard's rule, or else by the second's.
#[derive(Drop)]
pub struct Both<A, B> {
    first: A,
    second: B,
}

impl<A, B> Both<A, B> {
    ghost use Rattle.std.specs.Prelude.{◌≡◌};

    pub fn new(first: A, second: B) -> Both<A, B>
        ensures first { result.first ≡ first }
        ensures second { result.second ≡ second }
    {
        Both { first, second }
    }
}

impl<F: Facts, A: Guard<F>, B: Guard<F>> Guard<F> for Both<A, B> {
    ghost use Rattle.tuple_model.specs.UniqueTuples.{both};

    ghost bars = { λ g. both (A.bars g.first) (B.bars g.second) };

    fn judge(&self, before: &F, changes: &[Datom]) -> Result<Option<Bar>, Memory> {
        match self.first.judge(before, changes)? {
            Some(bar) => Ok(Some(bar)),
            None => self.second.judge(before, changes),
        }
    }
}
