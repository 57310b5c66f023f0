//! What several benchmarks share: counts, numbers in no order, and live indexes of sample datoms.
ghost use Rattle.std.specs.Prelude.{◌≡◌, [], IfOk};
ghost use Rattle.live_index.specs.Samples.{adds, AreSamples};
ghost use Rattle.bench.specs.Rising.{LiveRises};

use fb_covers::Covers;
use fb_memory::Memory;
use fb_values::{Datom, Value};
use live_index::Live;
use std::alloc::Global;

/// The number that a word is.
pub(crate) fn number(word: &str) -> Option<u32> {
    word.parse::<u32>().ok()
}

/// Numbers below a limit, of an even spread and in no order.
#[derive(Drop)]
pub(crate) struct Draws {
    state: u64,
    below: u32,
}

impl Draws {
    pub(crate) fn below(below: u32) -> Draws {
        Draws {
            state: 1,
            below: below.max(1),
        }
    }

    /// One step of a linear congruence, whose upper half is of an even spread.
    pub(crate) fn next(&mut self) -> u32 {
        self.state = self
            .state
            .wrapping_mul(6_364_136_223_846_793_005)
            .wrapping_add(1_442_695_040_888_963_407);
        ((self.state >> 33) % u64::from(self.below.max(1))) as u32
    }
}

/// A datom whose sign follows from its transaction, so that no two differ in that alone.
pub(crate) fn sample(e: u64, a: u64, v: Value, t: u32) -> Datom
    ensures { result.added ≡ adds result.t }
{
    Datom {
        e,
        a,
        v,
        t,
        added: t % 4 != 3,
    }
}

pub(crate) fn no_samples(alloc: Global) -> Vec<Datom>
    ensures { AreSamples result.items }
{
    Vec::new(alloc)
}

pub(crate) fn pushed(mut list: Vec<Datom>, datom: Datom) -> Result<Vec<Datom>, Memory>
    requires list { AreSamples list.items }
    requires datom { datom.added ≡ adds datom.t }
    ensures { IfOk result (λ v. AreSamples v.items) }
{
    list.push(datom)?;
    Ok(list)
}

/// The index of these datoms.
pub(crate) fn live_of(alloc: Global, covers: &Covers, samples: &[Datom]) -> Result<Live, Memory>
    requires { AreSamples samples.now }
    ensures { IfOk result (λ live. LiveRises live) }
{
    Live::empty(alloc).made_anew(samples, covers, covers, &[])
}
