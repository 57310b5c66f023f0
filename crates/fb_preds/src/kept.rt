//! A closure as a filter.
ghost use Rattle.std.specs.Prelude.{◌≡◌, true, false};
ghost use Rattle.fb_preds.specs.Datoms.{IsDatom};

use crate::ranges::numbers_in_range;
use crate::selector::Selector;
use fb_values::Datom;

/// A closure that answers of a datom whether it is selected.
pub type BoxedTest = Box<dyn Fn(&Datom) -> bool + Send + Sync>;

/// A closure that may be called on every datom, and gives no datom both answers. It selects a datom where it may answer true.
#[derive(Drop)]
pub struct Kept {
    answers: BoxedTest,
    ghost callable: { (x : _) → IsDatom x.now → BoxedTest.pre answers x },
    ghost one_answer: { (x y : _) → x.now ≡ y.now → IsDatom x.now → BoxedTest.post answers x true → BoxedTest.post answers y false → ⊥ },
}

impl Kept {
    /// Takes no memory: the caller has boxed the closure.
    pub fn new(answers: BoxedTest) -> Kept
        requires callable { (x : _) → IsDatom x.now → BoxedTest.pre answers x }
        requires one_answer { (x y : _) → x.now ≡ y.now → IsDatom x.now
            → BoxedTest.post answers x true → BoxedTest.post answers y false → ⊥ }
        ensures { result.answers ≡ answers }
    {
        Kept { answers }
    }
}

impl Selector for Kept {
    ghost selects = { λ kept d. (x : _) × (x.now ≡ d) × BoxedTest.post kept.answers x true };

    fn test(&self, d: &Datom) -> bool {
        numbers_in_range(d);
        (self.answers)(d)
    }
}
