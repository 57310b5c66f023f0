//! A closure as a test.
ghost use Rattle.std.specs.Prelude.{◌≡◌, ◌↔◌, Bool, true, false, IsTrue};
ghost use Rattle.fb_values.specs.declared.facts.Datom.{Datom as TheDatom};
ghost use Rattle.fb_preds.specs.Datoms.{IsDatom};
ghost use Rattle.fb_checks.specs.Decided.{Decided};

use crate::check::Check;
use crate::ranges::numbers_in_range;
use fb_values::Datom;

/// A closure that answers of a datom whether it passes.
pub type BoxedTest = Box<dyn Fn(&Datom) -> bool + Send + Sync>;

/// Names what a closure answers.
pub trait Answers {
    /// The answer of each datom.
    ghost says: { TheDatom → Bool };
}

/// A closure that may be called on every datom, gives no datom both answers, and whose answers are those of a function.
#[derive(Drop)]
pub struct KeptCheck {
    answers: BoxedTest,
    ghost callable: { (x : _) → IsDatom x.now → BoxedTest.pre answers x },
    ghost one_answer: { (x y : _) → x.now ≡ y.now → IsDatom x.now → BoxedTest.post answers x true → BoxedTest.post answers y false → ⊥ },
    ghost decided: { ∥ Decided (λ d. (x : _) × (x.now ≡ d) × BoxedTest.post answers x true) ∥₁ },
}

impl KeptCheck {
    /// A closure that answers what `M` says. Takes no memory: the caller has boxed the closure.
    pub fn new<M: Answers>(answers: BoxedTest) -> KeptCheck
        requires callable { (x : _) → IsDatom x.now → BoxedTest.pre answers x }
        requires no_other { (x : _) (b : _) → IsDatom x.now → BoxedTest.post answers x b
            → b ≡ M.says x.now }
        requires passing { (x : _) → IsDatom x.now → IsTrue (M.says x.now)
            → BoxedTest.post answers x true }
        ensures answers { result.answers ≡ answers }
        ensures passes { (d : TheDatom) → IsDatom d
            → ⟦<KeptCheck as Check>⟧.passes result d ≡ M.says d }
    {
        let kept = KeptCheck { answers };
        kept.passes_what::<M>();
        kept
    }

    /// It passes what `M` says, where its closure answers that.
    fn passes_what<M: Answers>(&self)
        requires no_other { (x : _) (b : _) → IsDatom x.now → BoxedTest.post self.now.answers x b
            → b ≡ M.says x.now }
        requires passing { (x : _) → IsDatom x.now → IsTrue (M.says x.now)
            → BoxedTest.post self.now.answers x true }
        ensures { (d : TheDatom) → IsDatom d
            → ⟦<KeptCheck as Check>⟧.passes self.now d ≡ M.says d }
    {}

    fn answer(&self, d: &Datom) -> bool
        ensures held { IsDatom d.now }
        ensures answer { IsTrue result
            ↔ (x : _) × (x.now ≡ d.now) × BoxedTest.post self.now.answers x true }
    {
        numbers_in_range(d);
        (self.answers)(d)
    }
}

impl Check for KeptCheck {
    ghost use Rattle.fb_checks.specs.Decided.{passes_of};

    ghost passes = { λ kept. passes_of kept.decided };

    fn test(&self, d: &Datom) -> bool {
        self.answer(d)
    }
}
