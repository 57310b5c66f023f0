//! A law of histories: the function has an empty body, and its contract is the law.
ghost use Rattle.std.specs.Prelude.{◌≡◌, ℕ, ◌<◌, List, IsTrue, Some, slice_get, int_lt};
ghost use Rattle.fb_values.specs.declared.facts.Entry.{Entry};
ghost use Rattle.fb_model.specs.Lawful.{IsLawful};

/// In a lawful history each entry's instant is above those of the entries before it.
pub fn instants_rise()
    ensures { (h : List Entry) (i j : ℕ) (x y : Entry) → IsLawful h → i < j → slice_get h i ≡ Some x
        → slice_get h j ≡ Some y → IsTrue (int_lt x.instant y.instant) }
{}
