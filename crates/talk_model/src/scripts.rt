//! Scripts.
ghost use Rattle.std.specs.Prelude.{◌≡◌, ℕ, List, [], ◌++◌};
ghost use Rattle.edn_model.specs.Form.{Form};
ghost use Rattle.talk_model.specs.Script.{Ending, whole, Script, Begins};

/// Bytes are one script, with one ending, and what a script begins with are its first forms.
pub fn a_script_has_one_reading()
    ensures forms { (bytes : List ℕ) (fs gs : List Form) (a b : Ending)
        → Script bytes fs a → Script bytes gs b → fs ≡ gs }
    ensures endings { (bytes : List ℕ) (fs gs : List Form) (a b : Ending)
        → Script bytes fs a → Script bytes gs b → a ≡ b }
    ensures first_forms { (bytes : List ℕ) (fs gs : List Form) (a : Ending)
        → Begins bytes fs → Script bytes gs a → (more : List Form) × (gs ≡ fs ++ more) }
{}

/// A script may be empty.
pub fn empty_script()
    ensures { Script [] [] whole }
{}
