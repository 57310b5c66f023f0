//! What a line says.
ghost use Rattle.std.specs.Prelude.{◌≡◌, ℕ, List, [], ◌∷◌, ◌++◌, codes};
ghost use Rattle.edn_model.specs.Form.{Form, symbol};
ghost use Rattle.edn_model.specs.Faults.{bad, cut};
ghost use Rattle.talk_model.specs.Samples.{said};
ghost use Rattle.live_model.specs.Readings.{Ending, whole, fault, Says, SaysFirst};

/// A line has one reading, and what it begins with are its first forms.
pub fn a_line_has_one_reading()
    ensures forms { (line : List ℕ) (fs gs : List Form) (a b : Ending)
        → Says line fs a → Says line gs b → fs ≡ gs }
    ensures endings { (line : List ℕ) (fs gs : List Form) (a b : Ending)
        → Says line fs a → Says line gs b → a ≡ b }
    ensures first_forms { (line : List ℕ) (fs gs : List Form) (a : Ending)
        → SaysFirst line fs → Says line gs a → (more : List Form) × (gs ≡ fs ++ more) }
{}

/// A line may have no form, or several.
pub fn lines_that_are_whole()
    ensures empty { Says [] [] whole }
    ensures comment { Says (codes "; so far") [] whole }
    ensures two { Says (codes "[:db] [:sync]")
        (said (codes "db") [] ∷ said (codes "sync") [] ∷ []) whole }
    ensures carriage_return { Says (codes "[:db]\r") (said (codes "db") [] ∷ []) whole }
{}

/// Nothing is read behind a fault. A line feed inside a string leaves two lines, each with a fault.
pub fn faults_that_end_a_line()
    ensures in_the_middle { Says (codes "[:db] ] [:sync]") (said (codes "db") [] ∷ [])
        (fault bad 6) }
    ensures before_a_line_feed { Says (codes "\"x") [] (fault cut 2) }
    ensures behind_a_line_feed { Says (codes "y\"") (symbol (codes "y") ∷ []) (fault cut 2) }
    ensures unclosed { Says (codes "[:db") [] (fault cut 4) }
{}
