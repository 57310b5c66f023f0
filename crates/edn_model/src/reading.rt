//! Next in a text comes one form, or the end, or one fault at one byte, and no two of them.
ghost use Rattle.std.specs.Prelude.{◌≡◌, ℕ, ◌<◌, true, false, List, ◌∷◌};
ghost use Rattle.edn_model.specs.Form.{Form};
ghost use Rattle.edn_model.specs.Bytes.{may_begin_token};
ghost use Rattle.edn_model.specs.Likeness.{alike};
ghost use Rattle.edn_model.specs.Grammar.{IsWholeTextOf, FormAt, OnlyGap};
ghost use Rattle.edn_model.specs.Faults.{Fault, IsNoToken, FaultAt};

/// A text is the text of one form.
pub fn one_form()
    ensures { (bytes : List ℕ) (f g : Form) → IsWholeTextOf f bytes → IsWholeTextOf g bytes
        → f ≡ g }
{}

/// After a place comes one form at most, and its text ends at one place.
pub fn one_next()
    ensures { (bytes : List ℕ) (at : ℕ) (f g : Form) (m n : ℕ) →
        FormAt bytes at f m → FormAt bytes at g n → (f ≡ g) × (m ≡ n) }
{}

/// No form comes where white space, comments and discards alone remain.
pub fn no_form_in_a_gap()
    ensures { (bytes : List ℕ) (at : ℕ) (f : Form) (next : ℕ) → OnlyGap bytes at
        → ¬ FormAt bytes at f next }
{}

/// Each form is alike to itself.
pub fn alike_itself()
    ensures { (f : Form) → alike f f ≡ true }
{}

/// No fault comes where a form does.
pub fn no_fault_at_a_form()
    ensures { (bytes : List ℕ) (at : ℕ) (f : Form) (next : ℕ) (fault : Fault) (byte : ℕ) →
        FormAt bytes at f next → ¬ FaultAt bytes at fault byte }
{}

/// No fault comes where white space, comments and discards alone remain.
pub fn no_fault_in_a_gap()
    ensures { (bytes : List ℕ) (at : ℕ) (fault : Fault) (byte : ℕ) → OnlyGap bytes at
        → ¬ FaultAt bytes at fault byte }
{}

/// After a place stands one fault at most, and it is at one byte.
pub fn one_fault()
    ensures { (bytes : List ℕ) (at : ℕ) (a b : Fault) (m n : ℕ) →
        FaultAt bytes at a m → FaultAt bytes at b n → (a ≡ b) × (m ≡ n) }
{}

/// With each byte of ASCII that may begin a token one begins, whether it is a form's or unsupported; with no other byte does
/// one, whatever follows.
pub fn tokens_begin()
    ensures some { (b : ℕ) → b < 128 → may_begin_token b ≡ true
        → (more : List ℕ) × ¬ IsNoToken (b ∷ more) }
    ensures none { (b : ℕ) (more : List ℕ) → may_begin_token b ≡ false → IsNoToken (b ∷ more) }
{}
