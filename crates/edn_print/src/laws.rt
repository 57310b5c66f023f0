//! What a canonical text is worth to a reader. The functions here are laws: each has an empty body, and its contract is
//! what is proved.
ghost use Rattle.std.specs.Prelude.{◌≡◌, ℕ, ◌+◌, ◌++◌, List, length};
ghost use Rattle.edn_model.specs.Form.{Form};
ghost use Rattle.edn_model.specs.Bytes.{TokenEnds};
ghost use Rattle.edn_model.specs.Readable.{IsReadable};
ghost use Rattle.edn_model.specs.Canon.{Canon};
ghost use Rattle.edn_model.specs.Grammar.{Text, FormAt, max_depth};

/// Each form that a reader can give has one canonical text, and no form has two.
pub fn one_canonical_text()
    ensures exists { (depth : ℕ) (f : Form) → IsReadable depth f → (text : List ℕ) × Canon f text }
    ensures one { (f : Form) (a b : List ℕ) → Canon f a → Canon f b → a ≡ b }
{}

/// It is a text of the form and of no other, wherever a token may end after it.
pub fn text_of_one_form()
    ensures text { (depth : ℕ) (f : Form) (text rest : List ℕ) → IsReadable depth f → Canon f text
        → TokenEnds rest → Text depth f (text ++ rest) rest }
    ensures no_other { (depth other : ℕ) (f g : Form) (text rest after : List ℕ)
        → IsReadable depth f → Canon f text → TokenEnds rest → Text other g (text ++ rest) after
        → (g ≡ f) × (after ≡ rest) }
{}

/// Read from its first byte on, it gives the form and the place after it.
pub fn reads_as_printed()
    ensures stands { (f : Form) (before text rest : List ℕ) → IsReadable max_depth f → Canon f text
        → TokenEnds rest
        → FormAt (before ++ (text ++ rest)) (length before) f (length before + length text) }
    ensures alone { (f g : Form) (before text rest : List ℕ) (next : ℕ) → IsReadable max_depth f
        → Canon f text → TokenEnds rest
        → FormAt (before ++ (text ++ rest)) (length before) g next
        → (g ≡ f) × (next ≡ length before + length text) }
{}
