//! The canonical text of a token is a text of it, before the end or a byte that ends a token.
ghost use Rattle.std.specs.Prelude.{◌++◌, ℕ, ℤ, Bool, List, IsUtf8};
ghost use Rattle.edn_model.specs.Form as form;
ghost use Rattle.edn_model.specs.Bytes.{TokenEnds};
ghost use Rattle.edn_model.specs.Tokens.{IsLong, IsSymbol, IsKeyword};
ghost use Rattle.edn_model.specs.Grammar.{Text};
ghost use Rattle.edn_model.specs.Canon.{Canon};

/// A string's text is one whatever follows it.
pub fn strings()
    ensures { (depth : ℕ) (s bytes rest : List ℕ) → IsUtf8 s → Canon (form.string s) bytes
        → Text depth (form.string s) (bytes ++ rest) rest }
{}

/// The words, symbols and keywords.
pub fn words()
    ensures nil { (depth : ℕ) (bytes rest : List ℕ) → Canon form.nil bytes → TokenEnds rest
        → Text depth form.nil (bytes ++ rest) rest }
    ensures boolean { (depth : ℕ) (b : Bool) (bytes rest : List ℕ) → Canon (form.boolean b) bytes
        → TokenEnds rest → Text depth (form.boolean b) (bytes ++ rest) rest }
    ensures symbol { (depth : ℕ) (s bytes rest : List ℕ) → IsSymbol s → Canon (form.symbol s) bytes
        → TokenEnds rest → Text depth (form.symbol s) (bytes ++ rest) rest }
    ensures keyword { (depth : ℕ) (k bytes rest : List ℕ) → IsKeyword k
        → Canon (form.keyword k) bytes → TokenEnds rest
        → Text depth (form.keyword k) (bytes ++ rest) rest }
{}

/// An integer of 64 bits.
pub fn integers()
    ensures { (depth : ℕ) (z : ℤ) (bytes rest : List ℕ) → IsLong z → Canon (form.integer z) bytes
        → TokenEnds rest → Text depth (form.integer z) (bytes ++ rest) rest }
{}
