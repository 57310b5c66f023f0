//! Laws of the order of tokens, and of the forms that have a text. The functions have empty bodies: their contracts are
//! what is proved.
ghost use Rattle.std.specs.Prelude.{◌≡◌, ℕ, true, List};
ghost use Rattle.std.specs.Cmp.{IsTotalOrder};
ghost use Rattle.std.specs.declared.cmp.Ordering.TheVariants.{Equal};
ghost use Rattle.edn_model.specs.Form.{Form};
ghost use Rattle.edn_model.specs.Grammar.{Text};
ghost use Rattle.edn_model.specs.Likeness.{alike};
ghost use Rattle.edn_duplicates.specs.Code.{IsCode};
ghost use Rattle.edn_duplicates.specs.Inside.{IsDistinctInside};
ghost use Rattle.edn_duplicates.specs.Order.{token_cmp};
ghost use Rattle.edn_duplicates.specs.declared.token.CodeToken.{CodeToken};

/// The order of tokens is total, and of two different ones one comes first.
pub fn tokens_are_ordered()
    ensures total { IsTotalOrder token_cmp }
    ensures exact { (a b : CodeToken) → token_cmp a b ≡ Equal → a ≡ b }
{}

/// Forms of one code are alike, and of alike forms, inside the first of which there are no duplicates, the codes are one.
pub fn alike_forms_have_one_code()
    ensures are_alike { (f g : Form) (s : List CodeToken) → IsCode token_cmp f s
        → IsCode token_cmp g s → alike f g ≡ true }
    ensures one_code { (f g : Form) (s t : List CodeToken) → IsDistinctInside f → alike f g ≡ true
        → IsCode token_cmp f s → IsCode token_cmp g t → s ≡ t }
{}

/// A form that has a text has no duplicates inside.
pub fn texts_say_nothing_twice()
    ensures { (depth : ℕ) (f : Form) (here rest : List ℕ) → Text depth f here rest
        → IsDistinctInside f }
{}
