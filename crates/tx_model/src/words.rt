//! Which texts are keywords and symbols: those of well-formed values are those of the grammar of
//! EDN.
ghost use Rattle.std.specs.Prelude.{◌≡◌, ◌↔◌, ℕ, true, List};
ghost use Rattle.edn_model.specs.Tokens.{IsKeyword, IsSymbol};
ghost use Rattle.fb_values.specs.declared.facts.Value.TheVariants.{Keyword, Symbol};
ghost use Rattle.fb_model.specs.Types.{is_well_formed};

/// A text is that of a keyword of EDN exactly where it is that of a well-formed keyword.
pub fn keywords_are_those_of_edn()
    ensures { (text : List ℕ) → (is_well_formed (Keyword text) ≡ true) ↔ IsKeyword text }
{}

/// A text is that of a symbol of EDN exactly where it is that of a well-formed symbol.
pub fn symbols_are_those_of_edn()
    ensures { (text : List ℕ) → (is_well_formed (Symbol text) ≡ true) ↔ IsSymbol text }
{}
