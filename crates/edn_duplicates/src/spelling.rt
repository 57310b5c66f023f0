//! Texts in the order of their bytes.
ghost use Rattle.std.specs.Prelude.{◌≡◌, IfOk};
ghost use Rattle.std.proofs.Common.{rules};
ghost use Rattle.std.specs.Cmp.{partial_order_from_own_ties};
ghost use Rattle.std.specs.Cmp.Rules.{comparing};
ghost use Rattle.std.specs.Cmp.Lexicographic.{slice_cmp};
ghost use Rattle.std.specs.Ordering.{nat_cmp, on, eq_by_cmp, as_partial_cmp};

use fb_memory::Memory;
use fb_text::Text;
use std::cmp::Ordering;

/// A text that can be compared.
#[derive(Drop)]
pub struct Spelling {
    pub text: Text,
}

/// The spelling of a text, which shares its bytes.
pub fn spell(text: &Text) -> Result<Spelling, Memory>
    ensures { IfOk result (λ s. s.text ≡ text.now) }
{
    let text = text.copy()?;
    Ok(Spelling { text })
}

impl PartialEq for Spelling {
    ghost eq = { eq_by_cmp (on (λ s. s.text) (slice_cmp nat_cmp)) };

    ghost laws = { Prim.search (comparing, rules) };

    fn eq(&self, other: &Spelling) -> bool {
        self.text.as_str() == other.text.as_str()
    }
}

impl Eq for Spelling {
    ghost laws = { Prim.search (comparing, rules) };
}

impl PartialOrd for Spelling {
    ghost partial_cmp = { as_partial_cmp (on (λ s. s.text) (slice_cmp nat_cmp)) };

    ghost laws = { partial_order_from_own_ties (Prim.search (comparing, rules))
        (Prim.search (comparing, rules)) };

    fn partial_cmp(&self, other: &Spelling) -> Option<Ordering> {
        Some(self.cmp(other))
    }
}

impl Ord for Spelling {
    ghost cmp = { on (λ s. s.text) (slice_cmp nat_cmp) };

    ghost total = { Prim.search (comparing, rules) };

    ghost matches_partial_cmp = { Prim.search (comparing, rules) };

    ghost matches_eq = { Prim.search (comparing, rules) };

    fn cmp(&self, other: &Spelling) -> Ordering {
        self.text.as_str().cmp(other.text.as_str())
    }
}
