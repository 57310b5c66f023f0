//! A code as a set holds it.
ghost use Rattle.std.specs.Prelude.{◌≡◌};
ghost use Rattle.std.proofs.Common.{rules};
ghost use Rattle.std.specs.Cmp.{partial_order_from_own_ties};
ghost use Rattle.std.specs.Cmp.Rules.{comparing};
ghost use Rattle.std.specs.Cmp.Lexicographic.{slice_cmp};
ghost use Rattle.std.specs.Ordering.{on, eq_by_cmp, as_partial_cmp};
ghost use Rattle.edn_duplicates.specs.Order.{token_cmp, token_total, tokens_of};

use crate::token::CodeToken;
use std::cmp::Ordering;
use std::slice::from_ref;

/// A code: one token, which needs no list of its own, or many.
#[derive(Drop)]
pub enum Coded {
    One(CodeToken),
    Many(Vec<CodeToken>),
}

impl Coded {
    fn as_slice(&self) -> &[CodeToken]
        ensures { result.now ≡ tokens_of self.now }
    {
        match self {
            Coded::One(token) => from_ref(token),
            Coded::Many(tokens) => tokens.as_slice(),
        }
    }
}

impl PartialEq for Coded {
    ghost eq = { eq_by_cmp (on tokens_of (slice_cmp token_cmp)) };

    ghost laws = { Prim.search (comparing, rules, token_total) };

    fn eq(&self, other: &Coded) -> bool {
        match (self, other) {
            (Coded::One(token), Coded::One(same)) => token == same,
            _ => self.as_slice() == other.as_slice(),
        }
    }
}

impl Eq for Coded {
    ghost laws = { Prim.search (comparing, rules, token_total) };
}

impl PartialOrd for Coded {
    ghost partial_cmp = { as_partial_cmp (on tokens_of (slice_cmp token_cmp)) };

    ghost laws = { partial_order_from_own_ties (Prim.search (comparing, rules, token_total))
        (Prim.search (comparing, rules, token_total)) };

    fn partial_cmp(&self, other: &Coded) -> Option<Ordering> {
        Some(self.cmp(other))
    }
}

impl Ord for Coded {
    ghost cmp = { on tokens_of (slice_cmp token_cmp) };

    ghost total = { Prim.search (comparing, rules, token_total) };

    ghost matches_partial_cmp = { Prim.search (comparing, rules, token_total) };

    ghost matches_eq = { Prim.search (comparing, rules, token_total) };

    fn cmp(&self, other: &Coded) -> Ordering {
        self.as_slice().cmp(other.as_slice())
    }
}
