//! How an ask names its entity, once the database has been asked.
ghost use Rattle.std.specs.Prelude.{◌≡◌};

use fb_text::Text;
use std::cmp::Ordering;
use std::marker::Model;

/// An entity of the database, or a tempid, which has no entity yet.
#[derive(Clone, Copy)]
pub enum EntityRef {
    Known(u64),
    /// By its place among the tempids of the transaction, in the order in which a reader first meets them.
    New(usize),
}

/// The name of a tempid, by its bytes.
#[derive(Drop)]
pub struct TempidName<'a> {
    text: &'a Text,
}

impl<'a> Model for TempidName<'a> {
    ghost use Rattle.std.specs.Prelude.{List, ℕ};

    ghost Value = { List ℕ };

    ghost view = { λ name. name.text.now };
}

impl<'a> TempidName<'a> {
    pub fn of(text: &'a Text) -> TempidName<'a>
        ensures { result ≡ text.now }
    {
        TempidName { text }
    }

    pub fn text(&self) -> &Text
        ensures { result.now ≡ self.now }
    {
        self.text
    }
}

impl<'a> PartialEq for TempidName<'a> {
    ghost use Rattle.std.specs.Ordering.{eq_by_cmp};
    ghost use Rattle.std.specs.Cmp.{eq_by_cmp_equiv, partial_equiv_from_equiv};
    ghost use Rattle.std.specs.Cmp.Lexicographic.{nat_list_cmp_total};
    ghost use Rattle.fb_values.specs.Orders.{text_cmp};

    ghost eq = { eq_by_cmp text_cmp };

    ghost laws = { partial_equiv_from_equiv (eq_by_cmp_equiv nat_list_cmp_total) };

    fn eq(&self, other: &Self) -> bool {
        self.cmp(other) == Ordering::Equal
    }
}

impl<'a> Eq for TempidName<'a> {
    ghost use Rattle.std.specs.Cmp.{eq_by_cmp_equiv};
    ghost use Rattle.std.specs.Cmp.Lexicographic.{nat_list_cmp_total};

    ghost laws = { eq_by_cmp_equiv nat_list_cmp_total };
}

impl<'a> PartialOrd for TempidName<'a> {
    ghost use Rattle.std.specs.Ordering.{as_partial_cmp};
    ghost use Rattle.std.specs.Cmp.{partial_order_from_total};
    ghost use Rattle.std.specs.Cmp.Lexicographic.{nat_list_cmp_total};
    ghost use Rattle.fb_values.specs.Orders.{text_cmp};

    ghost partial_cmp = { as_partial_cmp text_cmp };

    ghost laws = { partial_order_from_total nat_list_cmp_total };

    fn partial_cmp(&self, other: &Self) -> Option<Ordering> {
        Some(self.cmp(other))
    }
}

impl<'a> Ord for TempidName<'a> {
    ghost use Rattle.std.specs.Prelude.{refl};
    ghost use Rattle.std.specs.Cmp.Lexicographic.{nat_list_cmp_total};
    ghost use Rattle.fb_values.specs.Orders.{text_cmp};

    ghost cmp = { text_cmp };

    ghost total = { nat_list_cmp_total };

    ghost matches_partial_cmp = { λ x y. refl };

    ghost matches_eq = { λ x y. refl };

    fn cmp(&self, other: &Self) -> Ordering {
        self.text.as_str().cmp(other.text.as_str())
    }
}
