//! Filters by name.
ghost use Rattle.std.specs.Prelude.{◌≡◌, ◌<◌, ◌↔◌, [], ◌∷◌, ◌++◌, length, IsTrue, IfSome, IfOk, IfErr};
ghost use Rattle.fb_preds.specs.Table.{last_place, Selects, selected_at, shipped_filters};

use crate::filter_table::FilterTable;
use crate::filters::{Filter, NamedFilter};
use crate::finding::{is_negative, last_named};
use crate::kept::{BoxedTest, Kept};
use crate::selector::{BoxedSelector, Selector};
use fb_memory::Memory;
use fb_numbers::{DOC, USER_ENTITIES};
use fb_text::Text;
use fb_values::Datom;
use std::alloc::Global;

/// Filters by name, in the order in which they were added. Of two with one name the later one counts.
#[derive(Drop)]
pub struct PredTable {
    filters: Vec<NamedFilter<BoxedSelector, Kept>>,
}

impl PredTable {
    /// A table without a filter.
    pub fn new(alloc: Global) -> PredTable
        ensures { result.filters.items ≡ [] }
    {
        PredTable {
            filters: Vec::new(alloc),
        }
    }

    /// Adds a filter under a name. Where another one has the name, that one is found no longer.
    pub fn add(&mut self, name: Text, s: BoxedSelector) -> Result<(), Memory>
        ensures added { IfOk result (λ _. self.new.filters.items
            ≡ self.old.filters.items ++ record { name = name; filter = Filter.Stored s } ∷ []) }
        ensures unchanged { IfErr result (λ _. self.new.filters.items ≡ self.old.filters.items) }
    {
        self.filters.push(NamedFilter {
            name,
            filter: Filter::Stored(s),
        })?;
        Ok(())
    }

    /// Adds a closure as a filter.
    pub fn keep(&mut self, name: Text, kept: Kept) -> Result<(), Memory>
        ensures added { IfOk result (λ _. self.new.filters.items
            ≡ self.old.filters.items ++ record { name = name; filter = Filter.Closure kept } ∷ []) }
        ensures unchanged { IfErr result (λ _. self.new.filters.items ≡ self.old.filters.items) }
    {
        self.filters.push(NamedFilter {
            name,
            filter: Filter::Closure(kept),
        })?;
        Ok(())
    }

    /// The place of the last filter with the name.
    pub fn find(&self, name: &Text) -> Option<usize>
        ensures last { result ≡ last_place name.now self.now.filters.items }
        ensures within { IfSome result (λ place. place < length self.now.filters.items) }
    {
        last_named(&self.filters, name)
    }

    /// Whether the filter at the place selects the datom.
    pub fn test(&self, place: usize, d: &Datom) -> bool
        requires { place < length self.now.filters.items }
        ensures { IsTrue result
            ↔ selected_at (λ s. selects s) (λ kept. ⟦<Kept as Selector>⟧.selects kept)
            self.now.filters.items place d.now }
    {
        is_selected(&self.filters[place].filter, d)
    }
}

impl FilterTable for PredTable {
    ghost use Rattle.std.specs.Prelude.{true};
    ghost use Rattle.fb_preds.specs.Table.{name_at};

    ghost place_of = { λ table name. last_place name table.filters.items };

    ghost name_at = { λ table place. name_at table.filters.items place };

    ghost selects_at = { λ table place d. selected_at (λ s. (Selector-box s).selects s.value)
        (λ kept e. (x : _) × (x.now ≡ e) × BoxedTest.post kept.answers x true) table.filters.items
        place d };

    fn place(&self, name: &Text) -> Option<usize> {
        self.find(name)
    }

    fn select(&self, place: usize, d: &Datom) -> bool {
        self.test(place, d)
    }
}

/// Whether the filter selects the datom.
fn is_selected(filter: &Filter<BoxedSelector, Kept>, d: &Datom) -> bool
    ensures { IsTrue result
        ↔ Selects (λ s. selects s) (λ kept. ⟦<Kept as Selector>⟧.selects kept) filter.now d.now }
{
    match filter {
        Filter::Users => d.e > USER_ENTITIES,
        Filter::NoDoc => d.a != DOC,
        Filter::Positive => !is_negative(&d.v),
        Filter::Stored(s) => s.test(d),
        Filter::Closure(kept) => kept.test(d),
    }
}

/// The filters with which a table begins: `users`, `no-doc` and `positive`.
pub fn shipped(alloc: Global) -> Result<PredTable, Memory>
    ensures { IfOk result (λ table. table.filters.items ≡ shipped_filters) }
{
    let users = NamedFilter {
        name: Text::of(alloc, "users")?,
        filter: Filter::Users,
    };
    let no_doc = NamedFilter {
        name: Text::of(alloc, "no-doc")?,
        filter: Filter::NoDoc,
    };
    let positive = NamedFilter {
        name: Text::of(alloc, "positive")?,
        filter: Filter::Positive,
    };
    Ok(PredTable {
        filters: vec![in alloc; users, no_doc, positive]?,
    })
}
