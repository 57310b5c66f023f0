//! Filters that were picked from a table by their names, of which each has to select a datom.
ghost use Rattle.std.specs.Prelude.{◌≡◌, ◌↔◌, [], nat_eq, IsTrue, IfOk, IfErr};
ghost use Rattle.std.specs.List.{list_any};
ghost use Rattle.fb_preds.specs.Selecting.{SelectedByAll};
ghost use Rattle.fb_preds.specs.Naming.{IsFound, AreFound, AreFound-prop, with_place};

use crate::filter_table::FilterTable;
use crate::selector::Selector;
use fb_memory::Memory;
use fb_values::Datom;
use std::alloc::Global;

/// Filters of one table in the order in which they were added, each once, at the place that its name finds. Together they are a
/// filter, which selects what each of them selects.
#[derive(Drop)]
pub struct Picks<'p, T: FilterTable> {
    pub table: &'p T,
    pub places: Vec<usize>,
    pub ghost are_found: { AreFound (T.place_of table.now) (T.name_at table.now) places.items } by { AreFound-prop (T.place_of table.now) (T.name_at table.now) places.items },
}

impl<'p, T: FilterTable> Picks<'p, T> {
    /// No filter: every datom is selected.
    pub fn none(alloc: Global, table: &'p T) -> Picks<'p, T>
        ensures places { result.places.items ≡ [] }
        ensures table { result.table.now ≡ table.now }
    {
        Picks {
            table,
            places: Vec::new(alloc),
        }
    }

    /// One filter more, at the place that its name finds. One that is there already is not added again.
    pub fn add(&mut self, place: usize) -> Result<(), Memory>
        requires { IsFound (T.place_of self.old.table.now) (T.name_at self.old.table.now) place }
        ensures added { IfOk result
            (λ _. self.new.places.items ≡ with_place self.old.places.items place) }
        ensures unchanged { IfErr result (λ _. self.new.places.items ≡ self.old.places.items) }
        ensures table { self.new.table ≡ self.old.table }
    {
        if self.has(place) {
            return Ok(());
        }
        self.places.push(place)?;
        Ok(())
    }

    fn has(&self, place: usize) -> bool
        ensures { result ≡ list_any (nat_eq place) self.now.places.items }
    {
        self.places.iter().any(|added| place == *added)
    }

    /// Every datom is selected again.
    pub fn clear(&mut self)
        ensures places { self.new.places.items ≡ [] }
        ensures table { self.new.table ≡ self.old.table }
    {
        self.places.clear();
    }

    fn all_select(&self, d: &Datom) -> bool
        ensures { IsTrue result
            ↔ SelectedByAll (T.selects_at self.now.table.now) self.now.places.items d.now }
    {
        for place in &self.places {
            if !self.table.select(*place, d) {
                return false;
            }
        }
        true
    }
}

impl<T: FilterTable> Selector for Picks<'_, T> {
    ghost use Rattle.std.specs.Prelude.{map};
    ghost use Rattle.fb_preds.specs.Naming.{selected_by};

    ghost selects = { λ picks d. SelectedByAll
        (selected_by (T.place_of picks.table.now) (T.selects_at picks.table.now))
        (map (T.name_at picks.table.now) picks.places.items) d };

    fn test(&self, d: &Datom) -> bool {
        self.all_select(d)
    }
}
