//! What the lists of a history's facts are.
ghost use Rattle.std.specs.Prelude.{Bool, List, Contains, IsTrue};
ghost use Rattle.fb_values.specs.declared.facts.Datom.{Datom};
ghost use Rattle.fb_values.specs.declared.facts.Entry.{Entry};
ghost use Rattle.fb_values.specs.declared.indexes.Order.{Order};
ghost use Rattle.fb_model.specs.Rising.{IsRisingListOf};
ghost use Rattle.fb_model.specs.Facts.{facts};
ghost use Rattle.fb_facts.specs.FactLists.{facts_in};

/// Each is the one rising list that has exactly the facts that pass, whatever the history.
pub fn the_lists_are_the_rising_ones()
    ensures { (h : List Entry) (order : Order) (passes : Datom → Bool)
        → IsRisingListOf order (facts_in order passes h)
        (λ d. Contains (facts h) d × IsTrue (passes d)) }
{}
