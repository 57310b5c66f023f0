//! What a caller that keeps a history knows of the next entry.
ghost use Rattle.std.specs.Prelude.{ℕ, List, [], ◌++◌};
ghost use Rattle.fb_values.specs.declared.facts.Datom.{Datom};
ghost use Rattle.fb_values.specs.declared.facts.Entry.{Entry};
ghost use Rattle.fb_values.specs.declared.indexes.Order.{Order};
ghost use Rattle.fb_covers.specs.Coverage.{Coverage};
ghost use Rattle.fb_values.specs.Lists.{Lists, list_in};
ghost use Rattle.view_model.specs.Stands.{LiveStands};
ghost use Rattle.live_index.specs.Growth.{HasNoTwins, IsGrown};
ghost use Rattle.live_index.specs.Halves.{MayFollow};
ghost use Rattle.live_index.specs.Standing.{IsNext};

/// The datoms that `Live::with_entry` is offered are all of one history, so no two of one place differ.
pub fn next_entries_bring_no_twins()
    ensures { (h : List Entry) (c : ℕ) (entry : Entry) (coverage : Coverage) (refill : List Datom)
        (old : Lists)
        → IsNext h c entry coverage refill → LiveStands old h c → (order : Order)
        → HasNoTwins (list_in old order ++ refill ++ entry.datoms) }
{}

/// And they may follow what the lists have.
pub fn next_entries_may_follow()
    ensures { (h : List Entry) (c : ℕ) (entry : Entry) (coverage : Coverage) (refill : List Datom)
        (old : Lists)
        → IsNext h c entry coverage refill → LiveStands old h c → (order : Order)
        → MayFollow (list_in old order) entry.datoms }
{}

/// And what the lists have once AVET is refilled, which `Live::with_schema_entry` asks for.
pub fn next_entries_may_follow_a_refill()
    ensures { (h : List Entry) (c : ℕ) (entry : Entry) (coverage : Coverage) (refill : List Datom)
        (old filled : Lists)
        → IsNext h c entry coverage refill → LiveStands old h c
        → ((order : Order)
        → IsGrown order coverage (list_in old order) refill [] (list_in filled order))
        → (order : Order) → MayFollow (list_in filled order) entry.datoms }
{}
