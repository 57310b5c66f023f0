//! What accepting and adopting leave as it was, and which events of the machine of worlds they are.
ghost use Rattle.std.specs.Prelude.{◌≡◌, ◌↔◌, ℕ, ◌+◌, ℤ, Bool, List, [], None, Some, Contains, IsTrue};
ghost use Rattle.edn_model.specs.Form.{Form};
ghost use Rattle.fb_values.specs.declared.facts.Datom.{Datom};
ghost use Rattle.fb_values.specs.declared.indexes.Order.{Order};
ghost use Rattle.fb_model.specs.History.{basis, upto};
ghost use Rattle.fb_model.specs.Lawful.{IsLawful};
ghost use Rattle.view_model.specs.Window.{Window};
ghost use Rattle.view_model.specs.View.{seen, is_selected_by};
ghost use Rattle.view_model.specs.Scan.{Range, IsScan};
ghost use Rattle.tx_model.specs.Step.{Guard, step, accepted as is_accepted};
ghost use Rattle.event_model.specs.World.{World, opened as opened_world};
ghost use Rattle.event_model.specs.Event.{Happens, committed, accept as accept_event, adopt as adopt_event};
ghost use Rattle.fb_view.specs.SnapshotModel.{SnapshotModel, Stands};
ghost use Rattle.fb_core.specs.declared.shared.CoreParts.{CoreParts};
ghost use Rattle.fb_core.specs.declared.accepting.Draft.{Draft};
ghost use Rattle.fb_core.specs.declared.adopting.Rebased.{Rebased};
ghost use Rattle.fb_core.specs.Cores.{CoreStands, IsDraftOf, IsRebaseOf, entry_of};
ghost use Rattle.fb_core.specs.Worlds.{IsCoreOf};

/// Accepting a draft keeps the history lawful, and puts its basis up by one.
pub fn accepting_keeps_histories_lawful()
    ensures lawful { (core : CoreParts) (author : ℕ) (draft : Draft) → CoreStands core
        → IsDraftOf core author draft → IsLawful draft.after.entries }
    ensures basis { (core : CoreParts) (author : ℕ) (draft : Draft) → CoreStands core
        → IsDraftOf core author draft
        → basis draft.after.entries ≡ basis core.snapshot.entries + 1 }
    ensures stands { (core : CoreParts) (author : ℕ) (draft : Draft) → CoreStands core
        → IsDraftOf core author draft
        → CoreStands (record { snapshot = draft.after; authors = draft.authors }) }
{}

/// The latest snapshot is of a beginning of the core's history, the whole of it. After an accept it still is of a beginning,
/// and so is each older one.
pub fn a_beginning_stays_one()
    ensures whole { (core : CoreParts) → CoreStands core
        → upto core.snapshot.entries (basis core.snapshot.entries) ≡ core.snapshot.entries }
    ensures latest { (core : CoreParts) (author : ℕ) (draft : Draft) → CoreStands core
        → IsDraftOf core author draft
        → upto draft.after.entries (basis core.snapshot.entries) ≡ core.snapshot.entries }
    ensures older { (core : CoreParts) (author : ℕ) (draft : Draft) (older : SnapshotModel)
        → IsDraftOf core author draft → Stands older
        → upto core.snapshot.entries (basis older.entries) ≡ older.entries
        → upto draft.after.entries (basis older.entries) ≡ older.entries }
{}

/// Adopting newer trees changes nothing that a view says, in any window and order. The schema stays too.
pub fn adopting_changes_no_view()
    ensures seen { (core : CoreParts) (rebased : Rebased) (w : Window) → IsRebaseOf core rebased
        → seen rebased.snapshot.entries w ≡ seen core.snapshot.entries w }
    ensures scans { (core : CoreParts) (rebased : Rebased) (w : Window)
        (filters : List (Datom → Bool)) (order : Order) (range : Range) (ds : List Datom)
        → IsRebaseOf core rebased
        → IsScan rebased.snapshot.entries w (λ d. IsTrue (is_selected_by filters d)) order range ds
        ↔ IsScan core.snapshot.entries w (λ d. IsTrue (is_selected_by filters d)) order range ds }
    ensures schema { (core : CoreParts) (rebased : Rebased) → CoreStands core
        → IsRebaseOf core rebased → rebased.snapshot.schema ≡ core.snapshot.schema }
    ensures stands { (core : CoreParts) (rebased : Rebased) → CoreStands core
        → IsRebaseOf core rebased → CoreStands (record core { snapshot = rebased.snapshot }) }
{}

/// The core of a database that has just been opened is that of the world that the machine begins with.
pub fn opening_makes_a_world()
    ensures { (snapshot : SnapshotModel) (kept : List ℕ)
        → IsCoreOf (record { snapshot = snapshot; authors = [] })
        (opened_world snapshot.entries snapshot.covered kept) }
{}

/// Accepting the draft of an accepted transaction is the machine's event: the entry becomes a commit of its author's session.
pub fn accepting_makes_a_commit()
    ensures happens { (core : CoreParts) (world : World) (s : ℕ) (draft : Draft) (guard : Guard)
        (asked : Form) (reading : ℤ)
        → IsCoreOf core world → world.stop ≡ None
        → step core.snapshot.entries asked reading guard
        ≡ is_accepted (entry_of draft) draft.tempids.items
        → Happens guard world (accept_event s asked reading) (committed s (entry_of draft) world) }
    ensures core { (core : CoreParts) (world : World) (s : ℕ) (draft : Draft) → IsCoreOf core world
        → IsDraftOf core s draft
        → IsCoreOf (record { snapshot = draft.after; authors = draft.authors })
        (committed s (entry_of draft) world) }
{}

/// Adopting the trees of a merge whose root is in the file is the machine's event.
pub fn adopting_ends_a_merge()
    ensures happens { (world : World) (c : ℕ) (guard : Guard) → world.merging ≡ Some c
        → Contains world.kept c
        → Happens guard world adopt_event (record world { adopted = c; merging = None }) }
    ensures core { (core : CoreParts) (world : World) (rebased : Rebased) → IsCoreOf core world
        → IsRebaseOf core rebased
        → IsCoreOf (record core { snapshot = rebased.snapshot })
        (record world { adopted = rebased.snapshot.covered; merging = None }) }
{}
