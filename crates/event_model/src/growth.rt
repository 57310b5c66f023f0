//! What stays as it is, from one world to another.
ghost use Rattle.std.specs.Prelude.{◌≡◌, ◌⊎◌, ℕ, ◌≤◌, List, [], ◌∷◌, ◌++◌, Some, Contains, IsTrue, slice_get};
ghost use Rattle.fb_values.specs.declared.facts.Entry.{Entry};
ghost use Rattle.fb_model.specs.History.{basis, upto};
ghost use Rattle.view_model.specs.Window.{Window};
ghost use Rattle.view_model.specs.View.{seen};
ghost use Rattle.tx_model.specs.Step.{Guard};
ghost use Rattle.event_model.specs.World.{Stop, World, IsBeginning};
ghost use Rattle.event_model.specs.Event.{Event, crash, Happens, is_of_merge};
ghost use Rattle.event_model.specs.Runs.{Runs, HaveNoCrash};
ghost use Rattle.event_model.specs.Sound.{IsSound};

/// Whatever happens, and crashes too, what was recorded is a beginning of what is, and each entry
/// keeps its place. The basis at the opening changes by a crash alone.
pub fn a_history_only_grows()
    ensures grows { (guard : Guard) (before : World) (events : List Event) (after : World)
        → Runs guard before events after
        → (more : List Entry) × (after.history ≡ before.history ++ more) }
    ensures places { (guard : Guard) (before : World) (events : List Event) (after : World)
        (place : ℕ) (entry : Entry)
        → Runs guard before events after → slice_get before.history place ≡ Some entry
        → slice_get after.history place ≡ Some entry }
    ensures opening { (guard : Guard) (before : World) (events : List Event) (after : World)
        → HaveNoCrash events → Runs guard before events after → after.opening ≡ before.opening }
{}

/// Between crashes no session's snapshot is of less than an earlier one, and its commits only grow.
pub fn snapshots_never_fall()
    ensures mailed { (guard : Guard) (before : World) (events : List Event) (after : World) (s : ℕ)
        → IsSound before → HaveNoCrash events → Runs guard before events after
        → (before.sessions s).mailed ≤ (after.sessions s).mailed }
    ensures snap { (guard : Guard) (before : World) (events : List Event) (after : World) (s : ℕ)
        → IsSound before → HaveNoCrash events → Runs guard before events after
        → (before.sessions s).snap ≤ (after.sessions s).snap }
    ensures commits { (guard : Guard) (before : World) (events : List Event) (after : World) (s : ℕ)
        → IsSound before → HaveNoCrash events → Runs guard before events after
        → (more : List ℕ) × ((after.sessions s).commits ≡ (before.sessions s).commits ++ more) }
{}

/// What was taken as a snapshot stays a beginning of the history, whatever happens, and shows what
/// it showed.
pub fn snapshots_stay_what_they_are()
    ensures beginning { (guard : Guard) (before : World) (events : List Event) (after : World)
        (b : ℕ)
        → IsSound before → Runs guard before events after → b ≤ basis before.history
        → upto after.history b ≡ upto before.history b }
    ensures views { (guard : Guard) (before : World) (events : List Event) (after : World) (b : ℕ)
        (w : Window)
        → IsSound before → Runs guard before events after → b ≤ basis before.history
        → seen (upto after.history b) w ≡ seen (upto before.history b) w }
{}

/// The database opens with each entry that is a session's commit, at its place, and with at most
/// the entry whose append failed besides. So it is after all that may happen later.
pub fn a_crash_loses_no_commit()
    ensures kept { (guard : Guard) (before after : World) (s t : ℕ)
        → IsSound before → Happens guard before crash after → Contains (before.sessions s).commits t
        → (entry : Entry)
        × (entry.t ≡ t)
        × (slice_get before.history t ≡ Some entry)
        × (slice_get after.history t ≡ Some entry) }
    ensures ever_after { (guard : Guard) (before : World) (events : List Event) (after : World)
        (s t : ℕ)
        → IsSound before → Runs guard before events after → Contains (before.sessions s).commits t
        → (entry : Entry)
        × (entry.t ≡ t)
        × (slice_get before.history t ≡ Some entry)
        × (slice_get after.history t ≡ Some entry) }
    ensures at_most_one_more { (guard : Guard) (before after : World)
        → Happens guard before crash after
        → (after.history ≡ before.history)
        ⊎ (
        (stop : Stop)
        × (before.stop ≡ Some stop)
        × (after.history ≡ before.history ++ stop.torn ∷ [])) }
    ensures begins_again { (guard : Guard) (before after : World)
        → IsSound before → Happens guard before crash after → IsBeginning after }
{}

/// As a merge begins, goes on and ends, no session sees anything of it.
pub fn a_merge_changes_no_view()
    ensures history { (guard : Guard) (before : World) (event : Event) (after : World)
        → IsTrue (is_of_merge event) → Happens guard before event after
        → after.history ≡ before.history }
    ensures opening { (guard : Guard) (before : World) (event : Event) (after : World)
        → IsTrue (is_of_merge event) → Happens guard before event after
        → after.opening ≡ before.opening }
    ensures stop { (guard : Guard) (before : World) (event : Event) (after : World)
        → IsTrue (is_of_merge event) → Happens guard before event after → after.stop ≡ before.stop }
    ensures sessions { (guard : Guard) (before : World) (event : Event) (after : World)
        → IsTrue (is_of_merge event) → Happens guard before event after
        → after.sessions ≡ before.sessions }
    ensures views { (guard : Guard) (before : World) (event : Event) (after : World) (w : Window)
        → IsTrue (is_of_merge event) → Happens guard before event after
        → seen after.history w ≡ seen before.history w }
{}
