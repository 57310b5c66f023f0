//! What every world is that a database may come to.
ghost use Rattle.std.specs.Prelude.{◌≡◌, ℕ, ◌<◌, ◌≤◌, List, Some, Contains};
ghost use Rattle.std.specs.List.Sorted.{IsStrictlyIncreasing};
ghost use Rattle.fb_model.specs.History.{basis};
ghost use Rattle.fb_model.specs.Lawful.{IsLawful};
ghost use Rattle.tx_model.specs.Step.{Guard};
ghost use Rattle.event_model.specs.World.{World, IsBeginning};
ghost use Rattle.event_model.specs.Event.{Event, Happens};
ghost use Rattle.event_model.specs.Runs.{Runs, IsReached};
ghost use Rattle.event_model.specs.Sound.{HasOneAuthor, IsSound};

/// A beginning is sound, each event leaves a sound world sound, and so is each world that a
/// beginning comes to.
pub fn worlds_stay_sound()
    ensures begins { (world : World) → IsBeginning world → IsSound world }
    ensures happens { (guard : Guard) (before : World) (event : Event) (after : World)
        → IsSound before → Happens guard before event after → IsSound after }
    ensures goes_on { (guard : Guard) (before : World) (events : List Event) (after : World)
        → IsSound before → Runs guard before events after → IsSound after }
    ensures reached { (guard : Guard) (world : World) → IsReached guard world → IsSound world }
{}

/// Whatever the guard bars and the clock reads.
pub fn histories_stay_lawful()
    ensures { (guard : Guard) (world : World) → IsReached guard world → IsLawful world.history }
{}

/// A session has a snapshot of no more than there is, and all its own transactions are in it.
pub fn snapshots_show_their_own_commits()
    ensures mailed { (guard : Guard) (world : World) (s : ℕ)
        → IsReached guard world → (world.sessions s).mailed ≤ basis world.history }
    ensures snap { (guard : Guard) (world : World) (s : ℕ)
        → IsReached guard world → (world.sessions s).snap ≤ basis world.history }
    ensures own { (guard : Guard) (world : World) (s t : ℕ)
        → IsReached guard world → Contains (world.sessions s).commits t
        → t ≤ (world.sessions s).snap }
{}

/// What was recorded since the opening, one session each made, and sessions hold no other t for
/// theirs.
pub fn each_t_has_one_author()
    ensures one { (guard : Guard) (world : World) (t : ℕ)
        → IsReached guard world → world.opening < t → t ≤ basis world.history
        → HasOneAuthor world.sessions t }
    ensures nothing_else { (guard : Guard) (world : World) (s t : ℕ)
        → IsReached guard world → Contains (world.sessions s).commits t
        → (world.opening < t) × (t ≤ basis world.history) }
    ensures rising { (guard : Guard) (world : World) (s : ℕ)
        → IsReached guard world → IsStrictlyIncreasing (world.sessions s).commits }
{}

/// Adopted trees, each root that is kept, and a merge under way.
pub fn trees_are_of_no_more_than_there_is()
    ensures opening { (guard : Guard) (world : World)
        → IsReached guard world → world.opening ≤ basis world.history }
    ensures adopted { (guard : Guard) (world : World)
        → IsReached guard world → world.adopted ≤ basis world.history }
    ensures kept { (guard : Guard) (world : World) (c : ℕ)
        → IsReached guard world → Contains world.kept c → c ≤ basis world.history }
    ensures merging { (guard : Guard) (world : World) (c : ℕ)
        → IsReached guard world → world.merging ≡ Some c → c ≤ basis world.history }
{}
