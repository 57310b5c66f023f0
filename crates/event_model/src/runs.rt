//! Events and runs of events.
ghost use Rattle.std.specs.Prelude.{◌≡◌, List, ◌++◌, false, Some};
ghost use Rattle.tx_model.specs.Step.{Guard};
ghost use Rattle.event_model.specs.World.{Stop, World};
ghost use Rattle.event_model.specs.Event.{Event, Happens, is_crash};
ghost use Rattle.event_model.specs.Runs.{Runs, HaveNoCrash, IsReached};

/// A crash alone leaves a choice: of the log, and of the roots that are still in their file.
pub fn each_event_but_a_crash_makes_one_world()
    ensures { (guard : Guard) (before : World) (event : Event) (one other : World)
        → is_crash event ≡ false → Happens guard before event one → Happens guard before event other
        → one ≡ other }
{}

/// A run that goes on is a run, and comes to a world that is reached.
pub fn a_run_goes_on()
    ensures joined { (guard : Guard) (before : World) (events : List Event) (between : World)
        (more : List Event) (after : World)
        → Runs guard before events between → Runs guard between more after
        → Runs guard before (events ++ more) after }
    ensures reached { (guard : Guard) (before : World) (events : List Event) (after : World)
        → IsReached guard before → Runs guard before events after → IsReached guard after }
{}

/// After a failed append nothing is recorded until the database is opened again.
pub fn a_failed_append_ends_the_log()
    ensures stop { (guard : Guard) (before : World) (events : List Event) (after : World)
        (stop : Stop)
        → before.stop ≡ Some stop → HaveNoCrash events → Runs guard before events after
        → after.stop ≡ Some stop }
    ensures history { (guard : Guard) (before : World) (events : List Event) (after : World)
        (stop : Stop)
        → before.stop ≡ Some stop → HaveNoCrash events → Runs guard before events after
        → after.history ≡ before.history }
{}
