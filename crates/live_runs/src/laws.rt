//! What holds of runs whatever a program does with them: the contracts are the laws, and there is nothing to run.
ghost use Rattle.std.specs.Prelude.{◌≡◌, ◌++◌, List};
ghost use Rattle.fb_values.specs.declared.facts.Datom.{Datom as ModelDatom};
ghost use Rattle.fb_values.specs.declared.indexes.Order.{Order as ModelOrder};
ghost use Rattle.live_runs.specs.Changed.{HasNoTwins};
ghost use Rattle.live_runs.specs.Runs.{AreRuns, Layers, runs_datoms};

/// Runs of a table are runs of a longer one, with the same datoms.
pub fn runs_stay_over_a_longer_table()
    ensures runs { (order : ModelOrder) (table more : List ModelDatom) (r : Layers)
        → AreRuns order table r → HasNoTwins (table ++ more) → AreRuns order (table ++ more) r }
    ensures datoms { (order : ModelOrder) (table more : List ModelDatom) (r : Layers)
        → AreRuns order table r → runs_datoms order (table ++ more) r ≡ runs_datoms order table r }
{}
