//! What the scripts of the generator are worth to a session. The function here is a law: it has an empty body, and its contract
//! is what is proved.
ghost use Rattle.std.specs.Prelude.{ℕ, ◌≤◌, List, length};
ghost use Rattle.edn_model.specs.Form.{Form};
ghost use Rattle.talk_model.specs.Script.{Script, whole};
ghost use Rattle.load_scripts.specs.Scripts.{sessions, script_of};

/// Each script is forms alone, with nothing wrong behind them, and takes less than a megabyte.
pub fn scripts_are_forms()
    ensures forms { (k count : ℕ) → k ≤ sessions → count ≤ 5000
        → (fs : List Form) × Script (script_of k count) fs whole }
    ensures short { (k count : ℕ) → k ≤ sessions → count ≤ 5000
        → length (script_of k count) ≤ 1000000 }
{}
