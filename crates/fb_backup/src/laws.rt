//! A law about backups. The function has an empty body, and its contract is the law.
ghost use Rattle.std.specs.Prelude.{◌≡◌, ◌≤◌, ℕ, List};
ghost use Rattle.fb_values.specs.declared.facts.Entry.{Entry};
ghost use Rattle.fb_model.specs.History.{basis, upto};
ghost use Rattle.log_model.specs.Log.{LogSays, stands_for, FileSays};
ghost use Rattle.disk_log.specs.Disks.{IsLogFrom};

/// Whatever a backup leaves that breaks off: its log says a beginning of the history and nothing else, with all that the target
/// had before.
pub fn a_backup_reopens_as_a_beginning()
    ensures { (h : List Entry) (n : ℕ) (image : List ℕ) (said : LogSays)
        → IsLogFrom n h image → FileSays image said
        → (m : ℕ) × (n ≤ m) × (m ≤ basis h) × (said ≡ stands_for (upto h m)) }
{}
