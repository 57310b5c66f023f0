//! Laws about backups.
ghost use Rattle.std.specs.Prelude.{◌≡◌, ◌+◌, ℕ, List, [], ◌∷◌, ◌++◌, drop, All};
ghost use Rattle.fb_values.specs.declared.facts.Entry.{Entry};
ghost use Rattle.fb_model.specs.FirstEntry.{first_entry};
ghost use Rattle.fb_model.specs.History.{upto};
ghost use Rattle.fb_model.specs.Lawful.{IsLawful};
ghost use Rattle.log_model.specs.Fields.{AreAllBytes};
ghost use Rattle.log_model.specs.Log.{hold, entries_behind, LogStands, IsLogOf};
ghost use Rattle.log_model.specs.Nodes.{Roots};
ghost use Rattle.log_model.specs.Kept.{KeptRoot, FileKeeps, Agrees, IsCoverage};
ghost use Rattle.backup_model.specs.Backup.{Plan, appends, BackupSays, with_entries, IsCopyFile};

/// A backup of a history to a target has one plan.
pub fn a_backup_has_one_plan()
    ensures some { (file : List ℕ) (h : List Entry)
        → AreAllBytes file → (plan : Plan) × BackupSays file h plan }
    ensures one { (file : List ℕ) (h : List Entry) (plan other : Plan)
        → BackupSays file h plan → BackupSays file h other → plan ≡ other }
{}

/// With all that it lacks after its records, a target stands for the history.
pub fn a_copy_stands_for_the_history()
    ensures { (h entries lacking : List Entry) (records : List (List ℕ))
        → IsLawful h → All AreAllBytes records → entries_behind [] records ≡ hold entries
        → drop 1 h ≡ entries ++ lacking → LogStands (with_entries records lacking) h }
{}

/// A backup that breaks off between two entries leaves a target that stands for a beginning of the
/// history, with all that the target had and all that was appended.
pub fn a_backup_broken_off_is_a_beginning()
    ensures { (h entries done left : List Entry) (records : List (List ℕ))
        → IsLawful h → All AreAllBytes records → entries_behind [] records ≡ hold entries
        → drop 1 h ≡ entries ++ (done ++ left)
        → LogStands (with_entries records done) (first_entry ∷ (entries ++ done)) }
{}

/// A log that stands for the entries 0 to n of a history lacks those after them.
pub fn a_beginning_lacks_the_rest()
    ensures { (file : List ℕ) (h : List Entry) (n : ℕ) → IsLogOf file (upto h n)
        → BackupSays file h (appends (drop (n + 1) h)) }
{}

/// A file that is the copy of a root keeps that root alone, and a history that agrees with the root
/// is opened with it: its trees go as far as the root does.
pub fn a_copied_root_is_kept()
    ensures keeps { (file : List ℕ) (root : KeptRoot) (ids : Roots)
        → IsCopyFile file root ids → FileKeeps file (root ∷ []) }
    ensures alone { (file : List ℕ) (root : KeptRoot) (ids : Roots) (kept : List KeptRoot)
        → IsCopyFile file root ids → FileKeeps file kept → kept ≡ root ∷ [] }
    ensures opened { (file : List ℕ) (root : KeptRoot) (ids : Roots) (h : List Entry)
        (kept : List KeptRoot)
        → IsCopyFile file root ids → Agrees h root → FileKeeps file kept
        → IsCoverage h kept root.c }
    ensures no_further { (file : List ℕ) (root : KeptRoot) (ids : Roots) (h : List Entry)
        (kept : List KeptRoot) (c : ℕ)
        → IsCopyFile file root ids → Agrees h root → FileKeeps file kept → IsCoverage h kept c
        → c ≡ root.c }
{}
