//! Examples.
ghost use Rattle.std.specs.Prelude.{◌≡◌, [], ◌∷◌};
ghost use Rattle.fb_model.specs.FirstEntry.{first_entry};
ghost use Rattle.disk_model.specs.Journal.{log_mark, new_journal};
ghost use Rattle.log_model.specs.Samples.{hi_entry, keyword_entry, hi_payload, hi_log, with_byte, hi_history, leaf_record, next_record};
ghost use Rattle.log_model.specs.Nodes.{Roots};
ghost use Rattle.log_model.specs.Kept.{KeptRoot};
ghost use Rattle.backup_model.specs.Backup.{appends, bad_target, differs_at, BackupSays, with_entries, copied_of, IsCopyFile};
ghost use Rattle.backup_model.specs.Samples.{file_of, leaf_root, leaf_ids, no_ids, rootless_record};

/// The history of one transaction, copied to targets of several kinds.
pub fn targets()
    ensures empty { BackupSays [] hi_history (appends (hi_entry ∷ [])) }
    ensures new_log { BackupSays (new_journal log_mark) hi_history (appends (hi_entry ∷ [])) }
    ensures copied { with_entries [] (hi_entry ∷ []) ≡ hi_payload ∷ [] }
    ensures again { BackupSays hi_log hi_history (appends []) }
    ensures older_format { BackupSays (with_byte 24 1 hi_log) hi_history (appends []) }
    ensures other_text { BackupSays (with_byte 89 111 hi_log) hi_history (differs_at 1) }
    ensures above_the_basis { BackupSays hi_log (first_entry ∷ []) (differs_at 1) }
    ensures bad_record { BackupSays (with_byte 24 9 hi_log) hi_history (bad_target 0 24) }
    ensures bad_mark { BackupSays (with_byte 0 0 hi_log) hi_history (bad_target 0 0) }
{}

/// Which files are copies of a root: that of a record of one leaf and one directory is one. None is
/// a file that keeps two roots, or none, or that has other nodes.
pub fn copies()
    ensures whole { IsCopyFile (file_of (leaf_record ∷ [])) leaf_root leaf_ids }
    ensures again { (root : KeptRoot) (ids : Roots)
        → IsCopyFile (file_of (leaf_record ∷ next_record ∷ [])) root ids → ⊥ }
    ensures bad_behind { (root : KeptRoot) (ids : Roots)
        → IsCopyFile (file_of (leaf_record ∷ hi_payload ∷ [])) root ids → ⊥ }
    ensures empty { (root : KeptRoot) (ids : Roots) → IsCopyFile [] root ids → ⊥ }
    ensures other_nodes { (root : KeptRoot)
        → IsCopyFile (file_of (rootless_record ∷ [])) root no_ids → ⊥ }
{}

/// How many entries a target gets: those that it lacks, and none where it is refused.
pub fn numbers_of_copies()
    ensures two { copied_of (appends (hi_entry ∷ keyword_entry ∷ [])) ≡ 2 }
    ensures none { copied_of (appends []) ≡ 0 }
    ensures refused { copied_of (bad_target 1 100) ≡ 0 }
    ensures different { copied_of (differs_at 7) ≡ 0 }
{}
