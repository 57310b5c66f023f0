//! Laws about merge records and kept roots, and examples.
ghost use Rattle.std.specs.Prelude.{◌≡◌, ◌≤◌, ◌<◌, ℕ, List, [], ◌∷◌, ◌++◌, length, map, take, drop};
ghost use Rattle.fb_values.specs.declared.facts.Entry.{Entry};
ghost use Rattle.fb_model.specs.History.{basis};
ghost use Rattle.log_model.specs.Fields.{u32_bytes, u64_bytes, AreAllBytes};
ghost use Rattle.log_model.specs.Nodes.{Nodes, no_nodes, MergeRecord, record_bytes_in};
ghost use Rattle.log_model.specs.Merges.{record_says, merges, bad_from, IsRecordOf};
ghost use Rattle.log_model.specs.Kept.{KeptRoot, with_nodes, kept_roots, Agrees, IsNewestAgreeing, IsCoverage, FileKeeps};
ghost use Rattle.log_model.specs.Samples.{hi_payload, with_byte, leaf_record, leaf_merge, next_record, next_merge, hi};

/// A merge record is read back over the nodes that it was written over, and what is
/// read is its bytes.
pub fn a_merge_record_is_read_back()
    ensures read { (nodes : Nodes) (merge : MergeRecord) (payload : List ℕ)
        → IsRecordOf nodes merge payload → record_says nodes payload ≡ merges merge }
    ensures bytes { (nodes : Nodes) (merge : MergeRecord) (payload : List ℕ)
        → AreAllBytes payload → record_says nodes payload ≡ merges merge
        → IsRecordOf nodes merge payload }
    ensures one { (nodes : Nodes) (first second : MergeRecord) (payload : List ℕ)
        → IsRecordOf nodes first payload → IsRecordOf nodes second payload → first ≡ second }
{}

/// More records keep the roots of those before them.
pub fn more_records_keep_the_roots()
    ensures { (records more : List (List ℕ))
        → (behind : List KeptRoot) × (kept_roots (records ++ more) ≡ kept_roots records ++ behind) }
{}

/// A history is opened with one root at most, and its trees go as far as the history at most.
pub fn one_root_is_the_newest_that_agrees()
    ensures root { (h : List Entry) (kept : List KeptRoot) (root other : KeptRoot)
        → IsNewestAgreeing h kept root → IsNewestAgreeing h kept other → root ≡ other }
    ensures coverage { (h : List Entry) (kept : List KeptRoot) (c other : ℕ)
        → IsCoverage h kept c → IsCoverage h kept other → c ≡ other }
    ensures within { (h : List Entry) (kept : List KeptRoot) (c : ℕ)
        → IsCoverage h kept c → c ≤ basis h }
{}

/// Where no root is kept the history is opened with its first entry's trees, and a root whose c is
/// above the basis agrees with no history.
pub fn roots_that_agree_with_nothing()
    ensures nothing_kept { (h : List Entry) → IsCoverage h [] 0 }
    ensures above_the_basis { (h : List Entry) (root : KeptRoot)
        → basis h < root.c → Agrees h root → ⊥ }
{}

/// A file of bytes keeps one list of roots, whatever the bytes are.
pub fn a_file_keeps_one_list_of_roots()
    ensures one { (file : List ℕ) (kept other : List KeptRoot)
        → FileKeeps file kept → FileKeeps file other → kept ≡ other }
    ensures some { (file : List ℕ)
        → AreAllBytes file → (kept : List KeptRoot) × FileKeeps file kept }
{}

/// The bytes of a merge record of one leaf and one directory, and of one without new nodes.
pub fn merge_records()
    ensures bytes { length leaf_record ≡ 97 }
    ensures leaf { leaf_record ≡ record_bytes_in 2 leaf_merge }
    ensures read { record_says no_nodes leaf_record ≡ merges leaf_merge }
    ensures older { record_says no_nodes (with_byte 0 1 leaf_record) ≡ merges leaf_merge }
    ensures next { next_record
        ≡ 2 ∷ 0 ∷ 0 ∷ 0 ∷ 2 ∷ 0 ∷ 0 ∷ 0 ∷ 0 ∷ 0 ∷ 0 ∷ 0 ∷ 0 ∷ 0 ∷ 0 ∷ 0 ∷ 1 ∷ 0 ∷ 0 ∷ 0 ∷ 0 ∷ 0 ∷ 0
        ∷ 0 ∷ 2 ∷ 0 ∷ 0 ∷ 0 ∷ 0 ∷ 0 ∷ 0 ∷ 0 ∷ 0 ∷ 0 ∷ 0 ∷ 0 ∷ 0 ∷ [] }
    ensures older_node { record_says (with_nodes no_nodes leaf_merge) next_record
        ≡ merges next_merge }
{}

/// Merge records that are bad, each with the byte at which the first misfit begins.
pub fn bad_merge_records()
    ensures format { record_says no_nodes (with_byte 0 3 leaf_record) ≡ bad_from 0 }
    ensures greatest_id { record_says no_nodes (with_byte 9 0x3f leaf_record) ≡ bad_from 65 }
    ensures past_greatest_id { record_says no_nodes (with_byte 9 0x40 leaf_record) ≡ bad_from 9 }
    ensures empty_leaf { record_says no_nodes (with_byte 20 0 leaf_record) ≡ bad_from 17 }
    ensures full_leaf_wanting { record_says no_nodes (with_byte 19 2 (with_byte 20 0 leaf_record))
        ≡ bad_from 65 }
    ensures past_full_leaf { record_says no_nodes (with_byte 19 2 leaf_record) ≡ bad_from 17 }
    ensures symbol_in_the_older { record_says no_nodes (with_byte 0 1 (with_byte 37 8 leaf_record))
        ≡ bad_from 37 }
    ensures id_of_a_leaf { record_says no_nodes (with_byte 60 1 leaf_record) ≡ bad_from 53 }
    ensures empty_directory { record_says no_nodes (with_byte 64 0 leaf_record) ≡ bad_from 61 }
    ensures no_such_leaf { record_says no_nodes (with_byte 72 3 leaf_record) ≡ bad_from 65 }
    ensures directory_of_itself { record_says no_nodes (with_byte 72 2 leaf_record) ≡ bad_from 65 }
    ensures leaf_twice { record_says no_nodes
        (take 61 leaf_record ++ u32_bytes 2 ++ u64_bytes 1 ++ u64_bytes 1 ++ drop 73 leaf_record)
        ≡ bad_from 73 }
    ensures leaf_for_a_directory { record_says no_nodes (with_byte 84 1 leaf_record) ≡ bad_from 77 }
    ensures directory_twice { record_says no_nodes
        (take 73 leaf_record ++ u32_bytes 2 ++ u64_bytes 2 ++ u64_bytes 2 ++ drop 85 leaf_record)
        ≡ bad_from 85 }
    ensures in_two_trees { record_says no_nodes
        (take 85 leaf_record ++ u32_bytes 1 ++ u64_bytes 2 ++ drop 89 leaf_record)
        ≡ bad_from 89 }
    ensures one_byte_short { record_says no_nodes (take 96 leaf_record) ≡ bad_from 93 }
    ensures one_byte_long { record_says no_nodes (leaf_record ++ 0 ∷ []) ≡ bad_from 97 }
    ensures same_id_again { record_says (with_nodes no_nodes leaf_merge) leaf_record ≡ bad_from 9 }
    ensures node_behind { record_says no_nodes next_record ≡ bad_from 17 }
{}

/// The roots that a file keeps: those of the records before the first bad one.
pub fn roots_of_a_file()
    ensures both { map (λ (root : KeptRoot). root.c) (kept_roots (leaf_record ∷ next_record ∷ []))
        ≡ 1 ∷ 2 ∷ [] }
    ensures trees { map (λ (root : KeptRoot). root.lists.eavt)
        (kept_roots (leaf_record ∷ next_record ∷ []))
        ≡ (hi ∷ []) ∷ (hi ∷ []) ∷ [] }
    ensures others { map (λ (root : KeptRoot). root.lists.aevt)
        (kept_roots (leaf_record ∷ next_record ∷ []))
        ≡ [] ∷ [] ∷ [] }
    ensures before_a_bad_one { map (λ (root : KeptRoot). root.c)
        (kept_roots (leaf_record ∷ hi_payload ∷ next_record ∷ []))
        ≡ 1 ∷ [] }
    ensures node_behind { kept_roots (next_record ∷ leaf_record ∷ []) ≡ [] }
    ensures none { kept_roots [] ≡ [] }
{}
