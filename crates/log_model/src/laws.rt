//! Laws about payloads and logs.
ghost use Rattle.std.specs.Prelude.{◌≡◌, ◌≤◌, ◌<◌, ◌^◌, ℕ, ℤ, Bool, List, ◌∷◌, length, All, IsTrue, ◌++◌};
ghost use Rattle.fb_values.specs.declared.facts.Entry.{Entry};
ghost use Rattle.fb_values.specs.declared.facts.Value.{Value};
ghost use Rattle.fb_model.specs.Lawful.{IsLawful, IsLawfulAfter};
ghost use Rattle.tx_model.specs.Size.{entry_size};
ghost use Rattle.std.specs.Int.{w32, w64, w128, from_be_bytes};
ghost use Rattle.log_model.specs.Fields.{found, number_in, u32_bytes, read_u32, u64_bytes, read_u64, u128_bytes, read_u128, i64_bytes, read_i64, truth_bytes, read_truth, text_bytes, read_text, AreAllBytes};
ghost use Rattle.log_model.specs.Values.{value_bytes, read_value};
ghost use Rattle.log_model.specs.Payload.{written_format, entry_bytes, entry_bytes_in, payload_says, holds, breaks_at};
ghost use Rattle.log_model.specs.Storable.{is_i64, is_storable_text, is_storable_value, IsStorable, IsPayloadOf};
ghost use Rattle.log_model.specs.Log.{LogStands, LogSays, log_says, stands_for, IsLogOf, FileSays};

/// Numbers of four, eight and sixteen bytes are read with the highest byte first.
pub fn numbers_are_big_endian()
    ensures four { (bytes : List ℕ) → length bytes ≡ 4 → number_in bytes ≡ from_be_bytes w32 bytes }
    ensures eight { (bytes : List ℕ)
        → length bytes ≡ 8 → number_in bytes ≡ from_be_bytes w64 bytes }
    ensures sixteen { (bytes : List ℕ)
        → length bytes ≡ 16 → number_in bytes ≡ from_be_bytes w128 bytes }
{}

/// Fields are read back where they were written, whatever follows them.
pub fn a_field_is_read_back()
    ensures u32 { (n : ℕ) (rest : List ℕ)
        → n < 2 ^ 32 → read_u32 (u32_bytes n ++ rest) ≡ found n rest }
    ensures u64 { (n : ℕ) (rest : List ℕ)
        → n < 2 ^ 64 → read_u64 (u64_bytes n ++ rest) ≡ found n rest }
    ensures u128 { (n : ℕ) (rest : List ℕ)
        → n < 2 ^ 128 → read_u128 (u128_bytes n ++ rest) ≡ found n rest }
    ensures i64 { (z : ℤ) (rest : List ℕ)
        → IsTrue (is_i64 z) → read_i64 (i64_bytes z ++ rest) ≡ found z rest }
    ensures truth { (b : Bool) (rest : List ℕ) → read_truth (truth_bytes b ++ rest) ≡ found b rest }
    ensures text { (test : List ℕ → Bool) (text rest : List ℕ)
        → IsTrue (is_storable_text test text)
        → read_text test (text_bytes text ++ rest) ≡ found text rest }
{}

/// What is read as a field was written as one: its bytes are those of what is found.
pub fn a_field_is_its_bytes()
    ensures u32 { (bytes rest : List ℕ) (n : ℕ)
        → AreAllBytes bytes → read_u32 bytes ≡ found n rest → bytes ≡ u32_bytes n ++ rest }
    ensures u64 { (bytes rest : List ℕ) (n : ℕ)
        → AreAllBytes bytes → read_u64 bytes ≡ found n rest → bytes ≡ u64_bytes n ++ rest }
    ensures u128 { (bytes rest : List ℕ) (n : ℕ)
        → AreAllBytes bytes → read_u128 bytes ≡ found n rest → bytes ≡ u128_bytes n ++ rest }
    ensures i64 { (bytes rest : List ℕ) (z : ℤ)
        → AreAllBytes bytes → read_i64 bytes ≡ found z rest → bytes ≡ i64_bytes z ++ rest }
    ensures truth { (bytes rest : List ℕ) (b : Bool)
        → AreAllBytes bytes → read_truth bytes ≡ found b rest → bytes ≡ truth_bytes b ++ rest }
    ensures text { (test : List ℕ → Bool) (bytes text rest : List ℕ)
        → AreAllBytes bytes → read_text test bytes ≡ found text rest
        → (bytes ≡ text_bytes text ++ rest) × IsTrue (is_storable_text test text) }
{}

/// A storable entry's bytes say that entry, and so does a payload in the older format, whose entry
/// is storable in the written one too; a value's bytes say the value, whatever follows them.
pub fn an_entry_is_read_back()
    ensures written { (entry : Entry)
        → IsStorable entry → payload_says (entry_bytes entry) ≡ holds entry }
    ensures storable { (entry : Entry) (payload : List ℕ)
        → IsPayloadOf entry payload → IsStorable entry }
    ensures either_format { (entry : Entry) (payload : List ℕ)
        → IsPayloadOf entry payload → payload_says payload ≡ holds entry }
    ensures value { (format : ℕ) (v : Value) (rest : List ℕ)
        → IsTrue (is_storable_value format v)
        → read_value format (value_bytes v ++ rest) ≡ found v rest }
{}

/// A payload that says an entry is that entry's bytes, in its format. So a storable entry has one
/// payload in the written format.
pub fn a_payload_is_its_entrys_bytes()
    ensures bytes { (entry : Entry) (payload : List ℕ)
        → AreAllBytes payload → payload_says payload ≡ holds entry → IsPayloadOf entry payload }
    ensures written { (entry : Entry) (fields : List ℕ)
        → IsPayloadOf entry (written_format ∷ fields)
        → written_format ∷ fields ≡ entry_bytes entry }
    ensures value { (format : ℕ) (v : Value) (bytes rest : List ℕ)
        → AreAllBytes bytes → read_value format bytes ≡ found v rest
        → (bytes ≡ value_bytes v ++ rest) × IsTrue (is_storable_value format v) }
{}

/// Each entry of a lawful history is storable, and so is each that may follow one: the laws keep
/// its numbers within their ranges, and its texts in UTF-8.
pub fn entries_of_lawful_histories_are_storable()
    ensures each { (h : List Entry) → IsLawful h → All IsStorable h }
    ensures next { (h : List Entry) (entry : Entry)
        → IsLawful h → IsLawfulAfter h entry → IsStorable entry }
{}

/// A payload is that of one entry at most.
pub fn a_payload_holds_one_entry()
    ensures { (first second : Entry) (payload : List ℕ)
        → IsPayloadOf first payload → IsPayloadOf second payload → first ≡ second }
{}

/// The first misfit begins within the payload, or at its end, where a field is wanting.
pub fn a_fault_lies_in_its_payload()
    ensures { (payload : List ℕ) (byte : ℕ)
        → payload_says payload ≡ breaks_at byte → byte ≤ length payload }
{}

/// The size of an entry, which transactions are judged by, is the number of its payload's bytes.
pub fn an_entrys_size_is_that_of_its_bytes()
    ensures { (format : ℕ) (entry : Entry)
        → length (entry_bytes_in format entry) ≡ entry_size entry.datoms }
{}

/// The records of a log stand for one history at most.
pub fn a_log_stands_for_one_history()
    ensures { (records : List (List ℕ)) (first second : List Entry)
        → LogStands records first → LogStands records second → first ≡ second }
{}

/// A log says the history that it stands for, and none where it stands for none.
pub fn what_a_log_says()
    ensures stands { (records : List (List ℕ)) (h : List Entry)
        → LogStands records h → log_says records ≡ stands_for h }
    ensures says { (records : List (List ℕ)) (h : List Entry)
        → All AreAllBytes records → log_says records ≡ stands_for h → LogStands records h }
{}

/// A file of bytes says one thing as a log, and it says a history exactly where it is a log of that
/// history.
pub fn a_file_says_one_thing_as_a_log()
    ensures one { (file : List ℕ) (said other : LogSays)
        → FileSays file said → FileSays file other → said ≡ other }
    ensures some { (file : List ℕ) → AreAllBytes file → (said : LogSays) × FileSays file said }
    ensures good { (file : List ℕ) (h : List Entry)
        → IsLogOf file h → FileSays file (stands_for h) }
    ensures history { (file : List ℕ) (h : List Entry)
        → AreAllBytes file → FileSays file (stands_for h) → IsLogOf file h }
{}
