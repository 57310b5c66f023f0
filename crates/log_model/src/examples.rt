//! Examples, by computation.
ghost use Rattle.std.specs.Prelude.{◌≡◌, ◌++◌, [], ◌∷◌, length, take, drop, codes, pos, negsuc, true, false};
ghost use Rattle.fb_values.specs.declared.facts.Value.TheVariants.{Keyword, Str, Bool, Long, Ref, Instant, Uuid, Symbol};
ghost use Rattle.fb_model.specs.FirstEntry.{first_entry};
ghost use Rattle.fb_numbers.specs.Numbers.{transaction_of, user_entity, tx_instant, doc};
ghost use Rattle.disk_model.specs.Journal.{log_mark, opened, JournalStands, JournalBreaks};
ghost use Rattle.tx_model.specs.Size.{entry_size};
ghost use Rattle.log_model.specs.Fields.{u32_bytes, u64_bytes, i64_bytes, truth_bytes};
ghost use Rattle.log_model.specs.Values.{value_bytes, is_format};
ghost use Rattle.log_model.specs.Payload.{entry_bytes, entry_bytes_in, payload_says, holds, breaks_at};
ghost use Rattle.log_model.specs.Storable.{is_storable_value, is_storable_datom, is_storable_in};
ghost use Rattle.log_model.specs.Log.{log_says, stands_for, bad_record, unlawful};
ghost use Rattle.log_model.specs.Samples.{hi_entry, entry_head, instant_datom, hi_datom, hi_payload, hi_log, with_byte, record_with, new_year, hi, hi_history, keyword_entry, accented_entry, symbol_entry, uri_entry};

/// The first transaction of a log: its 92 bytes, field by field.
pub fn first_payload()
    ensures bytes { length hi_log ≡ 92 }
    ensures log { hi_log ≡ log_mark ++ opened (entry_bytes hi_entry ∷ []) ++ 0 ∷ [] }
    ensures size { entry_size hi_entry.datoms ≡ 67 }
    ensures format { take 1 hi_payload ≡ 2 ∷ [] }
    ensures t { take 4 (drop 1 hi_payload) ≡ u32_bytes 1 }
    ensures instant { take 8 (drop 5 hi_payload) ≡ i64_bytes new_year }
    ensures count { take 4 (drop 13 hi_payload) ≡ u32_bytes 2 }
    ensures first_datom { instant_datom
        ≡ u64_bytes (transaction_of 1)
        ++ u64_bytes tx_instant
        ++ value_bytes (Instant new_year)
        ++ truth_bytes true }
    ensures second_datom { hi_datom
        ≡ u64_bytes (user_entity 1)
        ++ u64_bytes doc
        ++ value_bytes (Str (codes "hi"))
        ++ truth_bytes true }
    ensures older { entry_bytes_in 1 hi_entry ≡ with_byte 0 1 hi_payload }
{}

/// What payloads of other fields say: each type of value, and the older format.
pub fn payloads_with_other_fields()
    ensures written { payload_says hi_payload ≡ holds hi_entry }
    ensures older { payload_says (with_byte 0 1 hi_payload) ≡ holds hi_entry }
    ensures keyword { value_bytes (Keyword (codes "a/b")) ≡ 1 ∷ 0 ∷ 0 ∷ 0 ∷ 3 ∷ 97 ∷ 47 ∷ 98 ∷ [] }
    ensures truth { value_bytes (Bool true) ≡ 3 ∷ 1 ∷ [] }
    ensures minus_one { value_bytes (Long (negsuc 0))
        ≡ 4 ∷ 255 ∷ 255 ∷ 255 ∷ 255 ∷ 255 ∷ 255 ∷ 255 ∷ 255 ∷ [] }
    ensures least { value_bytes (Long (negsuc 9223372036854775807))
        ≡ 4 ∷ 128 ∷ 0 ∷ 0 ∷ 0 ∷ 0 ∷ 0 ∷ 0 ∷ 0 ∷ [] }
    ensures entity { value_bytes (Ref 258) ≡ 5 ∷ 0 ∷ 0 ∷ 0 ∷ 0 ∷ 0 ∷ 0 ∷ 1 ∷ 2 ∷ [] }
    ensures uuid { value_bytes (Uuid 0x000102030405060708090a0b0c0d0e0f)
        ≡ 7 ∷ 0 ∷ 1 ∷ 2 ∷ 3 ∷ 4 ∷ 5 ∷ 6 ∷ 7 ∷ 8 ∷ 9 ∷ 10 ∷ 11 ∷ 12 ∷ 13 ∷ 14 ∷ 15 ∷ [] }
    ensures symbol { payload_says (entry_bytes symbol_entry) ≡ holds symbol_entry }
    ensures uri { payload_says (entry_bytes uri_entry) ≡ holds uri_entry }
    ensures past_ascii { payload_says (entry_bytes accented_entry) ≡ holds accented_entry }
{}

/// Payloads that hold no entry, each with the byte at which the first misfit begins.
pub fn payloads_that_break()
    ensures empty { payload_says [] ≡ breaks_at 0 }
    ensures other_format { payload_says (with_byte 0 3 hi_payload) ≡ breaks_at 0 }
    ensures format_alone { payload_says (2 ∷ []) ≡ breaks_at 1 }
    ensures third_datom_wanting { payload_says (with_byte 16 3 hi_payload) ≡ breaks_at 67 }
    ensures one_datom { payload_says (with_byte 16 1 hi_payload) ≡ breaks_at 43 }
    ensures no_tag { payload_says (with_byte 33 0 hi_payload) ≡ breaks_at 33 }
    ensures past_tags { payload_says (with_byte 33 10 hi_payload) ≡ breaks_at 33 }
    ensures not_added { payload_says (with_byte 42 2 hi_payload) ≡ breaks_at 42 }
    ensures long_text { payload_says (with_byte 63 4 hi_payload) ≡ breaks_at 64 }
    ensures short_text { payload_says (with_byte 63 1 hi_payload) ≡ breaks_at 65 }
    ensures no_utf_8 { payload_says (with_byte 64 0xc3 hi_payload) ≡ breaks_at 64 }
    ensures no_keyword { payload_says (with_byte 64 58 (with_byte 59 1 hi_payload)) ≡ breaks_at 64 }
    ensures keyword { payload_says (with_byte 59 1 hi_payload) ≡ holds keyword_entry }
    ensures no_symbol { payload_says (with_byte 64 49 (with_byte 59 8 hi_payload)) ≡ breaks_at 64 }
    ensures symbol_in_the_older { payload_says (with_byte 0 1 (with_byte 59 8 hi_payload))
        ≡ breaks_at 59 }
    ensures uri_in_the_older { payload_says (with_byte 0 1 (with_byte 59 9 hi_payload))
        ≡ breaks_at 59 }
    ensures no_truth { payload_says
        (entry_head ++ instant_datom ++ take 16 hi_datom ++ 3 ∷ 2 ∷ 1 ∷ [])
        ≡ breaks_at 60 }
    ensures one_byte_short { payload_says (take 66 hi_payload) ≡ breaks_at 66 }
    ensures one_byte_long { payload_says (hi_payload ++ 0 ∷ []) ≡ breaks_at 67 }
{}

/// Which entries are storable: their numbers are within their types, their texts are UTF-8, and
/// their datoms have their t.
pub fn storable_entries()
    ensures written { is_storable_in 2 hi_entry ≡ true }
    ensures older { is_storable_in 1 hi_entry ≡ true }
    ensures no_format { is_format 3 ≡ false }
    ensures symbol { is_storable_value 2 (Symbol (codes "a")) ≡ true }
    ensures symbol_in_the_older { is_storable_value 1 (Symbol (codes "a")) ≡ false }
    ensures number_for_a_symbol { is_storable_value 2 (Symbol (codes "1")) ≡ false }
    ensures greatest { is_storable_value 2 (Long (pos 9223372036854775807)) ≡ true }
    ensures past_greatest { is_storable_value 2 (Long (pos 9223372036854775808)) ≡ false }
    ensures before_least { is_storable_value 2 (Long (negsuc 9223372036854775808)) ≡ false }
    ensures past_entities { is_storable_value 2 (Ref 18446744073709551616) ≡ false }
    ensures no_utf_8 { is_storable_value 2 (Str (0xc3 ∷ 105 ∷ [])) ≡ false }
    ensures other_t { is_storable_datom 2 2 hi ≡ false }
{}

/// Journals of a log, each with one byte changed: their first fault lies before any payload is
/// read.
pub fn bad_journals()
    ensures good { JournalStands log_mark (hi_payload ∷ []) hi_log }
    ensures mark { JournalBreaks log_mark [] (with_byte 0 0 hi_log) 0 0 }
    ensures closed { JournalStands log_mark [] (with_byte 15 0 hi_log) }
    ensures one_byte_long { JournalBreaks log_mark [] (with_byte 23 0x44 hi_log) 0 16 }
    ensures one_byte_short { JournalBreaks log_mark (take 66 hi_payload ∷ [])
        (with_byte 23 0x42 hi_log) 1 91 }
    ensures no_length { JournalBreaks log_mark [] (log_mark ++ 1 ∷ 0 ∷ []) 0 16 }
{}

/// Logs of one record that holds no entry: which record, and at which byte of the log. Tag 8 is one
/// of the newer format alone.
pub fn bad_logs()
    ensures good { log_says (record_with 24 2) ≡ stands_for hi_history }
    ensures older { log_says (record_with 24 1) ≡ stands_for hi_history }
    ensures none { log_says [] ≡ stands_for (first_entry ∷ []) }
    ensures format { log_says (record_with 24 9) ≡ bad_record 0 24 }
    ensures tag { log_says (record_with 57 0) ≡ bad_record 0 57 }
    ensures added { log_says (record_with 66 2) ≡ bad_record 0 66 }
    ensures newer_tag { log_says (with_byte 0 1 (with_byte 59 8 hi_payload) ∷ [])
        ≡ bad_record 0 83 }
    ensures second { log_says (hi_payload ∷ with_byte 0 9 hi_payload ∷ []) ≡ bad_record 1 100 }
    ensures record_before_law { log_says (with_byte 4 2 hi_payload ∷ [] ∷ []) ≡ bad_record 1 100 }
{}

/// Logs whose records hold entries, one of which breaks a law.
pub fn unlawful_logs()
    ensures t { log_says (record_with 28 2) ≡ unlawful 1 1 }
    ensures instant { log_says
        ((take 5 hi_payload ++ 0 ∷ 0 ∷ 0 ∷ 0 ∷ 0 ∷ 0 ∷ 0 ∷ 0 ∷ drop 13 hi_payload) ∷ [])
        ≡ unlawful 1 2 }
    ensures attribute { log_says (record_with 82 9) ≡ unlawful 1 3 }
    ensures retracted { log_says (record_with 90 0) ≡ unlawful 1 3 }
    ensures keyword { log_says (record_with 83 1) ≡ unlawful 1 4 }
    ensures again { log_says (hi_payload ∷ hi_payload ∷ []) ≡ unlawful 2 1 }
{}
