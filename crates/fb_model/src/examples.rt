//! Examples, by computation.
ghost use Rattle.std.specs.Prelude.{◌≡◌, ◌-◌, ◌^◌, [], ◌∷◌, length, IsTrue, IsFalse, pos, negsuc, ◌-ℤ◌, true, false, Some, None, codes};
ghost use Rattle.fb_values.specs.declared.facts.Value.TheVariants.{Keyword, Str, Ref, Long, Instant, Uuid, Symbol, Uri, Bool};
ghost use Rattle.fb_values.specs.declared.indexes.Order.TheVariants.{Eavt, Avet, Vaet};
ghost use Rattle.fb_values.specs.Rising.{rises};
ghost use Rattle.fb_numbers.specs.Numbers.{user_entity, user_number, ident, cardinality, unique, index, doc, type_long, type_ref, unique_value, cardinality_many};
ghost use Rattle.fb_model.specs.FirstEntry.{first_entry};
ghost use Rattle.fb_model.specs.Words.{is_keyword_text, is_symbol_text, is_uri_text, is_reserved};
ghost use Rattle.fb_model.specs.Rising.{in_order};
ghost use Rattle.fb_model.specs.History.{next_instant, users_issued, is_issued};
ghost use Rattle.fb_model.specs.Facts.{facts, holds, value_of};
ghost use Rattle.fb_model.specs.Types.{is_of_type, is_well_formed};
ghost use Rattle.fb_model.specs.Schema.{attribute_of, attribute_named, is_many, is_unique, covers, named, schema_of};
ghost use Rattle.fb_model.specs.Lawful.{IsLawful, IsLawfulAfter, least_law};
ghost use Rattle.fb_model.specs.Samples.{datom, entry_of, hi, hi_entry, makes_attribute, age, ages, altered_doc};

/// The first entry has 40 datoms, which strictly rise.
pub fn first_entry_has_forty_datoms()
    ensures forty { length first_entry.datoms ≡ 40 }
    ensures rising { IsTrue (rises Eavt first_entry.datoms) }
    ensures sorted { in_order Eavt first_entry.datoms ≡ first_entry.datoms }
{}

/// User entities are counted from 17592186044417 on, and transactions from 13194139533312 on.
pub fn first_user_entity()
    ensures first_user { user_entity 1 ≡ 17592186044417 }
    ensures back { user_number 17592186044417 ≡ 1 }
    ensures none_at_first { users_issued (first_entry ∷ []) ≡ 0 }
    ensures built_in { IsTrue (is_issued (first_entry ∷ []) 18) }
    ensures kept_back { IsFalse (is_issued (first_entry ∷ []) 9) }
    ensures transaction { IsTrue (is_issued (first_entry ∷ []) 13194139533312) }
    ensures next_transaction { IsFalse (is_issued (first_entry ∷ []) 13194139533313) }
    ensures user { IsFalse (is_issued (first_entry ∷ []) 17592186044417) }
    ensures user_behind { IsTrue (is_issued (first_entry ∷ hi_entry ∷ []) 17592186044417) }
{}

/// Two transactions at one reading of the clock, and readings outside the range of instants.
pub fn instants_rise_under_a_clock_that_stands_still()
    ensures first { next_instant (first_entry ∷ []) (pos 1704067200001) ≡ pos 1704067200001 }
    ensures second { next_instant (first_entry ∷ hi_entry ∷ []) (pos 1704067200001)
        ≡ pos 1704067200002 }
    ensures early { next_instant (first_entry ∷ []) (pos 0 -ℤ pos 99999999999999) ≡ pos 1 }
    ensures late { next_instant (first_entry ∷ []) (pos 253402300800000) ≡ pos 253402300799999 }
{}

/// Texts of keywords, symbols and uris.
pub fn words()
    ensures keyword { IsTrue (is_keyword_text (codes "person/email")) }
    ensures no_namespace { IsTrue (is_keyword_text (codes "name")) }
    ensures two_slashes { IsFalse (is_keyword_text (codes "a/b/c")) }
    ensures empty_name { IsFalse (is_keyword_text (codes "a/")) }
    ensures colon { IsFalse (is_keyword_text (codes ":a")) }
    ensures symbol { IsTrue (is_symbol_text (codes "-a/b")) }
    ensures slash { IsTrue (is_symbol_text (codes "/")) }
    ensures number { IsFalse (is_symbol_text (codes "-1")) }
    ensures nothing { IsFalse (is_symbol_text (codes "nil")) }
    ensures uri { IsTrue (is_uri_text (codes "http://a")) }
    ensures uri_with_space { IsFalse (is_uri_text (codes "a b")) }
    ensures reserved { IsTrue (is_reserved (codes "db.type/long")) }
    ensures not_reserved { IsFalse (is_reserved (codes "dbx/long")) }
{}

/// Values and their types.
pub fn types()
    ensures long { IsTrue (is_of_type type_long (Long (pos 5))) }
    ensures other { IsFalse (is_of_type type_ref (Long (pos 5))) }
    ensures instant { IsFalse (is_of_type 15 (Instant (pos 253402300800000))) }
    ensures keyword { IsFalse (is_of_type 10 (Keyword (codes "a b"))) }
{}

/// Numbers at the ends of their ranges, and the first past them.
pub fn numbers_of_values()
    ensures greatest { IsTrue (is_well_formed (Long (pos (2 ^ 63 - 1)))) }
    ensures past_greatest { IsFalse (is_well_formed (Long (pos (2 ^ 63)))) }
    ensures least { IsTrue (is_well_formed (Long (negsuc (2 ^ 63 - 1)))) }
    ensures before_least { IsFalse (is_well_formed (Long (negsuc (2 ^ 63)))) }
    ensures last_reference { IsTrue (is_well_formed (Ref (2 ^ 64 - 1))) }
    ensures past_references { IsFalse (is_well_formed (Ref (2 ^ 64))) }
    ensures last_uuid { IsTrue (is_well_formed (Uuid (2 ^ 128 - 1))) }
    ensures past_uuids { IsFalse (is_well_formed (Uuid (2 ^ 128))) }
{}

/// Texts that are UTF-8, and bytes that are not: one that begins no character, a character that its end cuts off, one that
/// takes more bytes than it needs, and half of a pair of UTF-16.
pub fn texts_of_values()
    ensures city { IsTrue (is_well_formed (Str (90 ∷ 195 ∷ 188 ∷ 114 ∷ 105 ∷ 99 ∷ 104 ∷ []))) }
    ensures empty { IsTrue (is_well_formed (Str [])) }
    ensures no_character { IsFalse (is_well_formed (Str (255 ∷ []))) }
    ensures cut_off { IsFalse (is_well_formed (Str (90 ∷ 195 ∷ []))) }
    ensures overlong { IsFalse (is_well_formed (Str (192 ∷ 128 ∷ []))) }
    ensures surrogate { IsFalse (is_well_formed (Str (237 ∷ 160 ∷ 128 ∷ []))) }
    ensures keyword { IsTrue (is_well_formed (Keyword (195 ∷ 188 ∷ []))) }
    ensures no_keyword { IsFalse (is_well_formed (Keyword (255 ∷ []))) }
    ensures no_symbol { IsFalse (is_well_formed (Symbol (97 ∷ 255 ∷ []))) }
    ensures no_uri { IsFalse (is_well_formed (Uri (195 ∷ 188 ∷ []))) }
{}

/// The schema of the first entry, and of a history that installs an attribute.
pub fn schemas()
    ensures ident { covers (facts (first_entry ∷ [])) Avet ident ≡ true }
    ensures instants { covers (facts (first_entry ∷ [])) Avet 8 ≡ true }
    ensures doc { covers (facts (first_entry ∷ [])) Avet doc ≡ false }
    ensures refs { covers (facts (first_entry ∷ [])) Vaet cardinality ≡ true }
    ensures eight { length (schema_of (first_entry ∷ [])).attributes ≡ 8 }
    ensures thirteen { length (schema_of (first_entry ∷ [])).names ≡ 13 }
    ensures many { is_many (facts (first_entry ∷ [])) ident ≡ false }
    ensures unique { is_unique (facts (first_entry ∷ [])) ident ≡ true }
    ensures installed { named (facts ages) (codes "p/age") ≡ Some age }
    ensures attribute { attribute_named (facts ages) (codes "p/age")
        ≡ Some (record {
          id = age;
          name = codes "p/age";
          kind = type_long;
          many = false;
          uniqueness = 0;
          component = false;
          indexed = false;
        }) }
    ensures no_attribute { attribute_of (facts ages) type_long ≡ None }
    ensures value { value_of (facts ages) (user_entity 2) age ≡ Some (Long (pos 5)) }
    ensures holds { holds ages (user_entity 3) age (Long (pos 5)) ≡ true }
{}

/// Lawful entries: a text of a new entity; an attribute; its index, and its cardinality.
pub fn later_entries()
    ensures lawful { IsLawfulAfter (first_entry ∷ []) hi_entry }
    ensures history { IsLawful ages }
    ensures none_broken { least_law (first_entry ∷ []) hi_entry ≡ None }
    ensures indexed { least_law ages (entry_of 3 (datom age index (Bool true) 3 true ∷ [])) ≡ None }
    ensures altered { least_law ages (entry_of 3
        (datom age cardinality (Ref 20) 3 false ∷ datom age cardinality (Ref 21) 3 true ∷ []))
        ≡ None }
{}

/// For each law an entry that breaks it and none before it.
pub fn unlawful_entries()
    ensures t { least_law ages (entry_of 2 []) ≡ Some 1 }
    ensures instant { least_law ages (record { t = 3; instant = pos 1704067200002; datoms = [] })
        ≡ Some 2 }
    ensures gap { least_law ages (entry_of 3 (hi 3 (user_entity 5) ∷ [])) ≡ Some 3 }
    ensures not_installed { least_law ages
        (entry_of 3 (datom (user_entity 2) (user_entity 3) (Long (pos 1)) 3 true ∷ []))
        ≡ Some 3 }
    ensures not_asserted { least_law ages
        (entry_of 3 (datom (user_entity 4) doc (Str (codes "hi")) 3 false ∷ []))
        ≡ Some 3 }
    ensures value_type { least_law ages
        (entry_of 3 (datom (user_entity 2) age (Str (codes "6")) 3 true ∷ []))
        ≡ Some 4 }
    ensures order { least_law ages (entry_of 3 (hi 3 (user_entity 3) ∷ hi 3 (user_entity 2) ∷ []))
        ≡ Some 5 }
    ensures other_t { least_law ages (entry_of 3 (hi 2 (user_entity 3) ∷ [])) ≡ Some 5 }
    ensures said_again { least_law ages
        (entry_of 3 (datom (user_entity 2) age (Long (pos 5)) 3 true ∷ []))
        ≡ Some 6 }
    ensures never_said { least_law ages
        (entry_of 3 (datom (user_entity 2) age (Long (pos 6)) 3 false ∷ []))
        ≡ Some 6 }
    ensures two_values { least_law ages
        (entry_of 3 (datom (user_entity 2) age (Long (pos 6)) 3 true ∷ []))
        ≡ Some 7 }
    ensures two_holders { least_law ages
        (entry_of 3 (datom age unique (Ref unique_value) 3 true ∷ []))
        ≡ Some 8 }
    ensures not_whole { least_law ages
        (entry_of 3 (makes_attribute 3 (user_entity 4) (codes "p/_x") cardinality_many))
        ≡ Some 9 }
    ensures half_an_attribute { least_law ages
        (entry_of 3 (datom (user_entity 4) cardinality (Ref cardinality_many) 3 true ∷ []))
        ≡ Some 9 }
    ensures renamed { least_law ages (entry_of 3 (datom age ident (Keyword (codes "p/age")) 3 false
        ∷ datom age ident (Keyword (codes "p/years")) 3 true ∷ []))
        ≡ Some 9 }
    ensures built_in { least_law ages altered_doc ≡ Some 9 }
    ensures reserved { least_law ages
        (entry_of 3 (datom (user_entity 4) ident (Keyword (codes "db/x")) 3 true ∷ []))
        ≡ Some 9 }
    ensures no_instant { least_law ages
        (record { t = 3; instant = pos 1704067200003; datoms = hi 3 (user_entity 2) ∷ [] })
        ≡ Some 9 }
{}
