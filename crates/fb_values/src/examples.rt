//! Worked examples of the orders: each clause is one, and there is nothing to run.
ghost use Rattle.std.specs.Prelude.{◌≡◌, ◌^◌, [], ◌∷◌, codes, pos, negsuc, true, false, Some, None};
ghost use Rattle.std.specs.declared.cmp.Ordering.TheVariants.{Less, Equal, Greater};
ghost use Rattle.fb_values.specs.Orders.{value_cmp, key_cmp, given, probe_cmp};
ghost use Rattle.fb_values.specs.Samples.{datom, probe};

use crate::facts::Value;
use crate::indexes::Order;

/// Each type against the next one, at values that any comparison within a type would turn round.
pub fn types_in_their_order()
    ensures keyword_string { value_cmp (Value.Keyword (codes "z")) (Value.Str (codes "a")) ≡ Less }
    ensures string_boolean { value_cmp (Value.Str (codes "z")) (Value.Bool false) ≡ Less }
    ensures boolean_long { value_cmp (Value.Bool true) (Value.Long (negsuc 8)) ≡ Less }
    ensures long_ref { value_cmp (Value.Long (pos 9)) (Value.Ref 1) ≡ Less }
    ensures ref_instant { value_cmp (Value.Ref 9) (Value.Instant (pos 1)) ≡ Less }
    ensures instant_uuid { value_cmp (Value.Instant (pos 9)) (Value.Uuid 1) ≡ Less }
    ensures uuid_symbol { value_cmp (Value.Uuid 9) (Value.Symbol (codes "a")) ≡ Less }
    ensures symbol_uri { value_cmp (Value.Symbol (codes "z")) (Value.Uri (codes "a")) ≡ Less }
    ensures uri_keyword { value_cmp (Value.Uri (codes "a")) (Value.Keyword (codes "z")) ≡ Greater }
{}

pub fn values_of_one_type()
    // Bytes decide, not letters: `Z` is 90, `a` is 97, and U+00E9 is the bytes 195 and 169.
    ensures bytes { value_cmp (Value.Str (codes "Z")) (Value.Str (codes "a")) ≡ Less }
    ensures utf8 { value_cmp (Value.Str (codes "z")) (Value.Str (195 ∷ 169 ∷ [])) ≡ Less }
    ensures prefix { value_cmp (Value.Keyword (codes "a")) (Value.Keyword (codes "a/b")) ≡ Less }
    ensures empty { value_cmp (Value.Str []) (Value.Str (codes "a")) ≡ Less }
    ensures same { value_cmp (Value.Symbol (codes "x")) (Value.Symbol (codes "x")) ≡ Equal }
    ensures booleans { value_cmp (Value.Bool false) (Value.Bool true) ≡ Less }
    ensures negative { value_cmp (Value.Long (negsuc 9)) (Value.Long (negsuc 8)) ≡ Less }
    ensures before_epoch { value_cmp (Value.Instant (negsuc 0)) (Value.Instant (pos 0)) ≡ Less }
    ensures unsigned { value_cmp (Value.Uuid (2 ^ 127)) (Value.Uuid 1) ≡ Greater }
{}

/// The entities and the values of these two datoms rise, their attributes fall.
pub fn first_component_that_differs()
    ensures eavt { key_cmp Order.Eavt (datom 1 20 (Value.Long (pos 5)) 3)
        (datom 2 10 (Value.Long (pos 6)) 3)
        ≡ Less }
    ensures aevt { key_cmp Order.Aevt (datom 1 20 (Value.Long (pos 5)) 3)
        (datom 2 10 (Value.Long (pos 6)) 3)
        ≡ Greater }
    ensures avet { key_cmp Order.Avet (datom 1 20 (Value.Long (pos 5)) 3)
        (datom 2 10 (Value.Long (pos 6)) 3)
        ≡ Greater }
    ensures vaet { key_cmp Order.Vaet (datom 1 20 (Value.Long (pos 5)) 3)
        (datom 2 10 (Value.Long (pos 6)) 3)
        ≡ Less }
{}

/// After the attribute AEVT goes by the entity and AVET by the value.
pub fn second_component()
    ensures aevt { key_cmp Order.Aevt (datom 1 10 (Value.Long (pos 6)) 3)
        (datom 2 10 (Value.Long (pos 5)) 3)
        ≡ Less }
    ensures avet { key_cmp Order.Avet (datom 1 10 (Value.Long (pos 6)) 3)
        (datom 2 10 (Value.Long (pos 5)) 3)
        ≡ Greater }
    ensures vaet { key_cmp Order.Vaet (datom 1 20 (Value.Ref 7) 3) (datom 2 10 (Value.Ref 7) 3)
        ≡ Greater }
{}

pub fn t_ascends()
    ensures eavt { key_cmp Order.Eavt (datom 1 10 (Value.Ref 7) 3) (datom 1 10 (Value.Ref 7) 4)
        ≡ Less }
    ensures vaet { key_cmp Order.Vaet (datom 1 10 (Value.Ref 7) 4) (datom 1 10 (Value.Ref 7) 3)
        ≡ Greater }
{}

/// A probe of an entity and a value without an attribute.
pub fn probes_with_a_gap()
    ensures eavt { given (probe Order.Eavt (Some 1) None (Some (Value.Ref 9))) ≡ Value.Ref 1 ∷ [] }
    ensures aevt { given (probe Order.Aevt (Some 1) None (Some (Value.Ref 9))) ≡ [] }
    ensures vaet { given (probe Order.Vaet (Some 1) None (Some (Value.Ref 9))) ≡ Value.Ref 9 ∷ [] }
    ensures behind_the_gap { probe_cmp (probe Order.Eavt (Some 1) None (Some (Value.Ref 9)))
        (datom 1 10 (Value.Ref 7) 3)
        ≡ Equal }
    ensures before_the_gap { probe_cmp (probe Order.Eavt (Some 1) None (Some (Value.Ref 9)))
        (datom 2 10 (Value.Ref 9) 3)
        ≡ Less }
{}

pub fn probes_without_a_gap()
    ensures equal { probe_cmp (probe Order.Avet None (Some 10) (Some (Value.Ref 7)))
        (datom 1 10 (Value.Ref 7) 3)
        ≡ Equal }
    ensures above { probe_cmp (probe Order.Avet None (Some 10) (Some (Value.Ref 9)))
        (datom 1 10 (Value.Ref 7) 3)
        ≡ Greater }
    ensures of_nothing { probe_cmp (probe Order.Vaet None None None) (datom 1 10 (Value.Ref 7) 3)
        ≡ Equal }
{}
