//! Laws of forms and values.
ghost use Rattle.std.specs.Prelude.{◌≡◌, ◌≢◌, ℕ, pos, negsuc, codes, IsTrue, Some, None};
ghost use Rattle.edn_model.specs.Form as edn;
ghost use Rattle.edn_model.specs.Form.{Form};
ghost use Rattle.fb_values.specs.declared.facts.Value.{Value};
ghost use Rattle.fb_values.specs.declared.facts.Value.TheVariants.{Keyword, Str, Long, Ref, Uri};
ghost use Rattle.fb_numbers.specs.Numbers.{type_keyword, type_string, type_long, type_ref, type_instant, type_uri};
ghost use Rattle.fb_model.specs.Types.{type_of, is_of_type};
ghost use Rattle.tx_model.specs.Values.{value_in};
ghost use Rattle.edn_values.specs.Values.{value_of_form, form_of_value, is_printed_whole};

/// What is read of a value's form under the value's type is the value.
pub fn read_as_printed()
    ensures { (v : Value) → IsTrue (is_of_type (type_of v) v) → IsTrue (is_printed_whole v)
        → value_of_form (type_of v) (form_of_value v) ≡ Some v }
{}

/// But for entities, a form is the value that it is in a transaction.
pub fn forms_of_other_types()
    ensures other { (kind : ℕ) (f : Form) → kind ≢ type_ref
        → value_of_form kind f ≡ value_in kind f }
    ensures entity { (e : ℕ) → value_of_form type_ref (edn.integer (pos e)) ≡ Some (Ref e) }
    ensures below { (n : ℕ) → value_of_form type_ref (edn.integer (negsuc n)) ≡ None }
{}

/// Worked examples.
pub fn forms_of_values()
    ensures long { value_of_form type_long (edn.integer (negsuc 4)) ≡ Some (Long (negsuc 4)) }
    ensures entity { value_of_form type_ref (edn.integer (pos 17)) ≡ Some (Ref 17) }
    ensures no_entity { value_of_form type_ref (edn.integer (negsuc 0)) ≡ None }
    ensures no_long { value_of_form type_long (edn.string (codes "5")) ≡ None }
    ensures no_type { value_of_form 9 (edn.integer (pos 5)) ≡ None }
    ensures string { value_of_form type_string (edn.string (codes "http://a"))
        ≡ Some (Str (codes "http://a")) }
    ensures uri { value_of_form type_uri (edn.string (codes "http://a"))
        ≡ Some (Uri (codes "http://a")) }
    ensures no_uri { value_of_form type_uri (edn.string (codes "a b")) ≡ None }
    ensures nil { value_of_form type_string edn.nil ≡ None }
    ensures late { value_of_form type_instant (edn.instant (pos 253402300800000)) ≡ None }
    ensures keyword { value_of_form type_keyword (edn.keyword (codes "a/b"))
        ≡ Some (Keyword (codes "a/b")) }
    ensures no_keyword { value_of_form type_keyword (edn.keyword (codes "a b")) ≡ None }
    ensures printed_entity { form_of_value (Ref 17) ≡ edn.integer (pos 17) }
    ensures printed_uri { form_of_value (Uri (codes "http://a")) ≡ edn.string (codes "http://a") }
{}
