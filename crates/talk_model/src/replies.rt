//! Replies as forms and as lines, by computation.
ghost use Rattle.std.specs.Prelude.{◌≡◌, [], ◌∷◌, pos, true, false, codes, Some, None};
ghost use Rattle.edn_model.specs.Form as edn;
ghost use Rattle.edn_model.specs.Form.{forms, pairs};
ghost use Rattle.fb_values.specs.declared.facts.Value.TheVariants.{Str, Ref, Long};
ghost use Rattle.fb_numbers.specs.Numbers.{user_entity, value_type, transaction_of, type_long};
ghost use Rattle.fb_model.specs.Facts.{facts};
ghost use Rattle.view_model.specs.Scan.{transactions};
ghost use Rattle.view_model.specs.Samples.{datom, ages, texts, hi};
ghost use Rattle.talk_model.specs.Replies.{datom_form, receipt, basis_reply, done_reply, datoms_reply, transactions_reply, with_reply, tuples_reply, refusal_reply, fault_reply, IsLineOf};
ghost use Rattle.talk_model.specs.Samples.{key, number, datom_vector, text_transaction};

/// A datom as a form: an attribute by its keyword, and an entity by its number wherever it is.
pub fn datoms_as_forms()
    ensures a_text { datom_form (facts texts) hi
        ≡ datom_vector (user_entity 1) (codes "db/doc") (edn.string (codes "hi")) (transaction_of 1)
        true }
    ensures of_another_attribute { datom_form (facts ages)
        (datom (user_entity 2) (user_entity 1) (Str (codes "hi")) 4 false)
        ≡ datom_vector (user_entity 2) (codes "p/age") (edn.string (codes "hi")) (transaction_of 4)
        false }
    ensures a_reference { datom_form (facts ages)
        (datom (user_entity 1) value_type (Ref type_long) 1 true)
        ≡ datom_vector (user_entity 1) (codes "db/valueType") (number 13) (transaction_of 1) true }
{}

/// A transaction as a form.
pub fn transactions_as_forms()
    ensures { transactions_reply 1 (facts texts) (transactions texts 1 2)
        ≡ edn.map (pairs (
        (key (codes "basis"), number 1)
        ∷ (key (codes "txs"), edn.vector (forms (text_transaction ∷ [])))
        ∷ [])) }
{}

/// Lines.
pub fn lines_of_replies()
    ensures two_tempids { IsLineOf
        (receipt 1 ((codes "x", user_entity 1) ∷ (codes "y", user_entity 2) ∷ []))
        (codes "{:t 1 :tempids {\"x\" 17592186044417 \"y\" 17592186044418}}\n") }
    ensures no_tempid { IsLineOf (receipt 2 []) (codes "{:t 2 :tempids {}}\n") }
    ensures basis { IsLineOf (basis_reply 3) (codes "{:basis 3}\n") }
    ensures done { IsLineOf (done_reply 3) (codes "{:ok true :basis 3}\n") }
    ensures datoms { IsLineOf (datoms_reply 1 (facts texts) (hi ∷ []))
        (codes "{:basis 1 :datoms [[17592186044417 :db/doc \"hi\" 13194139533313 true]]}\n") }
    ensures no_datom { IsLineOf (datoms_reply 0 (facts texts) [])
        (codes "{:basis 0 :datoms []}\n") }
    ensures no_transaction { IsLineOf (transactions_reply 0 (facts texts) [])
        (codes "{:basis 0 :txs []}\n") }
    ensures tried { IsLineOf
        (with_reply 1 (record { t = 2; tempids = [] } ∷ []) (basis_reply 2))
        (codes "{:basis 1 :with [{:t 2 :tempids {}}] :reply {:basis 2}}\n") }
    ensures a_tuple { IsLineOf
        (tuples_reply 2
        (record { tuple = Some (Long (pos 1)) ∷ None ∷ []; e = user_entity 4 } ∷ []))
        (codes "{:basis 2 :tuples [[[1 nil] 17592186044420]]}\n") }
    ensures no_tuple { IsLineOf (tuples_reply 2 []) (codes "{:basis 2 :tuples []}\n") }
    ensures refused { IsLineOf (refusal_reply (codes "read/bad-point") 1 3)
        (codes "{:refused :read/bad-point :at 1 :basis 3}\n") }
    ensures not_taken { IsLineOf (fault_reply (codes "log") 4 3)
        (codes "{:fault :log :at 4 :basis 3}\n") }
    ensures stopped { IsLineOf (fault_reply (codes "log-stopped") 4 3)
        (codes "{:fault :log-stopped :at 4 :basis 3}\n") }
{}
