//! Which form is which command, by computation.
ghost use Rattle.std.specs.Prelude.{◌≡◌, [], ◌∷◌, codes, replicate, Some, None};
ghost use Rattle.edn_model.specs.Form as edn;
ghost use Rattle.edn_model.specs.Form.{nil, forms};
ghost use Rattle.fb_values.specs.declared.indexes.Order.TheVariants.{Eavt, Aevt, Avet, Vaet};
ghost use Rattle.talk_model.specs.Commands as command;
ghost use Rattle.talk_model.specs.Commands.{look_in, datas_in, command_in};
ghost use Rattle.talk_model.specs.Samples.{said, key, number};

/// Each command.
pub fn words_of_commands()
    ensures transact { command_in (said (codes "transact") (nil ∷ []))
        ≡ Some (command.transact nil) }
    ensures db { command_in (said (codes "db") []) ≡ Some command.db }
    ensures sync { command_in (said (codes "sync") []) ≡ Some command.sync }
    ensures as_of { command_in (said (codes "as-of") (number 3 ∷ []))
        ≡ Some (command.turns (command.as_of (number 3))) }
    ensures since { command_in (said (codes "since") (number 3 ∷ []))
        ≡ Some (command.turns (command.since (number 3))) }
    ensures history { command_in (said (codes "history") []) ≡ Some (command.turns command.history) }
    ensures filter { command_in (said (codes "filter") (key (codes "users") ∷ []))
        ≡ Some (command.turns (command.filter (codes "users"))) }
    ensures unfilter { command_in (said (codes "unfilter") []) ≡ Some (command.turns command.unfilter) }
    ensures request_index { command_in (said (codes "request-index") [])
        ≡ Some (command.read command.request_index) }
    ensures datoms { command_in (said (codes "datoms") (key (codes "eavt") ∷ []))
        ≡ Some (command.looks (command.datoms Eavt [])) }
    ensures one_component { command_in (said (codes "datoms") (key (codes "aevt") ∷ number 1 ∷ []))
        ≡ Some (command.looks (command.datoms Aevt (number 1 ∷ []))) }
    ensures two_components { command_in
        (said (codes "seek") (key (codes "avet") ∷ number 1 ∷ number 2 ∷ []))
        ≡ Some (command.looks (command.seek Avet (number 1 ∷ number 2 ∷ []))) }
    ensures four_components { command_in
        (said (codes "seek") (key (codes "vaet") ∷ number 1 ∷ number 2 ∷ number 3 ∷ number 4 ∷ []))
        ≡ Some (command.looks (command.seek Vaet (number 1 ∷ number 2 ∷ number 3 ∷ number 4 ∷ []))) }
    ensures index_range { command_in
        (said (codes "index-range") (key (codes "p/age") ∷ number 1 ∷ nil ∷ []))
        ≡ Some (command.looks (command.index_range (key (codes "p/age")) (number 1) nil)) }
    ensures tx_range { command_in (said (codes "tx-range") (nil ∷ number 3 ∷ []))
        ≡ Some (command.looks (command.tx_range nil (number 3))) }
    ensures pull { command_in (said (codes "pull") (nil ∷ number 3 ∷ []))
        ≡ Some (command.looks (command.pull nil (number 3))) }
    ensures tried { command_in
        (said (codes "with")
        (edn.vector (forms (nil ∷ [])) ∷ said (codes "tx-range") (nil ∷ nil ∷ []) ∷ []))
        ≡ Some (command.read (command.tried (nil ∷ []) (command.tx_range nil nil))) }
    ensures tuples { command_in (said (codes "tuple-range") (nil ∷ number 1 ∷ number 3 ∷ []))
        ≡ Some (command.read (command.tuples nil (number 1) (number 3))) }
{}

/// Near misses.
pub fn forms_that_are_no_command()
    ensures a_list { command_in (edn.list (forms (key (codes "db") ∷ []))) ≡ None }
    ensures no_word { command_in (edn.vector (forms (edn.symbol (codes "db") ∷ []))) ≡ None }
    ensures nothing { command_in (edn.vector (forms [])) ≡ None }
    ensures another_word { command_in (said (codes "dbs") []) ≡ None }
    ensures too_many { command_in (said (codes "db") (nil ∷ [])) ≡ None }
    ensures too_few { command_in (said (codes "transact") []) ≡ None }
    ensures a_filter_by_no_name { command_in
        (said (codes "filter") (edn.string (codes "users") ∷ []))
        ≡ None }
    ensures no_index { command_in (said (codes "datoms") []) ≡ None }
    ensures another_index { command_in (said (codes "datoms") (key (codes "aave") ∷ [])) ≡ None }
    ensures half_a_range { command_in
        (said (codes "index-range") (key (codes "p/age") ∷ number 1 ∷ []))
        ≡ None }
    ensures nothing_tried { command_in
        (said (codes "with")
        (edn.vector (forms []) ∷ said (codes "tx-range") (nil ∷ nil ∷ []) ∷ []))
        ≡ None }
    ensures tried_before_no_look { command_in
        (said (codes "with") (edn.vector (forms (nil ∷ [])) ∷ said (codes "db") [] ∷ []))
        ≡ None }
    ensures half_a_range_of_tuples { command_in (said (codes "tuple-range") (nil ∷ number 1 ∷ []))
        ≡ None }
    ensures more_than_a_range_of_tuples { command_in
        (said (codes "tuple-range") (nil ∷ nil ∷ nil ∷ nil ∷ []))
        ≡ None }
    ensures tried_before_tuples { command_in
        (said (codes "with")
        (edn.vector (forms (nil ∷ [])) ∷ said (codes "tuple-range") (nil ∷ nil ∷ nil ∷ []) ∷ []))
        ≡ None }
{}

/// A look inside a command, and near misses: what changes the view is none.
pub fn looks_in_forms()
    ensures pull { look_in (said (codes "pull") (nil ∷ number 3 ∷ []))
        ≡ Some (command.pull nil (number 3)) }
    ensures datoms { look_in (said (codes "datoms") (key (codes "eavt") ∷ []))
        ≡ Some (command.datoms Eavt []) }
    ensures a_turn { look_in (said (codes "as-of") (number 3 ∷ [])) ≡ None }
    ensures a_transaction { look_in (said (codes "transact") (nil ∷ [])) ≡ None }
    ensures tuples { look_in (said (codes "tuple-range") (nil ∷ nil ∷ nil ∷ [])) ≡ None }
    ensures another_index { look_in (said (codes "datoms") (key (codes "aave") ∷ [])) ≡ None }
    ensures a_list { look_in
        (edn.list (forms (key (codes "datoms") ∷ key (codes "eavt") ∷ [])))
        ≡ None }
{}

/// From 1 to 64 transactions may be tried.
pub fn transactions_that_may_be_tried()
    ensures one { datas_in (edn.vector (forms (nil ∷ []))) ≡ Some (nil ∷ []) }
    ensures most { datas_in (edn.vector (forms (replicate 64 nil))) ≡ Some (replicate 64 nil) }
    ensures none { datas_in (edn.vector (forms [])) ≡ None }
    ensures too_many { datas_in (edn.vector (forms (replicate 65 nil))) ≡ None }
    ensures a_list { datas_in (edn.list (forms (nil ∷ []))) ≡ None }
{}
