//! Reads: all commands but `:transact`, `:db` and `:sync`, and what is not a command.
ghost use Rattle.std.specs.Prelude.{◌≡◌, ℕ, Bool, Option, Some, None, List};
ghost use Rattle.std.specs.Option.{option_map};
ghost use Rattle.edn_model.specs.Form.{Form};
ghost use Rattle.fb_values.specs.declared.facts.Datom.{Datom};
ghost use Rattle.fb_values.specs.declared.facts.Entry.{Entry};
ghost use Rattle.fb_model.specs.Lawful.{IsLawful};
ghost use Rattle.view_model.specs.Window.{Window};
ghost use Rattle.tx_model.specs.Step.{Guard};
ghost use Rattle.talk_model.specs.Commands.{Look, Read, look, tried, tuples, request_index, read, command_in};
ghost use Rattle.talk_model.specs.Reads.{IsReply};
ghost use Rattle.talk_model.specs.Computed.{tested, reply};
ghost use Rattle.talk_model.specs.Session.{Standing, setting};
ghost use Rattle.talk_model.specs.Talk.{IsAnswered};

use crate::talks::Surroundings;

/// A read has one answer: one line, and one standing of its session after it.
pub fn a_read_has_one_answer<S: Surroundings>()
    ensures { (s : S) (guard : Guard) (is_filter : List ℕ → Bool) (h : List Entry) (stop : Option ℕ)
        (teller : Bool) (before after other : Standing) (f : Form) (asked : Option Read)
        (line that : List ℕ) (commit last : Option ℕ)
        → let here = setting (S.may s) (S.selects s) guard is_filter h stop teller in
        IsLawful h → command_in f ≡ option_map read asked
        → IsAnswered here before f after line commit → IsAnswered here before f other that last
        → (after ≡ other) × (line ≡ that) × (commit ≡ last) }
{}

/// What only looks leaves its session as it was, also where transactions are tried, and so do a request for an index and what is
/// not a command.
pub fn looks_change_nothing<S: Surroundings>()
    ensures look { (s : S) (guard : Guard) (is_filter : List ℕ → Bool) (h : List Entry)
        (stop : Option ℕ) (teller : Bool) (before after : Standing) (f : Form) (l : Look)
        (line : List ℕ) (commit : Option ℕ)
        → let here = setting (S.may s) (S.selects s) guard is_filter h stop teller in
        command_in f ≡ Some (read (look l)) → IsAnswered here before f after line commit
        → after ≡ before }
    ensures tried { (s : S) (guard : Guard) (is_filter : List ℕ → Bool) (h : List Entry)
        (stop : Option ℕ) (teller : Bool) (before after : Standing) (f : Form) (datas : List Form)
        (l : Look) (line : List ℕ) (commit : Option ℕ)
        → let here = setting (S.may s) (S.selects s) guard is_filter h stop teller in
        command_in f ≡ Some (read (tried datas l)) → IsAnswered here before f after line commit
        → after ≡ before }
    ensures tuples { (s : S) (guard : Guard) (is_filter : List ℕ → Bool) (h : List Entry)
        (stop : Option ℕ) (teller : Bool) (before after : Standing) (f names start end : Form)
        (line : List ℕ) (commit : Option ℕ)
        → let here = setting (S.may s) (S.selects s) guard is_filter h stop teller in
        command_in f ≡ Some (read (tuples names start end))
        → IsAnswered here before f after line commit → after ≡ before }
    ensures request { (s : S) (guard : Guard) (is_filter : List ℕ → Bool) (h : List Entry)
        (stop : Option ℕ) (teller : Bool) (before after : Standing) (f : Form) (line : List ℕ)
        (commit : Option ℕ)
        → let here = setting (S.may s) (S.selects s) guard is_filter h stop teller in
        command_in f ≡ Some (read request_index) → IsAnswered here before f after line commit
        → after ≡ before }
    ensures no_command { (s : S) (guard : Guard) (is_filter : List ℕ → Bool) (h : List Entry)
        (stop : Option ℕ) (teller : Bool) (before after : Standing) (f : Form) (line : List ℕ)
        (commit : Option ℕ)
        → let here = setting (S.may s) (S.selects s) guard is_filter h stop teller in
        command_in f ≡ None → IsAnswered here before f after line commit → after ≡ before }
{}

/// No read moves its session on in the history.
pub fn reads_keep_their_place<S: Surroundings>()
    ensures { (s : S) (guard : Guard) (is_filter : List ℕ → Bool) (h : List Entry) (stop : Option ℕ)
        (teller : Bool) (before after : Standing) (f : Form) (asked : Option Read) (line : List ℕ)
        (commit : Option ℕ)
        → let here = setting (S.may s) (S.selects s) guard is_filter h stop teller in
        command_in f ≡ option_map read asked → IsAnswered here before f after line commit
        → after.place ≡ before.place }
{}

/// Each read has an answer: where filters are tests, the computed reply.
pub fn reads_are_computed_by_tests()
    ensures { (h : List Entry) (w : Window) (names : List (List ℕ))
        (filters : List (Datom → Bool)) (is_filter : List ℕ → Bool) (guard : Guard)
        (asked : Option Read)
        → let sight = tested h w names filters is_filter guard in
        IsLawful h → IsReply sight asked (reply sight filters asked) }
{}
