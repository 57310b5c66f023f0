//! What answers lines.
ghost use Rattle.std.specs.Prelude.{◌≡◌, ℕ, List, [], ◌∷◌, ◌++◌, None, codes};
ghost use Rattle.edn_model.specs.Faults.{bad, unsupported, float, deep, cut};
ghost use Rattle.talk_model.specs.Replies.{IsLineOf};
ghost use Rattle.talk_model.specs.Samples.{said, exchange};
ghost use Rattle.live_model.specs.Readings.{whole, fault};
ghost use Rattle.live_model.specs.Unreadable.{unreadable_reply, unreadable, closing, too_long};
ghost use Rattle.live_model.specs.Answers.{Answer, replies, talk_of, written};

/// The bytes of the reply are the line of its form; each kind of fault, and a line that is too long.
pub fn replies_that_name_a_fault()
    ensures line { (kind : List ℕ) (byte : ℕ)
        → IsLineOf (unreadable_reply kind byte) (unreadable kind byte) }
    ensures bad { closing (fault bad 17) ≡ codes "{:unreadable :bad :at 17}\n" }
    ensures unsupported { closing (fault (unsupported float) 0)
        ≡ codes "{:unreadable :unsupported :at 0}\n" }
    ensures deep { closing (fault deep 64) ≡ codes "{:unreadable :deep :at 64}\n" }
    ensures cut { closing (fault cut 2) ≡ codes "{:unreadable :cut :at 2}\n" }
    ensures too_long { too_long ≡ codes "{:unreadable :too-long :at 67108864}\n" }
{}

/// The replies to the forms of a line come first, and an empty line has none.
pub fn what_is_written()
    ensures { written (
        record {
          line = codes "[:db] ]";
          exchanges =
              exchange (said (codes "db") []) 3 (codes "{:basis 3}\n") None ∷ [];
          ending = fault bad 6;
        }
        ∷ record { line = []; exchanges = []; ending = whole }
        ∷ record {
          line = codes "[:sync]";
          exchanges =
              exchange (said (codes "sync") []) 3 (codes "{:basis 3}\n") None ∷ [];
          ending = whole;
        }
        ∷ [])
        ≡ codes "{:basis 3}\n{:unreadable :bad :at 6}\n{:basis 3}\n" }
{}

/// One line more.
pub fn one_answer_more()
    ensures bytes { (answers : List Answer) (answer : Answer)
        → written (answers ++ answer ∷ []) ≡ written answers ++ replies answer }
    ensures talk { (answers : List Answer) (answer : Answer)
        → talk_of (answers ++ answer ∷ []) ≡ talk_of answers ++ answer.exchanges }
{}
