//! Talks of one session, by computation.
ghost use Rattle.std.specs.Prelude.{◌≡◌, [], ◌∷◌, codes, Some, None, true, false, nat_eq};
ghost use Rattle.fb_model.specs.Facts.{facts};
ghost use Rattle.view_model.specs.Window.{whole, since};
ghost use Rattle.view_model.specs.Samples.{texts, hi};
ghost use Rattle.talk_model.specs.Replies.{datoms_reply};
ghost use Rattle.talk_model.specs.Session.{opened_at};
ghost use Rattle.talk_model.specs.Talk.{Talk};
ghost use Rattle.talk_model.specs.Samples.{said, key, number, text, alone, exchange, reply_over_texts, datoms_of_first};

/// A transaction, a point, what is not a command, and what there is to see.
pub fn a_talk()
    ensures { Talk (alone texts None false) (opened_at 0)
        (
        exchange (said (codes "db") []) 0 (codes "{:basis 0}\n") None
        ∷ exchange (said (codes "transact") (text ∷ [])) 1
        (codes "{:t 1 :tempids {\"x\" 17592186044417}}\n") (Some 1)
        ∷ exchange (said (codes "since") (number 0 ∷ [])) 1 (codes "{:ok true :basis 1}\n") None
        ∷ exchange (said (codes "look") []) 1
        (codes "{:refused :read/not-a-command :at 0 :basis 1}\n") None
        ∷ exchange (said (codes "sync") []) 1 (codes "{:basis 1}\n") None
        ∷ [])
        (record { place = 1; window = since 1 whole; filters = []; was_notified = false }) }
{}

/// The log does not take the second transaction: its session is notified that this one was lost, and
/// from then on that the log has stopped, also of what would break a rule. What was recorded is
/// still read.
pub fn a_talk_over_a_stopped_log()
    ensures { Talk (alone texts (Some 2) true) (opened_at 1)
        (
        exchange (said (codes "transact") (text ∷ [])) 1
        (codes "{:fault :log :at 2 :basis 1}\n") None
        ∷ exchange (said (codes "transact") (text ∷ [])) 1
        (codes "{:fault :log-stopped :at 2 :basis 1}\n") None
        ∷ exchange (said (codes "transact") (key (codes "x") ∷ [])) 1
        (codes "{:fault :log-stopped :at 2 :basis 1}\n") None
        ∷ exchange (said (codes "db") []) 1 (codes "{:basis 1}\n") None
        ∷ [])
        (record { place = 1; window = whole; filters = []; was_notified = true }) }
{}

/// What reads see, under a window and a filter.
pub fn datoms_that_are_read()
    ensures one_entity { reply_over_texts whole [] datoms_of_first
        ≡ datoms_reply 1 (facts texts) (hi ∷ []) }
    ensures since_then { reply_over_texts (since 2 whole) [] datoms_of_first
        ≡ datoms_reply 1 (facts texts) [] }
    ensures filtered { reply_over_texts whole ((λ d. nat_eq d.a 1) ∷ []) datoms_of_first
        ≡ datoms_reply 1 (facts texts) [] }
{}
