//! What a session may conclude from what it heard. Each function has an empty body, and its contract is the law.
ghost use Rattle.std.specs.Prelude.{◌≡◌, ◌+◌, ℕ, take, drop};
ghost use Rattle.live_lines.specs.Hearing.{Hearing, IsInFront, IsNext};
ghost use Rattle.live_lines.specs.declared.heard.Next.{Next};

/// One thing stands in front.
pub fn one_thing_is_next()
    ensures { (h : Hearing) (a b : Next) → IsNext h a → IsNext h b → a ≡ b }
{}

/// The bytes of the line in front, and those behind its line feed.
pub fn a_line_and_what_is_behind_it()
    ensures line { (h : Hearing) (len : ℕ) (front : IsInFront h len)
        → take len h.pending ≡ front.line }
    ensures behind { (h : Hearing) (len : ℕ) (front : IsInFront h len)
        → drop (len + 1) h.pending ≡ drop 1 front.rest }
{}
