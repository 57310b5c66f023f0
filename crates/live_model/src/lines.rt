//! The lines of some bytes.
ghost use Rattle.std.specs.Prelude.{◌≡◌, ◌≢◌, ◌+◌, ℕ, List, [], ◌∷◌, ◌++◌, All, codes, flat_map, length, false, true};
ghost use Rattle.live_model.specs.Lines.{lines_of, HasNoLineFeed, ended, AreWhole, IsCut, longest_line, is_too_long};

/// What is sent, and its lines. The last one may lack its line feed, and a carriage return is a byte as any other.
pub fn lines_by_computation()
    ensures nothing { lines_of [] ≡ [] }
    ensures an_empty_line { lines_of (codes "\n") ≡ [] ∷ [] }
    ensures two { lines_of (codes "[:db]\n[:sync]\n") ≡ codes "[:db]" ∷ codes "[:sync]" ∷ [] }
    ensures last_without { lines_of (codes "[:db]\n[:sync]")
        ≡ codes "[:db]" ∷ codes "[:sync]" ∷ [] }
    ensures one_between { lines_of (codes "1\n\n2") ≡ codes "1" ∷ [] ∷ codes "2" ∷ [] }
    ensures in_a_string { lines_of (codes "\"x\ny\"\n") ≡ codes "\"x" ∷ codes "y\"" ∷ [] }
    ensures carriage_return { lines_of (codes "1\r\n") ≡ codes "1\r" ∷ [] }
{}

/// The lines of whole lines are these alone, and with their line feeds again they are the bytes.
pub fn lines_of_whole_lines()
    ensures apart { (a b : List ℕ) → AreWhole a → lines_of (a ++ b) ≡ lines_of a ++ lines_of b }
    ensures again { (a : List ℕ) → AreWhole a → flat_map ended (lines_of a) ≡ a }
    ensures no_feed { (bytes : List ℕ) → All HasNoLineFeed (lines_of bytes) }
{}

/// One line more, and the last one at the end of the source.
pub fn lines_one_by_one()
    ensures whole { (a line : List ℕ) → AreWhole (a ++ ended line) }
    ensures more { (a line : List ℕ) → AreWhole a → HasNoLineFeed line
        → lines_of (a ++ ended line) ≡ lines_of a ++ line ∷ [] }
    ensures last { (a line : List ℕ) → AreWhole a → HasNoLineFeed line → line ≢ []
        → lines_of (a ++ line) ≡ lines_of a ++ line ∷ [] }
{}

/// Any bytes are whole lines and the front of the next, in one way.
pub fn bytes_have_one_cut()
    ensures some { (bytes : List ℕ) → (whole : List ℕ) × (rest : List ℕ) × IsCut bytes whole rest }
    ensures one { (bytes whole rest other left : List ℕ)
        → IsCut bytes whole rest → IsCut bytes other left → (whole ≡ other) × (rest ≡ left) }
{}

/// A line of 64 MiB is not too long, and one of a byte more is.
pub fn the_longest_line()
    ensures longest { (line : List ℕ) → length line ≡ longest_line → is_too_long line ≡ false }
    ensures one_more { (line : List ℕ)
        → length line ≡ longest_line + 1 → is_too_long line ≡ true }
{}
