//! Laws about journals.
ghost use Rattle.std.specs.Prelude.{◌≡◌, ◌⊎◌, ◌<◌, ℕ, List, length};
ghost use Rattle.std.specs.List.{All};
ghost use Rattle.disk_model.specs.Journal.{JournalStands, JournalBreaks};

/// A file stands for one list of records, or it has one first fault, and not both.
pub fn a_file_has_one_reading()
    ensures records { (mark : List ℕ) (first second : List (List ℕ)) (file : List ℕ)
        → JournalStands mark first file → JournalStands mark second file → first ≡ second }
    ensures fault { (mark : List ℕ) (first second : List (List ℕ)) (file : List ℕ)
        (nth other at there : ℕ)
        → JournalBreaks mark first file nth at → JournalBreaks mark second file other there
        → (first ≡ second) × (nth ≡ other) × (at ≡ there) }
    ensures not_both { (mark : List ℕ) (first second : List (List ℕ)) (file : List ℕ) (nth at : ℕ)
        → JournalStands mark first file → JournalBreaks mark second file nth at → ⊥ }
{}

/// A file of bytes stands for some records, or it has a first fault.
pub fn each_file_has_a_reading()
    ensures { (mark file : List ℕ) → length mark ≡ 15 → All (λ byte. byte < 256) file
        → (records : List (List ℕ))
        × (JournalStands mark records file
        ⊎ ((nth : ℕ) × (at : ℕ) × JournalBreaks mark records file nth at)) }
{}
