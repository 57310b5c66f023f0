//! The grammar, likeness, the faults and the canonical text at texts written out by hand.
ghost use Rattle.std.specs.Prelude.{◌≡◌, pos, true, false, [], ◌∷◌, ◌++◌, codes, replicate};
ghost use Rattle.edn_model.specs.Form as form;
ghost use Rattle.edn_model.specs.Grammar.{IsWholeTextOf, FormAt, OnlyGap};
ghost use Rattle.edn_model.specs.Likeness.{alike};
ghost use Rattle.edn_model.specs.Faults.{FaultAt, bad, unsupported, deep, cut, float, big_int, wide, namespaced_map, tag, char};
ghost use Rattle.edn_model.specs.Canon.{Canon};

/// A sign may come before an integer.
pub fn integers()
    ensures plus { IsWholeTextOf (form.integer (pos 7)) (codes "+7") }
    ensures minus_zero { IsWholeTextOf (form.integer (pos 0)) (codes "-0") }
{}

/// Commas are white space, and a code spells its character.
pub fn vectors()
    ensures { IsWholeTextOf
        (form.vector
        (form.forms (form.integer (pos 7) ∷ form.integer (pos 0) ∷ form.string (codes "aA") ∷ [])))
        (codes "[+7,-0 \"a\\u0041\"]") }
{}

/// Digits past the third of a fraction are dropped, and an offset is taken off.
pub fn instants()
    ensures { IsWholeTextOf (form.instant (pos 1709245799999))
        (codes "#inst \"2024-02-29T23:59:59.9999+01:30\"") }
{}

/// An identifier's digits may be in either case.
pub fn uuids()
    ensures { IsWholeTextOf (form.uuid 329800735698586629295641978511506172918)
        (codes "#uuid \"F81D4FAE-7DEC-11D0-A765-00A0C91E6BF6\"") }
{}

/// After a form a discard and a comment remain.
pub fn gaps()
    ensures first { FormAt (codes "1 #_ 2 ; c") 0 (form.integer (pos 1)) 1 }
    ensures rest { OnlyGap (codes "1 #_ 2 ; c") 1 }
{}

/// Lists and vectors are alike, sets in any order, maps in any order; an integer and a string are not.
pub fn likeness()
    ensures sequences { alike (form.vector (form.forms (form.integer (pos 1) ∷ [])))
        (form.list (form.forms (form.integer (pos 1) ∷ [])))
        ≡ true }
    ensures order { alike (form.vector (form.forms (form.integer (pos 1) ∷ form.nil ∷ [])))
        (form.list (form.forms (form.nil ∷ form.integer (pos 1) ∷ [])))
        ≡ false }
    ensures sets { alike (form.set (form.forms (form.integer (pos 1) ∷ form.nil ∷ [])))
        (form.set (form.forms (form.nil ∷ form.integer (pos 1) ∷ [])))
        ≡ true }
    ensures maps { alike
        (form.map
        (form.pairs ((form.nil, form.integer (pos 1)) ∷ (form.keyword (codes "a"), form.nil) ∷ [])))
        (form.map
        (form.pairs ((form.keyword (codes "a"), form.nil) ∷ (form.nil, form.integer (pos 1)) ∷ [])))
        ≡ true }
    ensures kinds { alike (form.string (codes "a")) (form.symbol (codes "a")) ≡ false }
{}

/// Faults of nesting, of brackets and of duplicates.
pub fn faults()
    ensures deep { FaultAt (replicate 65 91) 0 deep 64 }
    ensures cut { FaultAt (replicate 64 91) 0 cut 64 }
    ensures key_twice { FaultAt (codes "{:a 1 :a 2}") 0 bad 6 }
    ensures odd { FaultAt (codes "{:a}") 0 bad 3 }
    ensures sequence_twice { FaultAt (codes "#{[1] (1)}") 0 bad 6 }
    ensures set_twice { FaultAt (codes "#{#{1 2} #{2 1}}") 0 bad 9 }
    ensures discard { FaultAt (codes "#_") 0 cut 2 }
    ensures no_such_day { FaultAt (codes "#inst \"2023-02-29\"") 0 bad 6 }
{}

/// Faults of tokens.
pub fn token_faults()
    ensures escape { FaultAt (codes "\"a\\q\"") 0 bad 2 }
    ensures float { FaultAt (codes "1.5") 0 (unsupported float) 0 }
    ensures big { FaultAt (codes "7N") 0 (unsupported big_int) 0 }
    ensures tag { FaultAt (codes "#foo 1") 0 (unsupported tag) 0 }
    ensures char { FaultAt (codes "\\a") 0 (unsupported char) 0 }
{}

/// What is printed of the forms above.
pub fn printed()
    ensures vector { Canon
        (form.vector
        (form.forms (form.integer (pos 7) ∷ form.integer (pos 0) ∷ form.string (codes "aA") ∷ [])))
        (codes "[7 0 \"aA\"]") }
    ensures instant { Canon (form.instant (pos 1709245799999))
        (codes "#inst \"2024-02-29T22:29:59.999-00:00\"") }
    ensures uuid { Canon (form.uuid 329800735698586629295641978511506172918)
        (codes "#uuid \"f81d4fae-7dec-11d0-a765-00a0c91e6bf6\"") }
{}

/// Faults of a bracket, of a tag with no string after it, and of strings that the end cuts off.
pub fn faults_inside()
    ensures bracket { FaultAt (codes "(1]") 0 bad 2 }
    ensures no_string { FaultAt (codes "#inst 5") 0 bad 6 }
    ensures string { FaultAt (codes "\"a") 0 cut 2 }
    ensures escape { FaultAt (codes "\"\\u00") 0 cut 5 }
    ensures later { FaultAt (codes ":a [1 2.5]") 2 (unsupported float) 6 }
{}

/// An integer that has no 64 bits, and a map with a namespace.
pub fn unsupported_tokens()
    ensures wide { FaultAt (codes "9223372036854775808") 0 (unsupported wide) 0 }
    ensures namespaced { FaultAt (codes "#:a{}") 0 (unsupported namespaced_map) 0 }
{}

/// The place of a byte with which no character begins. It is the first fault unless the run of bytes that it is in
/// begins with one with which no token does.
pub fn broken_tokens()
    ensures tilde { FaultAt (codes "~a" ++ 0xFF ∷ []) 0 bad 0 }
    ensures letter { FaultAt (codes "a" ++ 0xFF ∷ []) 0 bad 1 }
    ensures quote { FaultAt (codes "'" ++ 0xFF ∷ []) 0 bad 0 }
    ensures number { FaultAt (codes "01" ++ 0xFF ∷ []) 0 bad 2 }
    ensures tilde_inside { FaultAt (codes "[~a" ++ 0xFF ∷ codes "]") 0 bad 1 }
    ensures letter_inside { FaultAt (codes "[a" ++ 0xFF ∷ codes "]") 0 bad 2 }
    ensures quote_inside { FaultAt (codes "['" ++ 0xFF ∷ codes "]") 0 bad 1 }
{}
