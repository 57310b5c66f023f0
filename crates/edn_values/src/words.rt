//! Which texts are keywords, symbols and uris, and what the names of entities are made of.
ghost use Rattle.std.specs.Prelude.{◌≡◌, ◌&&◌, ℕ, List, nat_eq, nat_le, bytes_eq, [], ◌∷◌, codes};
ghost use Rattle.std.specs.Option.{option_map};
ghost use Rattle.std.specs.List.{list_any, list_all};
ghost use Rattle.fb_model.specs.Words as words;
ghost use Rattle.edn_values.specs.Texts.{is_symbol_start, cut_at_slash};

fn is_letter(b: u8) -> bool
    ensures { result ≡ words.is_letter b }
{
    matches!(b, b'A'..=b'Z' | b'a'..=b'z')
}

fn is_digit(b: u8) -> bool
    ensures { result ≡ words.is_digit b }
{
    matches!(b, b'0'..=b'9')
}

fn is_one_of(bytes: &[u8], b: u8) -> bool
    ensures { result ≡ list_any (nat_eq b) bytes.now }
{
    bytes.iter().any(|x| b == *x)
}

fn is_name_byte(b: u8) -> bool
    ensures { result ≡ words.is_name_byte b }
{
    is_letter(b) || is_digit(b) || b >= 128 || is_one_of(b".*+!-_?$%&=<>:#", b)
}

fn are_name_bytes(text: &[u8]) -> bool
    ensures { result ≡ list_all words.is_name_byte text.now }
{
    text.iter().all(|b| is_name_byte(*b))
}

#[tactic(auto, using(crate::proofs::Texts::is_name_where))]
fn is_name(text: &[u8]) -> bool
    ensures { result ≡ words.is_name text.now }
{
    match text {
        [] => false,
        [_, ..] => are_name_bytes(text),
    }
}

/// Whether the text begins with one of the bytes.
pub fn begins_with_one_of(bytes: &[u8], text: &[u8]) -> bool
    ensures { result ≡ words.begins_with_one_of bytes.now text.now }
{
    match text {
        [] => false,
        [b, ..] => is_one_of(bytes, *b),
    }
}

/// A name that may follow the colon of a keyword, or its slash.
fn is_keyword_name(text: &str) -> bool
    ensures { result ≡ words.is_keyword_name text.now }
{
    is_name(text.as_bytes()) && !begins_with_one_of(b":#", text.as_bytes())
}

/// The parts before and after the first slash, where there is one.
pub fn split(text: &str) -> Option<(&str, &str)>
    ensures { option_map {U = List ℕ × List ℕ} (λ parts. (parts.0.now, parts.1.now)) result
        ≡ cut_at_slash text.now }
{
    text.split_once('/')
}

/// The part before the slash, if there is one.
fn namespace(text: &str) -> &str
    ensures { result.now ≡ words.namespace text.now }
{
    match split(text) {
        Some((namespace, _)) => namespace,
        None => "",
    }
}

/// The part after the slash, or the whole text.
pub fn local_name(text: &str) -> &str
    ensures { result.now ≡ words.local_name text.now }
{
    match split(text) {
        Some((_, local)) => local,
        None => text,
    }
}

fn has_namespace(text: &str) -> bool
    ensures { result ≡ words.has_namespace text.now }
{
    split(text).is_some()
}

/// The text of a keyword, without its colon.
pub fn is_keyword_text(text: &str) -> bool
    ensures { result ≡ words.is_keyword_text text.now }
{
    is_keyword_name(local_name(text)) && (!has_namespace(text) || is_keyword_name(namespace(text)))
}

fn is_symbol_start(text: &[u8]) -> bool
    ensures { result ≡ is_symbol_start text.now }
{
    match text {
        [] => false,
        [b, rest @ ..] => {
            !is_digit(*b)
                && !begins_with_one_of(b":#", text)
                && !(is_one_of(b".+-", *b) && begins_with_one_of(b"0123456789", rest))
        }
    }
}

fn is_word_of_a_value(text: &str) -> bool
    ensures { result
        ≡ list_any (bytes_eq text.now) (codes "nil" ∷ codes "true" ∷ codes "false" ∷ []) }
{
    text == "nil" || text == "true" || text == "false"
}

/// The text of a symbol.
pub fn is_symbol_text(text: &str) -> bool
    ensures { result ≡ words.is_symbol_text text.now }
{
    text == "/"
        || (is_symbol_start(text.as_bytes())
            && !is_word_of_a_value(text)
            && is_name(local_name(text).as_bytes())
            && (!has_namespace(text) || is_name(namespace(text).as_bytes())))
}

fn are_visible(text: &[u8]) -> bool
    ensures { result ≡ list_all (λ b. nat_le 33 b && nat_le b 126) text.now }
{
    text.iter().all(|b| 33 <= *b && *b <= 126)
}

/// The text of a uri: visible ASCII characters.
pub fn is_uri_text(text: &[u8]) -> bool
    ensures { result ≡ words.is_uri_text text.now }
{
    1 <= text.len() && are_visible(text)
}

/// An ident that is kept for the database itself.
pub fn is_reserved(text: &str) -> bool
    ensures { result ≡ words.is_reserved text.now }
{
    has_namespace(text)
        && (namespace(text) == "db" || namespace(text).as_bytes().starts_with(b"db."))
}
