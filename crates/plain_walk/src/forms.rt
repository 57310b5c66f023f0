//! What a form names: a verb or an entity.
use edn_form::{Edn, Items};
use fb_text::Text;
use plain_asks::Name;

/// What a list form asks.
#[derive(Clone, Copy)]
pub enum Verb {
    Add,
    Retract,
    Cas,
    RetractEntity,
}

pub fn verb_in(f: &Edn) -> Option<Verb> {
    let Edn::Key(k) = f else {
        return None;
    };
    match k.as_str() {
        "db/add" => Some(Verb::Add),
        "db/retract" => Some(Verb::Retract),
        "db/cas" | "db.fn/cas" => Some(Verb::Cas),
        "db/retractEntity" | "db.fn/retractEntity" => Some(Verb::RetractEntity),
        _ => None,
    }
}

/// The keyword and the value of a vector of two whose first member is a keyword.
pub fn lookup_in(items: &Items) -> Option<(&Text, &Edn)> {
    match items.as_slice() {
        [Edn::Key(k), value] => Some((k, value)),
        _ => None,
    }
}

/// The entity that a form names, in a place where a tempid may be.
pub fn name_in(f: &Edn) -> Option<Name<'_>> {
    match f {
        Edn::Int(n) => Some(Name::Number(*n)),
        Edn::Key(k) => Some(Name::Ident(k)),
        Edn::Str(s) => Some(Name::Tempid(s)),
        Edn::Vector(items) => lookup_in(items).map(|(k, value)| Name::Lookup(k, value)),
        _ => None,
    }
}
