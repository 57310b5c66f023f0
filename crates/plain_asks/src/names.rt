//! The names in an ask, and which names are tempids.
use crate::asks::{Ask, Name, Operand};

/// It names the transaction itself.
pub const OWN_TEMPID: &str = "datomic.tx";

/// Whether the name is that of a new entity; the transaction's own is none.
pub fn is_tempid(name: &Name<'_>) -> bool {
    match name {
        Name::Tempid(s) => s.as_str() != OWN_TEMPID,
        Name::Nameless(_) => true,
        _ => false,
    }
}

pub fn is_same_tempid(name: &Name<'_>, other: &Name<'_>) -> bool {
    match (name, other) {
        (Name::Tempid(s), Name::Tempid(other)) => s.as_str() == other.as_str(),
        (Name::Nameless(number), Name::Nameless(other)) => number == other,
        _ => false,
    }
}

/// The names of an ask in the order in which it meets them.
pub fn names_of<'a>(ask: &Ask<'a>) -> [Option<Name<'a>>; 3] {
    match ask {
        Ask::Adds(name, _, part) | Ask::Retracts(name, _, part) => {
            [Some(*name), name_of_part(part), None]
        }
        Ask::Compares(name, _, old, new) => [Some(*name), name_of_part(old), name_of_part(new)],
        Ask::RetractsAll(name, _) | Ask::RetractsEntity(name) | Ask::Meets(name) => {
            [Some(*name), None, None]
        }
        Ask::Mentions(_) | Ask::LacksId => [None, None, None],
    }
}

fn name_of_part<'a>(part: &Operand<'a>) -> Option<Name<'a>> {
    match part {
        Operand::Plain(_) => None,
        Operand::Entity(name) => Some(*name),
    }
}
