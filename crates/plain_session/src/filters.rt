//! The filters that a session finds by their names.
use fb_numbers::{DOC, USER_ENTITIES};
use fb_values::{Datom, Value};

#[derive(Clone, Copy)]
pub(crate) enum Filter {
    Users,
    NoDoc,
    Positive,
}

pub(crate) fn filter_named(name: &str) -> Option<Filter> {
    match name {
        "users" => Some(Filter::Users),
        "no-doc" => Some(Filter::NoDoc),
        "positive" => Some(Filter::Positive),
        _ => None,
    }
}

pub(crate) fn selects(filter: Filter, d: &Datom) -> bool {
    match filter {
        Filter::Users => d.e > USER_ENTITIES,
        Filter::NoDoc => d.a != DOC,
        Filter::Positive => !matches!(d.v, Value::Long(..=-1)),
    }
}
