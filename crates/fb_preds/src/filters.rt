//! The filters of a table.
use fb_text::Text;

/// A filter of a table. Callers store an `S` or a closure, which is kept as a `K`.
#[derive(Drop)]
pub enum Filter<S, K> {
    /// The datoms of the users' entities.
    Users,
    /// The datoms of every attribute but `:db/doc`.
    NoDoc,
    /// Every value but a negative long.
    Positive,
    /// What a caller has stored.
    Stored(S),
    /// A closure that a caller has stored.
    Closure(K),
}

/// A filter with its name, which is a keyword without its colon.
#[derive(Drop)]
pub struct NamedFilter<S, K> {
    pub name: Text,
    pub filter: Filter<S, K>,
}
