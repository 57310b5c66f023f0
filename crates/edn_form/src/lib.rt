//! EDN as data: a form, its members and its pairs.
#![tactic(auto)]

mod form;

pub use fb_text::Text;
pub use form::{Edn, Items, Pairs};
