//! UTF-8 text: what strings, keywords, symbols and URIs are made of, in forms and in values. A short text lies in the
//! value itself, and the copies of a longer one share its bytes.
#![tactic(auto)]

mod short;
mod texts;

pub use texts::Text;
