//! What a transaction asks, over plain lists and slowly: values, and asks with their names. Nothing of the product stands on
//! it.
//!
//! It is written plainly, to be read beside `Asks` and `Values` of `tx_model`. It promises nothing but safety, so that a
//! comparison says something that the proofs do not.
#![tactic(auto)]

mod asks;
mod keys;
mod names;
mod values;

pub use asks::{Ask, Name, Operand};
pub use keys::{Key, key_in};
pub use names::{OWN_TEMPID, is_same_tempid, is_tempid, names_of};
pub use values::value_in;
