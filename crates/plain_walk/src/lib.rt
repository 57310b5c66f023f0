//! What the forms of a transaction ask, over plain lists and slowly: the shapes of forms, and the walk over them. Nothing of
//! the product depends on it.
//!
//! It is written plainly, to be read beside `Shapes` and `Walk` of `tx_model`. It promises nothing but safety, so that a
//! comparison says something that the proofs do not.
#![tactic(auto)]

mod forms;
mod links;
mod lists;
mod operands;
mod shapes;
mod walk;

pub use shapes::{first_without_shape, forms_in};
pub use walk::flat;
