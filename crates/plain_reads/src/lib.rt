//! Views, scans and names over plain lists and slowly: what a faster body is compared with. Nothing of the product stands on
//! it.
//!
//! It is written plainly, to be read beside the definitions in `fb_model` and `view_model`. It promises nothing but safety, so
//! that a comparison says something that the proofs do not.
#![tactic(auto)]

mod facts;
mod history;
mod names;
mod orders;
mod scans;
mod schema;
mod views;

pub use facts::{holds, is_of, said, standing};
pub use history::{
    basis, is_builtin, is_issued, last_instant, next_instant, users_in, users_issued,
};
pub use names::{Id, entity_named, holder, value_of};
pub use orders::in_order;
pub use scans::{Range, end_of_number, scan, transactions};
pub use schema::{Attribute, attribute_named, attribute_of, covers, entity_under, named};
pub use views::{Window, end_of_instant, view};
