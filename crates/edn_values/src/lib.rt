//! Values and forms: the value that a form of EDN is under an attribute's type, and the form in which a value is printed.
#![tactic(auto)]

mod laws;
mod types;
mod values;
mod words;

pub use laws::{forms_of_other_types, forms_of_values, read_as_printed};
pub use types::{is_of_type, type_of};
pub use values::{as_edn, as_value};
pub use words::{
    begins_with_one_of, is_keyword_text, is_reserved, is_symbol_text, is_uri_text, local_name,
    split,
};
