//! The entries of the log as bytes, and back. A reader takes bytes and a place in them, and answers what it reads there with
//! the place after it, or the byte at which the first field begins that does not fit. A writer appends its field's bytes.
#![tactic(auto)]

mod entries;
mod faults;
mod fields;
mod fronts;
mod room;
mod tags;
mod texts;
mod values;

pub use entries::{entry_bytes, entry_of, get_datom, put_datom};
pub use faults::BytesFault;
pub use fields::{
    WRITTEN_FORMAT, get_format, get_i64, get_truth, get_u8, get_u32, get_u64, get_u128, misfit, put,
};
pub use fronts::{has_whole_field, misfit_in_front};
pub use texts::{Words, get_text, put_text};
pub use values::{get_value, put_value};
