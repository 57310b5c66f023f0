//! The strings after `#inst` and `#uuid`: which instant, and which identifier.
#![tactic(auto)]

mod dates;
mod digits;
mod identifier;
mod instant;
mod times;

pub use identifier::read_uuid;
pub use instant::read_instant;
