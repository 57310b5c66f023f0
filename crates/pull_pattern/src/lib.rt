//! Patterns of a pull: which form is which, as data that a pull walks. No database is asked here: what a name means is for
//! the pull to find.
#![tactic(auto)]

mod fewer;
mod names;
mod options;
mod patterns;
mod reading;
mod stops;

pub use names::{Name, is_reversed};
pub use patterns::{Below, Item, Label, Limit, Options, Pattern};
pub use reading::read_pattern;
pub use stops::PatternStop;
