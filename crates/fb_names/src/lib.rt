//! What a read takes from the forms of a command: points in time, ranges of the log, entities by their names, the
//! components of an index and ranges of values.
#![tactic(auto)]

mod given;
mod instants;
mod laws;
mod names;
mod points;
mod probes;
mod ranges;
mod stops;

pub use laws::instants_rise;
pub use names::entid;
pub use points::{LogRange, log_range, point};
pub use probes::components;
pub use ranges::{ValueRange, index_range};
pub use stops::NameStop;
