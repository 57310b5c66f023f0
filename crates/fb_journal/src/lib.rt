//! Journals: a file of records after gates, of which a crash leaves those before it, or those with the one that was
//! being added. A record is acknowledged when it is on the disk.
#![tactic(auto)]

mod frames;
mod gates;
mod journals;
mod marks;
mod openings;
mod readings;
mod reads;
mod starts;
mod stores;
mod windows;
mod zeros;

pub use frames::{Framed, frame, frame_in};
pub use journals::{Journal, JournalFault};
pub use marks::Mark;
pub use readings::{Next, Place, Reading};
pub use starts::{StartFault, StartStop};
