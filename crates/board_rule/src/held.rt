//! The turn, as its holder has it.

/// Slot 0's value, while the holder of the turn has it.
#[derive(Drop)]
pub struct Held<H: Drop> {
    pub home: H,
}
