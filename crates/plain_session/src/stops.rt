//! Why a read has no answer.
use fb_memory::Memory;

/// Why a read has no answer.
#[derive(Drop)]
pub(crate) enum ReadStop {
    /// It is refused for the reason that this keyword names, by the form at this place of the command.
    Refused(&'static str, usize),
    Memory,
}

impl From<Memory> for ReadStop {
    fn from(_: Memory) -> ReadStop {
        ReadStop::Memory
    }
}

/// What was read at the place, or the refusal of the form that stands there.
pub(crate) fn or_refused<T>(
    read: Option<T>,
    keyword: &'static str,
    at: usize,
) -> Result<T, ReadStop> {
    read.ok_or(ReadStop::Refused(keyword, at))
}
