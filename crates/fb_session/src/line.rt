//! The line that answers a form.

use fb_desk::Reply;
use fb_memory::Memory;
use fb_replies::write_receipt;
use fb_text::Text;
use std::alloc::Global;

/// A line that is being built.
#[derive(Drop)]
pub(crate) struct Line {
    pub(crate) bytes: Vec<u8>,
}

impl Line {
    /// Nothing yet.
    pub(crate) fn empty(alloc: Global) -> Line {
        Line {
            bytes: Vec::new(alloc),
        }
    }
}

impl Reply for Line {
    ghost use Rattle.talk_model.specs.Replies.{receipt, IsLineOf};

    ghost says = { λ t tempids line. IsLineOf (receipt t tempids) line.bytes.items };

    fn receipt(&mut self, t: u32, tempids: &[(Text, u64)]) -> Result<(), Memory> {
        write_receipt(&mut self.bytes, t, tempids)
    }
}
