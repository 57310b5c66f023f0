//! A script is read to its end before the first of its commands runs.
ghost use Rattle.std.specs.Prelude.{◌≡◌, IfOk, IfErr, OnOk};
ghost use Rattle.fb_session.specs.Taken.{TakesAll, TakesSome, CountsStop};

use fb_ports::Source;
use std::alloc::{AllocError, Global};

/// The longest script, in bytes.
pub(crate) const LONGEST_SCRIPT: usize = 67_108_864;

/// How many bytes are asked for at a time.
const PIECE: usize = 1 << 18;

/// Why a script was not read to its end.
#[derive(Drop)]
pub(crate) enum ReadStop {
    TooLong,
    Fault,
    Memory,
}

impl From<AllocError> for ReadStop {
    ghost use Rattle.fb_session.specs.declared.reading.ReadStop.{ReadStop};

    ghost from_gives = { λ _ stop. stop ≡ ReadStop.Memory };

    fn from(_: AllocError) -> ReadStop {
        ReadStop::Memory
    }
}

/// All bytes of the source. Where they are too many it stops at once, without reading on.
pub(crate) fn read_script<I: Source>(alloc: Global, source: &mut I) -> Result<Vec<u8>, ReadStop>
    ensures whole { IfOk result
        (λ bytes. TakesAll bytes.items (I.left source.old) (I.left source.new)) }
    ensures stopped { IfErr result
        (λ stop. TakesSome stop (I.left source.old) (I.left source.new)) }
    ensures count { OnOk result (I.faults source.new ≡ I.faults source.old) }
    ensures stop_count { IfErr result
        (λ stop. CountsStop stop (I.faults source.old) (I.faults source.new)) }
{
    let mut piece = vec![in alloc; 0; PIECE]?;
    let mut bytes = Vec::new(alloc);
    loop {
        let Ok(count) = source.read(piece.as_mut_slice()) else {
            return Err(ReadStop::Fault);
        };
        if count == 0 {
            return Ok(bytes);
        }
        if bytes.len() + count > LONGEST_SCRIPT {
            return Err(ReadStop::TooLong);
        }
        bytes.extend_from_slice(&piece[..count])?;
    }
}
