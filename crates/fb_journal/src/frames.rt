//! A record's bytes.
ghost use Rattle.std.specs.Prelude.{◌≡◌, ◌≤◌, ◌-◌, ◌++◌, length, drop, IfOk};
ghost use Rattle.std.specs.Int.{w64, to_be_bytes};
ghost use Rattle.disk_model.specs.Journal.{record_of};

use fb_memory::Memory;
use std::alloc::Global;
use std::marker::Model;

/// The bytes of a payload's length.
pub(crate) const LENGTH: usize = 8;

/// What a record takes beside its payload: the length in front, and the gate after.
const AROUND: usize = 9;

/// One record, ready to be written: the length of its payload, the payload, and the closed gate of the next record. A
/// contract sees the payload.
#[derive(Drop)]
pub struct Framed {
    bytes: Vec<u8>,
}

impl Model for Framed {
    ghost use Rattle.std.specs.Prelude.{◌≡◌, List, ℕ};
    ghost use Rattle.disk_model.specs.Journal.{record_of};
    ghost use Rattle.fb_journal.specs.Frames.{payload_in};

    ghost Value = { List ℕ };

    ghost view = { λ f. payload_in f.bytes.items };

    ghost invariant = { λ f. f.bytes.items ≡ record_of (payload_in f.bytes.items) };
}

impl Framed {
    pub fn bytes(&self) -> &[u8]
        ensures { result.now ≡ record_of self.now }
    {
        &self.bytes
    }
}

/// Makes the record of a payload, of which it makes a copy. All the memory that adding it needs is taken here.
pub fn frame(alloc: Global, payload: &[u8]) -> Result<Framed, Memory>
    ensures { IfOk result (λ f. f ≡ payload.now) }
{
    let mut bytes = Vec::with_capacity(alloc, payload.len() + AROUND)?;
    bytes.extend_from_slice(&[0; LENGTH])?;
    bytes.extend_from_slice(payload)?;
    frame_in(bytes)
}

/// Makes the record of the payload after the first 8 bytes, in place: its length is written over them. It takes no memory
/// where the vector has room for one byte more.
pub fn frame_in(bytes: Vec<u8>) -> Result<Framed, Memory>
    requires { 8 ≤ length bytes.items }
    ensures { IfOk result (λ f. f ≡ drop 8 bytes.items) }
{
    let mut bytes = bytes;
    write_length(&mut bytes);
    bytes.push(0)?;
    Ok(Framed { bytes })
}

/// Writes how many bytes follow the first 8, over these.
fn write_length(bytes: &mut [u8])
    requires { 8 ≤ length bytes.old }
    ensures { bytes.new ≡ to_be_bytes w64 (length bytes.old - 8) ++ drop 8 bytes.old }
{
    let len = (bytes.len() - LENGTH) as u64;
    bytes[..LENGTH].copy_from_slice(&len.to_be_bytes());
}
