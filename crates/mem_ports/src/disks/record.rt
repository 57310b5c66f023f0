//! What was done to a disk in memory since its record began, in memory that was reserved for it.
ghost use Rattle.std.specs.Prelude.{◌≡◌, ◌≤◌, ◌+◌, ◌++◌, [], ◌∷◌, length, nat_le, vec_len, vec_capacity, IfOk, OnOk};
ghost use Rattle.disk_model.specs.Record.{wrote, cut_to, synced};
ghost use Rattle.mem_ports.specs.Images.{image_from, kept_of, torn_to};
ghost use Rattle.mem_ports.specs.Room.{room_taken};

use crate::disks::place::{fill_to, place};
use fb_memory::Memory;
use std::alloc::{AllocError, Global};
use std::marker::Model;

/// What an entry of the record takes beside the bytes that it writes.
const ENTRY: usize = 24;

#[derive(Clone, Copy)]
pub(crate) enum Step {
    Wrote { at: usize, len: usize },
    Cut { len: usize },
    Synced,
}

#[derive(Drop)]
pub(crate) struct Record {
    pub(crate) steps: Vec<Step>,
    pub(crate) written: Vec<u8>,
    pub(crate) room: usize,
}

impl Model for Record {
    ghost use Rattle.std.specs.Prelude.{◌≡◌, ◌≤◌, ◌+◌, ◌*◌, ◌/◌, vec_len, vec_capacity};
    ghost use Rattle.mem_ports.specs.Steps.{changes_of, bytes_written, furthest_end};
    ghost use Rattle.mem_ports.specs.Room.{Kept};

    ghost Value = { Kept };

    ghost view = { λ r. record {
      changes = changes_of r.steps.items r.written.items;
      room = r.room;
    } };

    ghost invariant = { λ r. (bytes_written r.steps.items ≡ vec_len r.written)
        × (vec_len r.written + 24 * vec_len r.steps ≤ r.room)
        × (r.room ≤ vec_capacity r.written)
        × (r.room / 24 ≤ vec_capacity r.steps)
        × (furthest_end r.steps.items ≤ r.room) };
}

impl Record {
    pub(crate) fn new(alloc: Global, room: usize) -> Result<Record, Memory>
        ensures { IfOk result (λ r. r ≡ record { changes = []; room = room }) }
    {
        Ok(Record {
            steps: Vec::with_capacity(alloc, room / ENTRY)?,
            written: Vec::with_capacity(alloc, room)?,
            room,
        })
    }

    pub(crate) fn room(&self) -> usize
        ensures { result ≡ self.now.room }
    {
        self.room
    }

    /// Whether there is room for one more entry that writes so many bytes.
    #[tactic(auto, using(crate::proofs::StepLists::room_laws))]
    pub(crate) fn fits(&self, bytes: usize) -> bool
        ensures { result ≡ nat_le (room_taken self.now.changes + 24 + bytes) self.now.room }
    {
        let left = self.room - self.written.len() - ENTRY * self.steps.len();
        left >= ENTRY && bytes <= left - ENTRY
    }

    #[tactic(auto, using(crate::proofs::StepLists::record_laws))]
    pub(crate) fn wrote(&mut self, at: usize, piece: &[u8])
        requires fits { room_taken self.old.changes + 24 + length piece.now ≤ self.old.room }
        requires ends { at + length piece.now ≤ self.old.room }
        ensures { self.new
            ≡ record self.old { changes = self.old.changes ++ wrote at piece.now ∷ [] } }
    {
        let step = Step::Wrote {
            at,
            len: piece.len(),
        };
        self.steps.push(step).unwrap();
        self.written.extend_from_slice(piece).unwrap();
    }

    #[tactic(auto, using(crate::proofs::StepLists::record_laws))]
    pub(crate) fn cut(&mut self, len: usize)
        requires { room_taken self.old.changes + 24 ≤ self.old.room }
        ensures { self.new ≡ record self.old { changes = self.old.changes ++ cut_to len ∷ [] } }
    {
        self.steps.push(Step::Cut { len }).unwrap();
    }

    #[tactic(auto, using(crate::proofs::StepLists::record_laws))]
    pub(crate) fn synced(&mut self)
        requires { room_taken self.old.changes + 24 ≤ self.old.room }
        ensures { self.new ≡ record self.old { changes = self.old.changes ++ synced ∷ [] } }
    {
        self.steps.push(Step::Synced).unwrap();
    }

    /// Puts what was done onto a file and onto an image of it, in which the writes since the last sync are cut short.
    pub(crate) fn replay(
        &self,
        alloc: Global,
        cuts: &[u64],
        file: &mut Vec<u8>,
        image: &mut Vec<u8>,
    ) -> Result<(), AllocError>
        requires file { (vec_len file.old ≤ self.now.room)
            × (self.now.room ≤ vec_capacity file.old) }
        requires image { (vec_len image.old ≤ self.now.room)
            × (self.now.room ≤ vec_capacity image.old) }
        ensures image { OnOk result (image.new.items
            ≡ image_from cuts.now 0 self.now.changes file.old.items image.old.items) }
        ensures image_room { OnOk result
            ((vec_len image.new ≤ self.now.room) × (self.now.room ≤ vec_capacity image.new)) }
        ensures file_room { OnOk result (self.now.room ≤ vec_capacity file.new) }
    {
        let mut next = 0;
        let mut unsynced = 0;
        for step in &self.steps {
            match *step {
                Step::Wrote { at, len } => {
                    let piece = &self.written[next..next + len];
                    let kept = kept_len(cuts, unsynced, len);
                    let torn = torn_piece(alloc, piece, kept)?;
                    place(file, at, piece);
                    place(image, at, &torn);
                    next += len;
                    unsynced += 1;
                }
                Step::Cut { len } => {
                    file.truncate(len);
                    image.truncate(len);
                }
                Step::Synced => {
                    image.clear();
                    image.extend_from_slice(file).unwrap();
                    unsynced = 0;
                }
            }
        }
        Ok(())
    }
}

/// How much of the n-th write since the last sync is kept, from its front.
fn kept_len(cuts: &[u64], n: usize, len: usize) -> usize
    ensures value { result ≡ kept_of cuts.now n len }
    ensures within { result ≤ len }
{
    match cuts.get(n) {
        Some(kept) => len.min(*kept as usize),
        None => len,
    }
}

/// The front of a piece, and then zeros.
fn torn_piece(alloc: Global, piece: &[u8], kept: usize) -> Result<Vec<u8>, AllocError>
    requires { kept ≤ length piece.now }
    ensures { IfOk result (λ torn. torn.items ≡ torn_to kept piece.now) }
{
    let mut torn = Vec::with_capacity(alloc, piece.len())?;
    torn.extend_from_slice(&piece[..kept])?;
    fill_to(&mut torn, piece.len());
    Ok(torn)
}
