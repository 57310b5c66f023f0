//! The disk in memory as a disk: each call, with what it leaves and when it fails.
ghost use Rattle.std.specs.Prelude.{◌≡◌, ◌≤◌, ◌<◌, ◌+◌, ◌-◌, ◌^◌, ◌++◌, [], ◌∷◌, IfOk, OnOk, OnErr, is_err, length, nat_le, take, drop, min, option_map};
ghost use Rattle.mem_ports.specs.Calls.{no_calls, fails_next, after_call, after_fault};
ghost use Rattle.io_faults.specs.Faults.{Counts};
ghost use Rattle.disk_model.specs.Disk.{written, Torn, TornCut, Follows, Within, Only, IfKnown, Reads, Elapses};
ghost use Rattle.disk_model.specs.Record.{wrote, cut_to, synced};
ghost use Rattle.mem_ports.specs.MemDisks.{file_of, known_bytes, images_of, moment_of, images_since_of, fails_write, fails_change};
ghost use Rattle.mem_ports.specs.Images.{image_from};

use crate::disks::place::place;
use crate::disks::record::Record;
use crate::plan::CallPlan;
use fb_disk::Disk;
use fb_memory::Memory;
use io_faults::Failed;
use std::alloc::Global;
use std::marker::Model;

/// A disk in memory. It keeps a record of its writes, cuts and syncs, so that it can give each image that a crash may
/// leave, and its bytes are known.
#[derive(Drop)]
pub struct MemDisk {
    file: Vec<u8>,
    first: Vec<u8>,
    record: Record,
    plan: CallPlan,
}

impl Model for MemDisk {
    ghost use Rattle.std.specs.Prelude.{◌≡◌, ◌≤◌, vec_len, vec_capacity};
    ghost use Rattle.disk_model.specs.Record.{replayed};
    ghost use Rattle.mem_ports.specs.MemDisks.{Past};

    ghost Value = { Past };

    ghost view = { λ d. record {
      first = d.first.items;
      changes = d.record.changes;
      room = d.record.room;
      calls = d.plan;
    } };

    ghost invariant = { λ d. (d.file.items ≡ replayed d.record.changes d.first.items)
        × (vec_len d.file ≤ d.record.room)
        × (d.record.room ≤ vec_capacity d.file)
        × (vec_len d.first ≤ d.record.room) };
}

impl MemDisk {
    /// An empty disk for `room` bytes, with a record for as many, whose memory is taken here. Each write, cut and sync
    /// takes 24 bytes of the record, and a write those that it writes. The calls that are numbered in `fails`, from 1
    /// over all calls but `faults`, fail and leave it as it was.
    pub fn new(alloc: Global, room: usize, fails: Vec<u64>) -> Result<MemDisk, Memory>
        ensures { IfOk result (λ d. d
            ≡ record { first = []; changes = []; room = room; calls = no_calls fails.items }) }
    {
        Ok(MemDisk {
            file: Vec::with_capacity(alloc, room)?,
            first: Vec::new(alloc),
            record: Record::new(alloc, room)?,
            plan: CallPlan::new(fails),
        })
    }

    /// What a read gives.
    pub fn bytes(&self) -> &[u8]
        ensures { result.now ≡ file_of self.now }
    {
        &self.file
    }

    /// An image that a crash now may leave: of the writes since the last sync, the n-th, counted from 0, holds its first
    /// `cuts[n]` bytes, and then zeros. One without a number, or with a number above its length, is whole.
    pub fn image(&self, alloc: Global, cuts: &[u64]) -> Result<MemDisk, Memory>
        ensures value { IfOk result (λ d. d
            ≡ record {
              first = image_from cuts.now 0 self.now.changes self.now.first self.now.first;
              changes = [];
              room = self.now.room;
              calls = no_calls [];
            }) }
        ensures left { IfOk result (λ d. images_of self.now d.first) }
    {
        let room = self.record.room();
        let mut file = Vec::with_capacity(alloc, room)?;
        let mut first = Vec::with_capacity(alloc, room)?;
        file.extend_from_slice(&self.first)?;
        first.extend_from_slice(&self.first)?;
        self.record.replay(alloc, cuts, &mut file, &mut first)?;
        file.clear();
        file.extend_from_slice(&first)?;
        Ok(MemDisk {
            file,
            first,
            record: Record::new(alloc, room)?,
            plan: CallPlan::new(Vec::new(alloc)),
        })
    }
}

impl Disk for MemDisk {
    ghost use Rattle.mem_ports.specs.MemDisks.{Past, file_of, known_bytes, images_of, moment_of, images_since_of};
    ghost use Rattle.disk_model.proofs.Records.{left_since-now, left_now, leaves_told};

    ghost faults = { λ d. d.calls.faults };

    ghost bytes = { known_bytes };

    ghost images = { images_of };

    ghost moment = { moment_of };

    ghost images_since = { images_since_of };

    ghost reads_an_image = { λ d. leaves_told d.changes d.first };

    ghost counts_now = { λ d t image le left. left_since-now d.first d.changes t image le left };

    ghost only_now = { λ d image left. left_now d.first d.changes image left };

    fn faults(&self) -> u64 {
        self.plan.faults()
    }

    fn len(&mut self) -> Result<u64, Failed>
        ensures length { IfOk result (λ n. IfKnown (known_bytes self.old) (λ file. n ≡ length file)) }
        ensures bytes { known_bytes self.new ≡ known_bytes self.old }
        ensures crash { Within (images_of self.old) (images_of self.new) }
        ensures time { Elapses (moment_of self.old) (moment_of self.new) (images_since_of self.old)
            (images_since_of self.new) (images_of self.new) }
        ensures counted { Counts result self.old.calls.faults self.new.calls.faults }

        ensures fails { is_err result ≡ fails_next self.old.calls }
        ensures value { IfOk result (λ n. n ≡ length (file_of self.old)) }
        ensures ok { OnOk result
            (self.new ≡ record self.old { calls = after_call self.old.calls }) }
        ensures fault { OnErr result
            (self.new ≡ record self.old { calls = after_fault self.old.calls }) }
    {
        self.plan.begin()?;
        Ok(self.file.len() as u64)
    }

    fn read_at(&mut self, at: u64, buf: &mut [u8]) -> Result<usize, Failed>
        ensures within { IfOk result (λ n. n ≤ length buf.old) }
        ensures read { IfOk result (λ n. IfKnown (known_bytes self.old)
            (λ file. Reads file at (length buf.old) n (take n buf.new))) }
        ensures bytes { known_bytes self.new ≡ known_bytes self.old }
        ensures crash { Within (images_of self.old) (images_of self.new) }
        ensures time { Elapses (moment_of self.old) (moment_of self.new) (images_since_of self.old)
            (images_since_of self.new) (images_of self.new) }
        ensures counted { Counts result self.old.calls.faults self.new.calls.faults }

        // It fails where it was made to, and else reads all that is there and fits.
        ensures fails { is_err result ≡ fails_next self.old.calls }
        ensures most { IfOk result
            (λ n. n ≡ min (length buf.old) (length (file_of self.old) - at)) }
        ensures placed { IfOk result (λ n. take n buf.new ≡ take n (drop at (file_of self.old))) }
        ensures ok { OnOk result
            (self.new ≡ record self.old { calls = after_call self.old.calls }) }
        ensures fault { OnErr result
            (self.new ≡ record self.old { calls = after_fault self.old.calls }) }
    {
        self.plan.begin()?;
        let start = self.file.len().min(at as usize);
        Ok(copy_to_front(buf, &self.file[start..]))
    }

    fn write_at(&mut self, at: u64, piece: &[u8]) -> Result<(), Failed>
        ensures within { OnOk result (at + length piece.now < 2 ^ 64) }
        ensures written { OnOk result
            (known_bytes self.new ≡ option_map (written at piece.now) (known_bytes self.old)) }
        ensures crash { Follows (Torn at (length piece.now)) (images_of self.old)
            (images_of self.new) }
        ensures time { Elapses (moment_of self.old) (moment_of self.new) (images_since_of self.old)
            (images_since_of self.new) (images_of self.new) }
        ensures counted { Counts result self.old.calls.faults self.new.calls.faults }

        ensures fails { is_err result ≡ fails_write self.old at (length piece.now) }
        ensures ok { OnOk result (self.new
            ≡ record self.old {
              changes = self.old.changes ++ wrote at piece.now ∷ [];
              calls = after_call self.old.calls;
            }) }
        ensures fault { OnErr result
            (self.new ≡ record self.old { calls = after_fault self.old.calls }) }
    {
        self.plan.begin()?;
        let at = at as usize;
        if !self.has_room(at, piece.len()) || !self.record.fits(piece.len()) {
            return Err(self.plan.fault());
        }
        place(&mut self.file, at, piece);
        self.record.wrote(at, piece);
        Ok(())
    }

    fn cut(&mut self, len: u64) -> Result<(), Failed>
        ensures cut { OnOk result (known_bytes self.new ≡ option_map (take len) (known_bytes self.old)) }
        ensures crash { Follows (TornCut len) (images_of self.old) (images_of self.new) }
        ensures time { Elapses (moment_of self.old) (moment_of self.new) (images_since_of self.old)
            (images_since_of self.new) (images_of self.new) }
        ensures counted { Counts result self.old.calls.faults self.new.calls.faults }

        ensures fails { is_err result ≡ fails_change self.old }
        ensures ok { OnOk result (self.new
            ≡ record self.old
            { changes = self.old.changes ++ cut_to len ∷ []; calls = after_call self.old.calls }) }
        ensures fault { OnErr result
            (self.new ≡ record self.old { calls = after_fault self.old.calls }) }
    {
        self.plan.begin()?;
        if !self.record.fits(0) {
            return Err(self.plan.fault());
        }
        self.file.truncate(len as usize);
        self.record.cut(len as usize);
        Ok(())
    }

    fn sync(&mut self) -> Result<(), Failed>
        ensures bytes { OnOk result (known_bytes self.new ≡ known_bytes self.old) }
        ensures durable { OnOk result
            (IfKnown (known_bytes self.old) (λ file. Only file (images_of self.new))) }
        ensures crash { Within (images_of self.old) (images_of self.new) }
        ensures time { Elapses (moment_of self.old) (moment_of self.new) (images_since_of self.old)
            (images_since_of self.new) (images_of self.new) }
        ensures counted { Counts result self.old.calls.faults self.new.calls.faults }

        ensures fails { is_err result ≡ fails_change self.old }
        ensures ok { OnOk result (self.new
            ≡ record self.old
            { changes = self.old.changes ++ synced ∷ []; calls = after_call self.old.calls }) }
        ensures fault { OnErr result
            (self.new ≡ record self.old { calls = after_fault self.old.calls }) }
    {
        self.plan.begin()?;
        if !self.record.fits(0) {
            return Err(self.plan.fault());
        }
        self.record.synced();
        Ok(())
    }
}

impl MemDisk {
    /// Whether a write of so many bytes at a place ends within the room.
    fn has_room(&self, at: usize, len: usize) -> bool
        ensures { result ≡ nat_le (at + len) self.now.room }
    {
        let room = self.record.room();
        len <= room && at <= room - len
    }
}

/// Copies what fits of `from` to the front of `buf`, and answers how much that was.
fn copy_to_front(buf: &mut [u8], from: &[u8]) -> usize
    ensures most { result ≡ min (length buf.old) (length from.now) }
    ensures copied { take result buf.new ≡ take result from.now }
{
    let count = buf.len().min(from.len());
    buf[..count].copy_from_slice(&from[..count]);
    count
}
