//! The database that a directory keeps: what opening its two disks gives, and the connection of sessions to it.
ghost use Rattle.std.specs.Prelude.{◌≡◌, ◌<◌, ◌≤◌, ◌∷◌, [], ℕ, List, IfOk, IfErr};
ghost use Rattle.board_rule.specs.Calls.{view_of};
ghost use Rattle.fb_conn.specs.Seats.{begun_of};
ghost use Rattle.disk_log.specs.Logs.{KeepsHistory};
ghost use Rattle.fb_ports.specs.HostCalls.{StaysButDisk};
ghost use Rattle.fb_run.specs.Outside.{Ports, disks_of, of_directory, IsDiskOf, OpensOnly};
ghost use Rattle.fb_run.specs.Merging.{CanWork, trees_in};
ghost use Rattle.fb_run.specs.Opening.{HostRefuses};
ghost use Rattle.fb_run.specs.Database.{SameStreams, AreDisksOf, IsReopened, IsRefused, IsOpened, IsUnready, disks_in};
ghost use Rattle.fb_run.specs.Running.{IsMade};

use crate::lines::Reach;
use crate::loading::IN_MEMORY;
use crate::merging::{Trees, Worker};
use crate::opening::Unopened;
use disk_log::DiskLog;
use fb_conn::{Conn, ConnStop, Made, Patience, Seat};
use fb_core::Core;
use fb_disk::Disk;
use fb_ports::{Host, OpenFail, Part};
use fb_recover::{OpenFault, OpenStop, Opened, reopen};
use merge_worker::{WorkEnd, base_of};
use seg_store::SegStore;
use std::alloc::Global;
use std::thread::{Threads, available_parallelism};

/// So many sessions at least are in line where one has the turn, one supposes, and one writes its reply.
const IN_LINE: u32 = 3;

/// The holder of the turn and two that stay awake.
const AT_ONCE: usize = 3;

/// The two disks of a directory.
#[derive(Drop)]
pub(crate) struct Disks<D> {
    pub(crate) log: D,
    pub(crate) segments: D,
}

/// The database that the log of a directory holds, and the store of its trees.
#[derive(Drop)]
pub(crate) struct Directory<D: Disk> {
    pub(crate) core: Core,
    pub(crate) log: DiskLog<D>,
    pub(crate) store: SegStore<D>,
    /// The t of the last entry that the log has.
    pub(crate) recovered: u32,
}

impl<D: Disk> Directory<D> {
    /// How far its history goes, and how far its trees do.
    pub(crate) fn reach(&self) -> Reach
        ensures basis { result.basis ≡ self.now.recovered }
        ensures covered { result.covered ≡ self.now.core.snapshot.covered }
    {
        Reach {
            basis: self.recovered,
            covered: self.core.covered(),
        }
    }

    /// The disks, of which nothing was asked since the database was opened.
    pub(crate) fn into_disks(self) -> Disks<D>
        ensures { result ≡ disks_in self }
    {
        Disks {
            log: self.log.into_disk(),
            segments: self.store.give_back(),
        }
    }
}

/// Why a command can't begin, and the disks that were opened for it.
#[derive(Drop)]
pub(crate) struct Unready<'a, D> {
    pub(crate) why: Obstacle<'a>,
    /// None where one of them could not be opened.
    pub(crate) disks: Option<Disks<D>>,
}

/// What keeps a command from beginning.
#[derive(Drop)]
pub(crate) enum Obstacle<'a> {
    Unopened(Unopened<'a>),
    /// The log is not that of a database, or a disk failed.
    NotReopened(OpenFault),
}

/// Opens both disks of a directory, and then the database.
pub(crate) fn open_directory<'a, H: Host>(
    alloc: Global,
    host: &mut H,
    dir: &'a str,
) -> Result<Directory<H::Disk>, Unready<'a, H::Disk>>
    ensures opened { IfOk result (IsOpened (H.spec host.old)
        (disks_of H.Disk.bytes H.Disk.faults H.Disk.images H.Disk.moment H.Disk.images_since)
        dir.now) }
    ensures streams { IfOk result (λ _. SameStreams (H.spec host.old) (H.spec host.new)) }
    ensures stop { (ports : Ports) (names rest : List (List ℕ))
        → ports.directories ≡ dir.now ∷ rest → IfErr result (IsUnready (H.spec host.old) (H.spec host.new)
        (disks_of H.Disk.bytes H.Disk.faults H.Disk.images H.Disk.moment H.Disk.images_since)
        ports dir.now (dir.now ∷ names)) }
    ensures others { OpensOnly (of_directory dir.now) (H.spec host.old) (H.spec host.new) }
{
    match open_disks(alloc, host, dir) {
        Ok(Disks { log, segments }) => reopened(alloc, log, segments),
        Err(why) => Err(Unready {
            why: Obstacle::Unopened(why),
            disks: None,
        }),
    }
}

/// Opens the two disks of a directory.
pub(crate) fn open_disks<'a, H: Host>(
    alloc: Global,
    host: &mut H,
    dir: &'a str,
) -> Result<Disks<H::Disk>, Unopened<'a>>
    ensures opened { IfOk result (AreDisksOf (H.spec host.old)
        (disks_of H.Disk.bytes H.Disk.faults H.Disk.images H.Disk.moment H.Disk.images_since)
        dir.now) }
    ensures streams { IfOk result (λ _. SameStreams (H.spec host.old) (H.spec host.new)) }
    ensures stop { IfErr result (HostRefuses dir.now (H.spec host.old) (H.spec host.new)) }
    ensures others { OpensOnly (of_directory dir.now) (H.spec host.old) (H.spec host.new) }
{
    let log = open_part(alloc, host, dir, Part::Log)?;
    let segments = open_part(alloc, host, dir, Part::Segments)?;
    Ok(Disks { log, segments })
}

/// Opens the disk of a part of the directory.
fn open_part<'a, H: Host>(
    alloc: Global,
    host: &mut H,
    dir: &'a str,
    part: Part,
) -> Result<H::Disk, Unopened<'a>>
    ensures opened { IfOk result (IsDiskOf (H.spec host.old)
        (disks_of H.Disk.bytes H.Disk.faults H.Disk.images H.Disk.moment H.Disk.images_since)
        dir.now part) }
    ensures unfailed { IfOk result (λ _. (H.spec host.new).faults ≡ (H.spec host.old).faults) }
    ensures others { StaysButDisk dir.now part (H.spec host.old) (H.spec host.new) }
    ensures stop { IfErr result (HostRefuses dir.now (H.spec host.old) (H.spec host.new)) }
{
    match host.disk(alloc, dir, part) {
        Ok(disk) => Ok(disk),
        Err(OpenFail::Failed) => Err(Unopened::CannotOpen(dir)),
        Err(OpenFail::Memory) => Err(Unopened::Memory),
    }
}

/// Opens the database that a log holds, with the trees of the segments.
fn reopened<'a, D: Disk>(alloc: Global, log: D, segments: D) -> Result<Directory<D>, Unready<'a, D>>
    ensures opened { IfOk result
        (IsReopened (disks_of D.bytes D.faults D.images D.moment D.images_since) log segments) }
    ensures refused { IfErr result
        (IsRefused (disks_of D.bytes D.faults D.images D.moment D.images_since) log segments) }
{
    match reopen(alloc, log, segments) {
        Ok(
            Opened {
                core,
                log,
                store,
                recovered,
                covered: _,
            },
        ) => Ok(Directory {
            core,
            log,
            store,
            recovered,
        }),
        Err(
            OpenStop {
                fault,
                log,
                segments,
            },
        ) => Err(Unready {
            why: Obstacle::NotReopened(fault),
            disks: Some(Disks { log, segments }),
        }),
    }
}

/// A connection with the seats of its sessions, and its worker.
#[derive(Drop)]
pub(crate) struct Connection<D: Disk> {
    pub(crate) conn: Conn<DiskLog<D>>,
    pub(crate) seats: Vec<Seat>,
    pub(crate) worker: Worker<D>,
}

/// How long who waits for a turn stays awake on this machine, and whether sessions suppose what the turns before theirs come to. They
/// do where it takes a sync of a file less: in a directory, where enough of them are in line, and processors for two that wait. A
/// machine that does not tell of its processors counts as having one.
pub(crate) fn patience_for<R: Threads>(rt: &R, directory: &str, sessions: u32) -> Patience {
    let processors = match available_parallelism(rt) {
        Ok(count) => count.get(),
        Err(_) => 1,
    };
    let one = Patience::on(processors);
    if directory == IN_MEMORY || sessions < IN_LINE || processors < AT_ONCE {
        one
    } else {
        one.of_both()
    }
}

/// The connection of so many sessions to a database that was opened. Where memory runs out, its disks are handed back.
pub(crate) fn connected<D: Disk>(
    alloc: Global,
    directory: Directory<D>,
    sessions: u32,
    merge_at: u64,
    patience: Patience,
) -> Result<Connection<D>, Disks<D>>
    requires few { (0 < sessions) × (sessions ≤ 16) }
    requires fresh { (directory.core.authors ≡ [])
        × KeepsHistory D.bytes D.images D.faults D.moment D.images_since directory.log
        directory.core.snapshot.entries directory.log }
    ensures made { IfOk result (λ made. IsMade sessions directory.core.snapshot.entries made.conn
        made.seats.items made.worker.seat) }
    ensures worker { IfOk result (λ made. CanWork made.conn made.worker) }
    ensures trees { IfOk result (λ made. made.worker.trees ≡ trees_in directory) }
    ensures begun { IfOk result (λ made. begun_of made.conn ≡ directory.log) }
    ensures stop { IfErr result (λ disks. disks ≡ disks_in directory) }
{
    let Ok(base) = base_of(directory.core.snapshot()) else {
        return Err(directory.into_disks());
    };
    let Directory {
        core,
        log,
        store,
        ..
    } = directory;
    match Conn::new(alloc, core, log, sessions, merge_at, patience) {
        Ok(
            Made {
                conn,
                seats,
                worker: seat,
            },
        ) => Ok(Connection {
            conn,
            seats,
            worker: Worker {
                seat,
                trees: Trees {
                    base,
                    ahead: None,
                    store,
                },
                // It stays so until the worker has ended.
                end: WorkEnd::Shut,
            },
        }),
        Err(ConnStop { core: _, log }) => Err(Disks {
            log: log.into_disk(),
            segments: store.give_back(),
        }),
    }
}
