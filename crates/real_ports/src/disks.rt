//! Files as disks. Each call is a few calls of the system at an offset, and a sync reaches the disk itself.
ghost use Rattle.std.specs.Prelude.{◌≡◌, ◌<◌, ◌≤◌, ℕ, [], length, None, Some, is_ok, IfOk, IfErr, IsTrue};
ghost use Rattle.real_ports.specs.AnyDisks.{faults_of, bytes_of, is_memory, held_in, opened_in};
ghost use Rattle.fb_ports.specs.Faults.{Counts};

use crate::in_use::InUse;
use crate::opened::{Node, open_directory, open_regular};
use crate::synced::{mark_unsynced, settle};
use fb_ports::{Disk, Failed, OpenFail, Part};
use io_faults::raise;
use mem_ports::MemDisk;
use std::alloc::Global;
use std::fs::{File, TryLockError};
use std::io;
use std::io::ErrorKind;
use std::marker::Model;
use std::os::unix::fs::FileExt;

/// The name of a directory that is a disk in memory.
const IN_MEMORY: &str = ":memory:";

/// The room of a disk in memory: 128 MiB.
const ROOM: usize = 134_217_728;

/// A file. A contract sees its count of faults.
#[derive(Drop)]
pub struct FileDisk {
    file: File,
    faults: u64,
}

impl Model for FileDisk {
    ghost use Rattle.std.specs.Prelude.{ℕ};

    ghost Value = { ℕ };

    ghost view = { λ d. d.faults };
}

impl FileDisk {
    /// The file of this path in a directory that must be there. A missing file is made empty. Its entry in the directory
    /// is on the disk before this answers, also where an earlier run made the file and broke off. A file that another
    /// program holds locked, as this one holds its own, is not opened, and neither is one that is a sink.
    fn open(rt: &HostRuntime, in_use: &mut InUse, dir: &str, path: &str) -> io::Result<FileDisk>
        ensures { IfOk result (λ d. d ≡ 0) }
    {
        let dir = open_directory(rt, dir)?;
        let file = open_regular(rt, path)?;
        lock(&file)?;
        if let Some(node) = Node::of(&file.metadata()?) {
            in_use.add(node)?;
        }
        settle(&file)?;
        dir.sync_all()?;
        Ok(FileDisk { file, faults: 0 })
    }

    /// Answers whether a call of the system was done, and counts it where it was not.
    fn count(&mut self, done: bool) -> Result<(), Failed>
        ensures done { is_ok result ≡ done }
        ensures counted { Counts result self.old self.new }
    {
        if done {
            return Ok(());
        }
        raise(&mut self.faults);
        Err(Failed)
    }
}

/// Locks a file, unless another program holds it. Where a file system has no locks, none is held.
fn lock(file: &File) -> io::Result<()> {
    match file.try_lock() {
        Err(TryLockError::Error(e)) if e.kind() == ErrorKind::Unsupported => Ok(()),
        Err(e) => Err(io::Error::from(e)),
        Ok(()) => Ok(()),
    }
}

/// Reads at a place, and again where a signal interrupts it.
fn read_some(file: &File, at: u64, buf: &mut [u8]) -> io::Result<usize>
    ensures { IfOk result (λ n. n ≤ length buf.old) }
{
    for _ in 0..u64::MAX {
        match file.read_at(buf, at) {
            Err(e) if e.kind() == ErrorKind::Interrupted => {}
            read => return read,
        }
    }
    Err(io::Error::from(ErrorKind::TimedOut))
}

impl Disk for FileDisk {
    ghost use Rattle.std.specs.Prelude.{None, ⊤};

    ghost faults = { λ faults. faults };

    ghost bytes = { λ _. None };

    ghost images = { λ _ _. ⊤ };

    ghost moment = { λ _. 0 };

    ghost images_since = { λ _ _ _. ⊤ };

    ghost reads_an_image = { λ _ _ _. tt };

    ghost counts_now = { λ _ _ _ _ _. tt };

    ghost only_now = { λ _ _ _. tt };

    fn faults(&self) -> u64 {
        self.faults
    }

    fn len(&mut self) -> Result<u64, Failed> {
        match self.file.metadata() {
            Ok(metadata) => Ok(metadata.len()),
            Err(_) => {
                raise(&mut self.faults);
                Err(Failed)
            }
        }
    }

    fn read_at(&mut self, at: u64, buf: &mut [u8]) -> Result<usize, Failed> {
        match read_some(&self.file, at, buf) {
            Ok(count) => Ok(count),
            Err(_) => {
                raise(&mut self.faults);
                Err(Failed)
            }
        }
    }

    fn write_at(&mut self, at: u64, piece: &[u8]) -> Result<(), Failed> {
        let done = match at.checked_add(piece.len() as u64) {
            Some(_) => self.file.write_all_at(piece, at).is_ok(),
            None => false,
        };
        self.count(done)
    }

    fn cut(&mut self, len: u64) -> Result<(), Failed> {
        let done = match self.file.metadata() {
            Ok(metadata) => metadata.len() <= len || self.file.set_len(len).is_ok(),
            Err(_) => false,
        };
        self.count(done)
    }

    fn sync(&mut self) -> Result<(), Failed> {
        let done = self.file.sync_data().is_ok();
        if !done {
            // A mark that cannot be set is not known of at the next opening.
            let _ = mark_unsynced(&self.file);
        }
        self.count(done)
    }
}

/// A file, or for the directory `:memory:` a disk in memory, whose bytes alone are known.
#[derive(Drop)]
pub enum AnyDisk {
    File(FileDisk),
    InMemory(MemDisk),
}

impl AnyDisk {
    /// The file of a part of a directory, or an empty disk in memory for `:memory:`.
    pub(crate) fn open(
        rt: &HostRuntime,
        in_use: &mut InUse,
        alloc: Global,
        dir: &str,
        part: Part,
    ) -> Result<AnyDisk, OpenFail>
        ensures opened { IfOk result (λ d. d ≡ opened_in dir.now) }
        ensures known { IfOk result (λ d. bytes_of d ≡ held_in dir.now part) }
        ensures count { IfOk result (λ d. faults_of d ≡ 0) }

        // In memory only memory can be wanting.
        ensures in_memory { IsTrue (is_memory dir.now) → IfErr result (λ e. e ≡ OpenFail.Memory) }
    {
        if dir == IN_MEMORY {
            let disk = MemDisk::new(alloc, ROOM, Vec::new(alloc))?;
            return Ok(AnyDisk::InMemory(disk));
        }
        let name = match part {
            Part::Log => "log",
            Part::Segments => "segments",
        };
        let Ok(path) = format!(in alloc; "{dir}/{name}") else {
            return Err(OpenFail::Memory);
        };
        match FileDisk::open(rt, in_use, dir, &path) {
            Ok(file) => Ok(AnyDisk::File(file)),
            Err(_) => Err(OpenFail::Failed),
        }
    }
}

impl Disk for AnyDisk {
    ghost use Rattle.real_ports.specs.AnyDisks.{faults_of, bytes_of, may_leave, moment_at, may_have_left};
    ghost use Rattle.real_ports.specs.AnyDiskLaws.{known_is_left, left_at_moment, left_no_later};

    ghost faults = { faults_of };

    ghost bytes = { bytes_of };

    ghost images = { may_leave };

    ghost moment = { moment_at };

    ghost images_since = { may_have_left };

    ghost reads_an_image = { known_is_left };

    ghost counts_now = { left_at_moment };

    ghost only_now = { left_no_later };

    fn faults(&self) -> u64 {
        match self {
            AnyDisk::File(file) => file.faults(),
            AnyDisk::InMemory(disk) => disk.faults(),
        }
    }

    fn len(&mut self) -> Result<u64, Failed> {
        match self {
            AnyDisk::File(file) => file.len(),
            AnyDisk::InMemory(disk) => disk.len(),
        }
    }

    fn read_at(&mut self, at: u64, buf: &mut [u8]) -> Result<usize, Failed> {
        match self {
            AnyDisk::File(file) => file.read_at(at, buf),
            AnyDisk::InMemory(disk) => disk.read_at(at, buf),
        }
    }

    fn write_at(&mut self, at: u64, piece: &[u8]) -> Result<(), Failed> {
        match self {
            AnyDisk::File(file) => file.write_at(at, piece),
            AnyDisk::InMemory(disk) => disk.write_at(at, piece),
        }
    }

    fn cut(&mut self, len: u64) -> Result<(), Failed> {
        match self {
            AnyDisk::File(file) => file.cut(len),
            AnyDisk::InMemory(disk) => disk.cut(len),
        }
    }

    fn sync(&mut self) -> Result<(), Failed> {
        match self {
            AnyDisk::File(file) => file.sync(),
            AnyDisk::InMemory(disk) => disk.sync(),
        }
    }
}
