//! A backup: what a directory keeps is copied to another one, and a line about it goes out to the console.
ghost use Rattle.std.specs.Prelude.{◌≡◌, ◌≢◌, Some, Ok, IfOk, IfErr, IfSome};
ghost use Rattle.command_line.specs.Views.{backup_by};
ghost use Rattle.disk_log.specs.Logs.{disk_in};
ghost use Rattle.seg_store.specs.Stores.{disk_in as segments_in};
ghost use Rattle.fb_run.specs.Outside.{streams_of, disks_of, ports_of, OpensOnly};
ghost use Rattle.fb_run.specs.Logs.{IsUnharmed};
ghost use Rattle.fb_run.specs.Database.{IsUnready};
ghost use Rattle.fb_run.specs.Causes.{NoSession, names_of, Causes};
ghost use Rattle.fb_run.specs.Loading.{said_of};
ghost use Rattle.fb_run.specs.Targets.{TargetHolds, TargetHasRoot};
ghost use Rattle.fb_run.specs.Copying.{outside_of, OpensOutside, RefusesOutside, IsUnbegun, IsBegun, TellsCopy, HasBackedUp};

use crate::copying::{Copied, NotCopied, copy};
use crate::database::{Directory, Disks, Obstacle, Unready, open_directory, open_disks};
use crate::ending::{not_begun, without_session};
use crate::lines::{Reach, copied_line, line_of_copy, out_of_memory, status_of_copy};
use crate::looking::{CONSOLE, answered, write_line};
use crate::opening::{Unopened, open_sink};
use crate::outcome::Outcome;
use command_line::Backup;
use fb_disk::Disk;
use fb_ports::{Host, Sink};
use std::alloc::Global;

/// Opens the directory, its target and the console, copies what the target lacks, and prints a line about it.
pub(crate) fn back_up<H: Host>(
    alloc: Global,
    host: &mut H,
    names: &Backup<'_>,
) -> Outcome<H::In, H::Out, H::Disk>
    requires apart { names.now.from.now ≢ names.now.to.now }
    ensures none { NoSession result }
    ensures unharmed { IfSome result.log (IsUnharmed (H.spec host.old)
        (disks_of H.Disk.bytes H.Disk.faults H.Disk.images H.Disk.moment H.Disk.images_since)
        names.now.from.now) }
    ensures target { IfSome result.target_log (TargetHolds (H.spec host.old)
        (disks_of H.Disk.bytes H.Disk.faults H.Disk.images H.Disk.moment H.Disk.images_since)
        names.now.from.now names.now.to.now result.status) }
    ensures target_trees { IfSome result.target_segments (TargetHasRoot (H.spec host.old)
        (disks_of H.Disk.bytes H.Disk.faults H.Disk.images H.Disk.moment H.Disk.images_since)
        names.now.from.now names.now.to.now result.status) }
    ensures causes { Causes (H.spec host.old) (H.spec host.new)
        (streams_of H.In.left H.In.faults H.Out.contents H.Out.faults)
        (disks_of H.Disk.bytes H.Disk.faults H.Disk.images H.Disk.moment H.Disk.images_since)
        (Some (backup_by names.now)) result }
    ensures others { OpensOnly (ports_of (Some (backup_by names.now))) (H.spec host.old)
        (H.spec host.new) }
{
    match open_backup(alloc, host, names) {
        Ok(begun) => backed_up(alloc, begun),
        Err(unready) => not_begun(alloc, unready),
    }
}

/// A directory that was opened, and what it is copied to.
#[derive(Drop)]
struct Begun<O, D: Disk> {
    directory: Directory<D>,
    outside: Outside<O, D>,
}

/// The disks of a target, and the console for the line about its backup.
#[derive(Drop)]
struct Outside<O, D> {
    target: Disks<D>,
    console: O,
}

/// Opens the directory, and then its target and the console.
fn open_backup<'a, H: Host>(
    alloc: Global,
    host: &mut H,
    names: &Backup<'a>,
) -> Result<Begun<H::Out, H::Disk>, Unready<'a, H::Disk>>
    requires apart { names.now.from.now ≢ names.now.to.now }
    ensures begun { IfOk result (IsBegun (H.spec host.old) (H.spec host.new)
        (streams_of H.In.left H.In.faults H.Out.contents H.Out.faults)
        (disks_of H.Disk.bytes H.Disk.faults H.Disk.images H.Disk.moment H.Disk.images_since)
        names.now.from.now names.now.to.now) }
    ensures stop { IfErr result (IsUnready (H.spec host.old) (H.spec host.new)
        (disks_of H.Disk.bytes H.Disk.faults H.Disk.images H.Disk.moment H.Disk.images_since)
        (ports_of (Some (backup_by names.now))) names.now.from.now
        (names_of (Some (backup_by names.now)))) }
    ensures others { OpensOnly (ports_of (Some (backup_by names.now))) (H.spec host.old)
        (H.spec host.new) }
{
    match open_directory(alloc, host, names.from) {
        Ok(directory) => open_behind(alloc, host, names, directory),
        Err(unready) => Err(unready),
    }
}

/// Opens the target and the console of a backup of this directory.
fn open_behind<'a, H: Host>(
    alloc: Global,
    host: &mut H,
    names: &Backup<'a>,
    directory: Directory<H::Disk>,
) -> Result<Begun<H::Out, H::Disk>, Unready<'a, H::Disk>>
    ensures directory { IfOk result (λ begun. begun.directory ≡ directory) }
    ensures outside { IfOk result (λ begun. OpensOutside (H.spec host.old) (H.spec host.new)
        (streams_of H.In.left H.In.faults H.Out.contents H.Out.faults)
        (disks_of H.Disk.bytes H.Disk.faults H.Disk.images H.Disk.moment H.Disk.images_since)
        names.now.to.now begun.outside) }
    ensures stop { IfErr result
        (IsUnbegun (H.spec host.old) (H.spec host.new) names.now.to.now directory) }
    ensures others { OpensOnly (outside_of names.now.to.now) (H.spec host.old)
        (H.spec host.new) }
{
    match open_outside(alloc, host, names.to) {
        Ok(outside) => Ok(Begun { directory, outside }),
        Err(why) => Err(Unready {
            why: Obstacle::Unopened(why),
            disks: Some(directory.into_disks()),
        }),
    }
}

/// Opens the disks of a target, and then the console.
fn open_outside<'a, H: Host>(
    alloc: Global,
    host: &mut H,
    to: &'a str,
) -> Result<Outside<H::Out, H::Disk>, Unopened<'a>>
    ensures opened { IfOk result (OpensOutside (H.spec host.old) (H.spec host.new)
        (streams_of H.In.left H.In.faults H.Out.contents H.Out.faults)
        (disks_of H.Disk.bytes H.Disk.faults H.Disk.images H.Disk.moment H.Disk.images_since)
        to.now) }
    ensures stop { IfErr result (RefusesOutside to.now (H.spec host.old) (H.spec host.new)) }
    ensures others { OpensOnly (outside_of to.now) (H.spec host.old) (H.spec host.new) }
{
    let target = open_disks(alloc, host, to)?;
    match open_sink(alloc, host, CONSOLE) {
        Ok(console) => Ok(Outside { target, console }),
        Err(why) => Err(why),
    }
}

/// The outcome of a backup: the target gets what it lacks, and the line about it goes out to the console.
fn backed_up<I: Drop, O: Sink, D: Disk>(alloc: Global, begun: Begun<O, D>) -> Outcome<I, O, D>
    ensures none { NoSession result }
    ensures log { result.log ≡ Some (disk_in begun.directory.log) }
    ensures segments { result.segments ≡ Some (segments_in begun.directory.store) }
    ensures backed_up { HasBackedUp O.contents O.faults
        (disks_of D.bytes D.faults D.images D.moment D.images_since)
        begun.directory.core.snapshot begun.directory.recovered begun.outside.target
        begun.outside.console result }
{
    let Begun { directory, outside } = begun;
    let Outside { target, console } = outside;
    let copied = copy(alloc, directory.core.snapshot(), target);
    let reach = directory.reach();
    let disks = directory.into_disks();
    let Copied { target, end } = copied;
    Outcome {
        log: Some(disks.log),
        segments: Some(disks.segments),
        target_log: Some(target.log),
        target_segments: Some(target.segments),
        ..told(alloc, reach, end, console)
    }
}

/// The outcome where a copy ended so: where all was copied, the line about it goes out to the console.
fn told<I: Drop, O: Sink, D: Drop>(
    alloc: Global,
    reach: Reach,
    end: Result<u32, NotCopied>,
    console: O,
) -> Outcome<I, O, D>
    ensures none { NoSession result }
    ensures told { TellsCopy O.contents O.faults reach.basis reach.covered console end
        (said_of result) }
{
    match end {
        Ok(copied) => printed(alloc, reach, copied, console),
        Err(why) => without_session(alloc, status_of_copy(why), line_of_copy(alloc, why)),
    }
}

/// The outcome where the line about a copy of so many entries is printed on the console.
fn printed<I: Drop, O: Sink, D: Drop>(
    alloc: Global,
    reach: Reach,
    copied: u32,
    mut console: O,
) -> Outcome<I, O, D>
    ensures none { NoSession result }
    ensures told { TellsCopy O.contents O.faults reach.basis reach.covered console (Ok copied)
        (said_of result) }
{
    let Ok(line) = copied_line(alloc, reach, copied) else {
        return without_session(alloc, 9, out_of_memory(alloc));
    };
    let written = write_line(&mut console, line.as_bytes());
    Outcome {
        console: Some(console),
        ..answered(alloc, written)
    }
}
