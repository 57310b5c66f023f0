//! Reopening.
ghost use Rattle.std.specs.Prelude.{◌≡◌, ◌⊎◌, ◌≤◌, ◌<◌, ◌*◌, ◌^◌, [], ℕ, List, length, IfOk, IfErr, MatchResult};
ghost use Rattle.fb_model.specs.History.{basis};
ghost use Rattle.fb_model.specs.Lawful.{IsLawful};
ghost use Rattle.view_model.specs.Stands.{RootStands};
ghost use Rattle.seg_tree.specs.Indexes.{trees_of};
ghost use Rattle.disk_model.specs.Disk.{IfKnown, LeavesOnly};
ghost use Rattle.log_model.specs.Log.{IsLogOf};
ghost use Rattle.fb_journal.specs.Journals.{StaysKnown};
ghost use Rattle.fb_core.specs.Cores.{CoreStands};
ghost use Rattle.seg_store.specs.Stores.{disk_in as segments_in, next_in, node_count, StoreKeeps};
ghost use Rattle.disk_log.specs.Logs.{disk_in, count_in, KeepsHistory};
ghost use Rattle.fb_ports.specs.declared.hosts.Part.TheVariants.{Log, Segments};
ghost use Rattle.fb_recover.specs.Faults.{IsCause, IsOfLog, CountsOpening};
ghost use Rattle.seg_tree.specs.Ids.{next_above};
ghost use Rattle.seg_tree.specs.Indexes.{root_ids};
ghost use Rattle.seg_store.specs.Keeping.{HasGreatNode, FitsStore};
ghost use Rattle.fb_recover.specs.Openings.{log_after, AreNumberedFromOne, AreOfFile, HasCoverage, AgreesWithNone, HasFault, HasRoot, HasRecordsOf, IsMostlyDead};
ghost use Rattle.seg_store.specs.Trees.{root_of};
ghost use Rattle.fb_recover.specs.Joining.{IsJoined, IsStopped, IsOpenedOn, IsStoppedOn};

use crate::basing::{Based, find_base};
use crate::logging::{LogStop, Logged, open_log};
use crate::{OpenFault, OpenStop};
use disk_log::DiskLog;
use fb_core::Core;
use fb_disk::Disk;
use fb_memory::Memory;
use seg_store::{LoadStop, SegStore};
use std::alloc::Global;

/// A database that was opened.
#[derive(Drop)]
pub struct Opened<D: Disk> {
    pub core: Core,
    pub log: DiskLog<D>,
    pub store: SegStore<D>,
    /// The t of the last entry that the log has.
    pub recovered: u32,
    /// The t of the last entry that the trees are of.
    pub covered: u32,
}

/// Opens the database of a log and of a file of segments. The trees are those of the newest root that the file keeps and the
/// history agrees with, and the entries after them are live. A file then starts anew with this root alone, where more than
/// half of its nodes are none of these trees' and there is memory for its record. Where there is no such root, the trees are of the first entry alone, and a file
/// that keeps roots starts anew.
///
/// After the first sync the log's file is only read, unless it is a new one. Nothing is asked of the segments before the
/// whole log is judged. What their file holds changes no answer.
pub fn reopen<D: Disk>(alloc: Global, log: D, segments: D) -> Result<Opened<D>, OpenStop<D>>
    // The file is the log of the history that the core has.
    ensures history { IfOk result
        (λ o. IfKnown (D.bytes log) (λ file. IsLogOf file o.core.snapshot.entries)) }
    ensures core { IfOk result (λ o. CoreStands o.core × (o.core.authors ≡ [])) }
    ensures recovered { IfOk result (λ o. o.recovered ≡ basis o.core.snapshot.entries) }

    // The trees are the newest of the file of segments that the history agrees with.
    ensures covered { IfOk result (λ o. o.covered ≡ o.core.snapshot.covered) }
    ensures coverage { IfOk result (λ o. IfKnown (D.bytes segments)
        (HasCoverage o.core.snapshot.entries o.covered)) }

    // They fit the file that the store goes on with. Their nodes are numbered from 1 on, or are those of the file before.
    ensures fits { IfOk result
        (λ o. FitsStore D.bytes D.images o.store o.core.snapshot.roots) }
    ensures ids { IfOk result (λ o. AreNumberedFromOne o.core.snapshot.roots
        ⊎ AreOfFile (D.bytes segments) o.core.snapshot.roots) }

    // Unless the file of segments has a fault, or no root of it agrees, the store's file keeps the trees as a root. It has the
    // records that it had, unless more than half of its nodes were none of the trees'. Then at most half are now, where there
    // was memory for a file without the others. New nodes get numbers above those of the trees.
    ensures root { IfOk result (λ o. IfKnown (D.bytes segments) (λ file. HasFault file
        ⊎ AgreesWithNone o.core.snapshot.entries file
        ⊎ HasRoot D.bytes D.images o.store (root_of o.core.snapshot.roots o.covered))) }
    ensures below { IfOk result (λ o. IfKnown (D.bytes segments) (λ file. HasFault file
        ⊎ AgreesWithNone o.core.snapshot.entries file
        ⊎ (next_above (root_ids o.core.snapshot.roots) ≤ next_in o.store))) }
    ensures room { IfOk result
        (λ o. (node_count o.store ≤ 2 * length (root_ids o.core.snapshot.roots))
        ⊎ IfKnown (D.bytes segments) (HasRecordsOf D.bytes D.images o.store)) }
    ensures still { IfOk result (λ o. IfKnown (D.bytes segments) (λ file. HasFault file
        ⊎ AgreesWithNone o.core.snapshot.entries file
        ⊎ IsMostlyDead o.core.snapshot.roots file
        ⊎ HasRecordsOf D.bytes D.images o.store file)) }

    // Where they have a number after which no merge may go, the file had it before.
    ensures great { IfOk result (λ o. IfKnown (D.bytes segments)
        (λ file. 2 ^ 61 < next_above (root_ids o.core.snapshot.roots) → HasGreatNode file)) }

    // Where no root agrees, the store's file has none from now on.
    ensures anew { IfOk result (λ o. IfKnown (D.bytes segments)
        (λ file. AgreesWithNone o.core.snapshot.entries file
        → AreNumberedFromOne o.core.snapshot.roots
        × StoreKeeps D.bytes D.images [] o.store)) }

    // The log keeps that history, as it was opened.
    ensures keeps { IfOk result (λ o. KeepsHistory D.bytes D.images D.faults D.moment
        D.images_since o.log o.core.snapshot.entries o.log) }
    ensures count { IfOk result (λ o. count_in o.log ≡ o.recovered) }
    ensures known { IfOk result (λ o. StaysKnown (D.bytes log) (D.bytes (disk_in o.log))) }
    ensures segments_known { IfOk result
        (λ o. StaysKnown (D.bytes segments) (D.bytes (segments_in o.store))) }

    // A fault of the log is what its file says, one of the segments comes over a good log, and those of the disks are counted.
    ensures why_not { IfErr result (λ s. IfKnown (D.bytes log) (IsCause s.fault)) }
    ensures counted { MatchResult result (λ o. D.faults (disk_in o.log) ≡ D.faults log)
        (λ s. CountsOpening s.fault Log (D.faults log) (D.faults s.log)) }
    ensures segments_counted { MatchResult result
        (λ o. D.faults (segments_in o.store) ≡ D.faults segments)
        (λ s. CountsOpening s.fault Segments (D.faults segments) (D.faults s.segments)) }

    // With a fault of the log nothing was asked of the segments.
    ensures untouched { IfErr result (λ s. IsOfLog s.fault → s.segments ≡ segments) }

    // A crash at any moment leaves an image from before, or at most 16 bytes where there were no more: a new log.
    ensures any_moment { IfKnown (D.bytes log) (λ file. LeavesOnly D.moment D.images_since
        log (log_after result)
        (λ image. D.images log image ⊎ ((length file ≤ 16) × (length image ≤ 16)))) }

    // So it leaves an image from before, or the log of the same history.
    ensures any_moment_stands { IfOk result (λ o. IfKnown (D.bytes log) (λ _. LeavesOnly
        D.moment D.images_since log (disk_in o.log)
        (λ image. D.images log image ⊎ IsLogOf image o.core.snapshot.entries))) }
{
    match open_log(alloc, log) {
        Ok(logged) => opened_on(alloc, logged, segments),
        Err(LogStop { fault, disk: log }) => Err(OpenStop {
            fault,
            log,
            segments,
        }),
    }
}

/// The database of a history and of a file of segments.
fn opened_on<D: Disk>(
    alloc: Global,
    logged: Logged<D>,
    segments: D,
) -> Result<Opened<D>, OpenStop<D>>
    requires { IsLawful logged.entries }
    ensures opened { IfOk result (IsOpenedOn D.bytes D.images D.faults logged segments) }
    ensures stopped { IfErr result (IsStoppedOn D.faults logged segments) }
{
    match find_base(alloc, &logged.entries, segments) {
        Ok(based) => joined(alloc, logged, based),
        Err(
            LoadStop {
                fault,
                disk: segments,
            },
        ) => Err(OpenStop {
            fault: OpenFault::from(fault),
            log: logged.log.into_disk(),
            segments,
        }),
    }
}

/// The database of a history and of trees of its first entries.
fn joined<D: Disk>(
    alloc: Global,
    logged: Logged<D>,
    based: Based<D>,
) -> Result<Opened<D>, OpenStop<D>>
    requires lawful { IsLawful logged.entries }
    requires stands { RootStands (trees_of based.trees.roots) logged.entries based.trees.c }
    ensures joined { IfOk result (IsJoined logged based) }
    ensures stopped { IfErr result (IsStopped logged based) }
{
    let Logged { entries, log } = logged;
    let Based { store, trees } = based;
    match Core::opened(alloc, entries, trees.roots, trees.c) {
        Ok(core) => {
            let (recovered, covered) = (core.basis(), core.covered());
            Ok(Opened {
                core,
                log,
                store,
                recovered,
                covered,
            })
        }
        Err(Memory) => Err(OpenStop {
            fault: OpenFault::Memory,
            log: log.into_disk(),
            segments: store.give_back(),
        }),
    }
}
