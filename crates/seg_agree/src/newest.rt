//! The newest of a file's roots that a history agrees with.
ghost use Rattle.std.specs.Prelude.{IfOk};
ghost use Rattle.fb_model.specs.Lawful.{IsLawful};
ghost use Rattle.seg_agree.specs.Newest.{IsNewest};

use crate::agreeing::agrees;
use crate::totals::totals_of;
use fb_history::EntryList;
use fb_memory::Memory;
use seg_store::KeptTrees;
use std::alloc::Global;

/// The newest of the kept trees that the history agrees with, if there are such. The newest come last.
///
/// The entries are counted once. Trees that agree with another log, or with more of this one, mostly cost the sum of their
/// leaves' lengths or less, and those that agree cost their walk.
pub fn newest_agreeing(
    alloc: Global,
    entries: &EntryList,
    kept: Vec<KeptTrees>,
) -> Result<Option<KeptTrees>, Memory>
    requires { IsLawful entries.now }
    ensures { IfOk result (IsNewest entries.now kept.items) }
{
    let totals = totals_of(alloc, entries)?;
    let mut older = kept;
    while let Some(trees) = older.pop() {
        if agrees(alloc, entries, &totals, &trees.roots, trees.c)? {
            return Ok(Some(trees));
        }
    }
    Ok(None)
}
