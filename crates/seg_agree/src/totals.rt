//! How many datoms the first entries of a history have.
ghost use Rattle.std.specs.Prelude.{◌≡◌, ◌+◌, IfOk};
ghost use Rattle.seg_agree.specs.Indexes.{AreTotals};

use fb_history::EntryList;
use fb_memory::Memory;
use std::alloc::Global;

/// For each entry, how many datoms it has together with those before it.
pub fn totals_of(alloc: Global, entries: &EntryList) -> Result<Vec<u64>, Memory>
    ensures { IfOk result (λ totals. AreTotals totals.items entries.now) }
{
    let len = entries.len();
    let mut totals = Vec::with_capacity(alloc, len as usize)?;
    let mut total = 0;
    for t in 0..len {
        let entry = entries.at(t);
        total = sum(total, entry.datoms.len())?;
        totals.push(total)?;
    }
    Ok(totals)
}

/// So many more. No memory holds so many datoms that the sum is no number.
pub(crate) fn sum(total: u64, more: usize) -> Result<u64, Memory>
    ensures { IfOk result (λ sum. sum ≡ total + more) }
{
    match total.checked_add(more as u64) {
        Some(sum) => Ok(sum),
        None => Err(Memory),
    }
}
