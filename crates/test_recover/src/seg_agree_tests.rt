//! Which of several roots a history is opened with.
use fb_memory::Memory;
use fb_view::Snapshot;
use seg_agree::newest_agreeing;
use seg_store::KeptTrees;
use seg_tree::Roots;
use std::alloc::Global;
use std::test::Fail;

/// The trees of the first entry, said to go as far as each c.
fn of_first_entry(alloc: Global, first: &Snapshot, cs: &[u32]) -> Result<Vec<KeptTrees>, Memory> {
    let mut kept = Vec::new(alloc);
    for c in cs {
        let roots = first.roots().share()?;
        kept.push(KeptTrees { roots, c: *c })?;
    }
    Ok(kept)
}

/// The c of the newest of these trees that the history agrees with.
fn newest(alloc: Global, first: &Snapshot, kept: Vec<KeptTrees>) -> Result<Option<u32>, Memory> {
    Ok(match newest_agreeing(alloc, first.entries(), kept)? {
        Some(trees) => Some(trees.c),
        None => None,
    })
}

/// The same of the trees of the first entry.
fn newest_own(alloc: Global, first: &Snapshot, cs: &[u32]) -> Result<Option<u32>, Memory> {
    let kept = of_first_entry(alloc, first, cs)?;
    newest(alloc, first, kept)
}

/// The same of these and, newer than all of them, empty trees that are said to go as far as 0.
fn newest_before_empty(alloc: Global, first: &Snapshot, cs: &[u32]) -> Result<Option<u32>, Memory> {
    let roots = Roots::empty(alloc)?;
    let mut kept = of_first_entry(alloc, first, cs)?;
    kept.push(KeptTrees { roots, c: 0 })?;
    newest(alloc, first, kept)
}

#[test]
fn the_newest_root_that_agrees_is_found(rt: HostRuntime) -> Result<(), Fail> {
    let first = Snapshot::first(rt.alloc())?;
    assert_eq!(rt; newest_before_empty(rt.alloc(), &first, &[0, 1])?, Some(0));
    Ok(())
}

#[test]
fn no_root_may_agree(rt: HostRuntime) -> Result<(), Fail> {
    let first = Snapshot::first(rt.alloc())?;
    assert_eq!(rt; newest_own(rt.alloc(), &first, &[1, 2])?, None);
    Ok(())
}
