//! Datoms in the order in which they came, named by their places.
ghost use Rattle.std.specs.Prelude.{◌≡◌, ◌+◌, ◌-◌, ◌<◌, ◌^◌, [], ◌∷◌, ◌++◌, length, slice_get, IfOk, Some, ◌==◌};
ghost use Rattle.live_runs.specs.Tables.{blocks_of, datoms_of};
ghost use Rattle.fb_chunks.specs.Chunks.{IsLayer};

use fb_chunks::{ChunkList, Share, Shared};
use fb_memory::Memory;
use fb_values::{Datom, Datoms};
use std::alloc::Global;
use std::marker::Model;

/// How many datoms a block has. The datoms of a small entry mostly lie in one.
pub const TOGETHER: usize = 8;

/// How many datoms numbers of 32 bits can name, each by its own.
const MOST: usize = u32::MAX as usize;

/// A list of datoms that only grows. A longer one is made from it, and shares all but the last few datoms with it.
#[derive(Drop)]
pub struct Table {
    full: Option<Blocks>,
    last: Vec<Datom>,
}

impl Model for Table {
    ghost use Rattle.std.specs.Prelude.{List};
    ghost use Rattle.fb_values.specs.declared.facts.Datom.{Datom};
    ghost use Rattle.live_runs.specs.Tables.{datoms_of, IsTable};

    ghost Value = { List Datom };

    ghost view = { λ t. datoms_of t.full t.last.items };

    ghost invariant = { λ t. IsTable t.full t.last.items };
}

impl Table {
    /// Takes no memory.
    pub fn empty(alloc: Global) -> Table
        ensures { result ≡ [] }
    {
        Table {
            full: None,
            last: Vec::new(alloc),
        }
    }

    pub fn len(&self) -> usize
        ensures value { result ≡ length self.now }
        ensures few { result < 2 ^ 32 }
    {
        block_count(&self.full) * TOGETHER + self.last.as_slice().len()
    }

    pub fn is_empty(&self) -> bool
        ensures { result ≡ (length self.now == 0) }
    {
        self.len() == 0
    }

    pub fn at(&self, number: u32) -> &Datom
        requires { number < length self.now }
        ensures { slice_get self.now number ≡ Some result.now }
    {
        let block = number as usize / TOGETHER;
        let place = number as usize % TOGETHER;
        if block < block_count(&self.full) {
            &block_at(&self.full, block).as_slice()[place]
        } else {
            &self.last.as_slice()[place]
        }
    }

    /// The table with these datoms at its end. It may have 2^32 - 1 datoms, and there is no memory for more.
    pub fn with_all(&self, datoms: &[Datom]) -> Result<Table, Memory>
        ensures { IfOk result (λ t. t ≡ self.now ++ datoms.now) }
    {
        if MOST - self.len() < datoms.len() {
            return Err(Memory);
        }
        let mut table = self.copy()?;
        for d in datoms {
            table = table.with(d)?;
        }
        Ok(table)
    }

    /// The same table, with room for a block of last datoms.
    fn copy(&self) -> Result<Table, Memory>
        ensures { IfOk result (λ t. t ≡ self.now) }
    {
        let last = copy_last(&self.last)?;
        Ok(Table {
            full: share_blocks(&self.full)?,
            last,
        })
    }

    fn with(self, d: &Datom) -> Result<Table, Memory>
        requires { length self + 1 < 2 ^ 32 }
        ensures { IfOk result (λ t. t ≡ self ++ d.now ∷ []) }
    {
        let Table { full, mut last } = self;
        d.copy_into(&mut last)?;
        if last.len() < TOGETHER {
            Ok(Table { full, last })
        } else {
            of_blocks(full, last)
        }
    }
}

type Blocks = ChunkList<Shared<Datoms>>;

/// The table whose last datoms have become a block.
fn of_blocks(full: Option<Blocks>, last: Vec<Datom>) -> Result<Table, Memory>
    requires layer { IsLayer TOGETHER (blocks_of full) last.items
        (length (datoms_of full last.items)) }
    requires whole { length last.items ≡ TOGETHER }
    requires few { length (datoms_of full last.items) < 2 ^ 32 }
    ensures { IfOk result (λ t. t ≡ datoms_of full last.items) }
{
    let alloc = *last.allocator();
    let block = Shared::new(alloc, Datoms::of(last))?;
    let full = with_block(alloc, full, block)?;
    Ok(Table {
        full: Some(full),
        last: Vec::with_capacity(alloc, TOGETHER)?,
    })
}

fn with_block(alloc: Global, full: Option<Blocks>, block: Shared<Datoms>) -> Result<Blocks, Memory>
    requires { length (blocks_of full) < 2 ^ 32 - 1 }
    ensures { IfOk result (λ blocks. blocks ≡ blocks_of full ++ block ∷ []) }
{
    match full {
        Some(full) => full.with(block),
        None => ChunkList::new(alloc)?.with(block),
    }
}

fn share_blocks(full: &Option<Blocks>) -> Result<Option<Blocks>, Memory>
    ensures { IfOk result (λ copy. copy ≡ full.now) }
{
    match full {
        None => Ok(None),
        Some(full) => Ok(Some(full.share()?)),
    }
}

fn copy_last(last: &Vec<Datom>) -> Result<Vec<Datom>, Memory>
    ensures { IfOk result (λ copy. copy.items ≡ last.now.items) }
{
    let mut copy = Vec::with_capacity(*last.allocator(), TOGETHER)?;
    for d in last.iter() {
        d.copy_into(&mut copy)?;
    }
    Ok(copy)
}

fn block_count(full: &Option<Blocks>) -> usize
    ensures { result ≡ length (blocks_of full.now) }
{
    match full {
        None => 0,
        Some(full) => full.len(),
    }
}

fn block_at(full: &Option<Blocks>, block: usize) -> &Datoms
    requires { block < length (blocks_of full.now) }
    ensures { slice_get (blocks_of full.now) block ≡ Some result.now }
{
    match full {
        Some(full) => full.at(block).get(),
        None => unreachable!(),
    }
}
