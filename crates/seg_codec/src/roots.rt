//! Roots of trees: the ids of their directories, and the trees that they name.
ghost use Rattle.std.specs.Prelude.{◌≡◌, ◌≤◌, [], ◌∷◌, ◌++◌, length, map, drop, fold, All, IsTrue, IfOk, OnOk};
ghost use Rattle.std.specs.Arc.{arc_value};
ghost use Rattle.fb_codec.specs.Answers.{Gives, GivesBy};
ghost use Rattle.log_model.specs.Fields.{that_fits, read_u64};
ghost use Rattle.log_model.specs.Nodes.{is_among, is_directory_id, reaching};
ghost use Rattle.log_model.specs.Merges.{several_over, read_root, read_roots};
ghost use Rattle.seg_tree.specs.Nodes.{DirectoryNode};
ghost use Rattle.seg_codec.specs.Trees.{AreTreesOf};
ghost use Rattle.seg_codec.specs.InFile.{IsDirectoryOf};
ghost use Rattle.seg_codec.specs.Answers.{ids_of, HasRoots, AreFound};

use crate::ids::Ids;
use crate::leaves::get_count;
use crate::nodes::Nodes;
use fb_codec::{BytesFault, get_u64, misfit};
use fb_memory::Memory;
use seg_tree::{Directory, Roots, Tree};
use std::alloc::Global;
use std::sync::Arc;

/// The bytes of an id.
const ID: usize = 8;

/// Of each tree the ids of its directories.
#[derive(Drop)]
pub struct RootIds {
    pub eavt: Vec<u64>,
    pub aevt: Vec<u64>,
    pub avet: Vec<u64>,
    pub vaet: Vec<u64>,
}

/// The roots of four trees, none of whose nodes has the id of another one.
pub(crate) fn get_roots(
    alloc: Global,
    bytes: &[u8],
    at: usize,
    nodes: &Nodes,
) -> Result<(RootIds, usize), BytesFault>
    requires { at ≤ length bytes.now }
    ensures { GivesBy ids_of bytes.now result (read_roots nodes.now (drop at bytes.now)) }
{
    let mut reached = Ids::new(alloc);
    let (eavt, behind_eavt) = get_root(alloc, bytes, at, nodes, &mut reached)?;
    let (aevt, behind_aevt) = get_root(alloc, bytes, behind_eavt, nodes, &mut reached)?;
    let (avet, behind_avet) = get_root(alloc, bytes, behind_aevt, nodes, &mut reached)?;
    let (vaet, end) = get_root(alloc, bytes, behind_avet, nodes, &mut reached)?;
    Ok((
        RootIds {
            eavt,
            aevt,
            avet,
            vaet,
        },
        end,
    ))
}

fn get_root(
    alloc: Global,
    bytes: &[u8],
    at: usize,
    nodes: &Nodes,
    reached: &mut Ids,
) -> Result<(Vec<u64>, usize), BytesFault>
    requires { at ≤ length bytes.now }
    ensures gives { GivesBy (λ v. v.items) bytes.now result
        (read_root nodes.now reached.old (drop at bytes.now)) }
    ensures reached { IfOk result
        (λ r. reached.new ≡ fold (reaching nodes.now) reached.old r.0.items) }
{
    let (count, start) = get_count(bytes, at)?;
    get_ids(alloc, bytes, start, count, nodes, reached)
}

/// So many ids. The bytes that are there bound the room that is taken for them.
fn get_ids(
    alloc: Global,
    bytes: &[u8],
    at: usize,
    count: u32,
    nodes: &Nodes,
    reached: &mut Ids,
) -> Result<(Vec<u64>, usize), BytesFault>
    requires { at ≤ length bytes.now }
    ensures gives { GivesBy (λ v. v.items) bytes.now result
        (several_over
        (λ before behind. that_fits (is_directory_id nodes.now before) read_u64 behind)
        (reaching nodes.now) reached.old count (drop at bytes.now)) }
    ensures reached { IfOk result
        (λ r. reached.new ≡ fold (reaching nodes.now) reached.old r.0.items) }
{
    let most = (bytes.len() - at) / ID;
    let mut ids = Vec::with_capacity(alloc, most.min(count as usize))?;
    let mut end = at;
    for _ in 0..count {
        let (id, next) = get_id(bytes, end, nodes, reached)?;
        ids.push(id)?;
        end = next;
    }
    Ok((ids, end))
}

/// The id of a directory of the file, nothing of which is reached yet.
fn get_id(
    bytes: &[u8],
    at: usize,
    nodes: &Nodes,
    reached: &mut Ids,
) -> Result<(u64, usize), BytesFault>
    requires { at ≤ length bytes.now }
    ensures gives { Gives bytes.now result
        (that_fits (is_directory_id nodes.now reached.old) read_u64 (drop at bytes.now)) }
    ensures reached { IfOk result (λ r. reached.new ≡ reaching nodes.now reached.old r.0) }
{
    let (id, next) = get_u64(bytes, at)?;
    if !nodes.reach(id, reached)? {
        return Err(misfit(at));
    }
    Ok((id, next))
}

impl Nodes {
    /// The trees that these roots name. Nodes stay shared.
    pub fn trees(&self, alloc: Global, roots: &RootIds) -> Result<Roots, Memory>
        requires { HasRoots self.now (ids_of roots.now) }
        ensures { IfOk result (λ trees. AreTreesOf self.now (ids_of roots.now) trees) }
    {
        let eavt = tree_of(alloc, self, &roots.eavt)?;
        let aevt = tree_of(alloc, self, &roots.aevt)?;
        let avet = tree_of(alloc, self, &roots.avet)?;
        let vaet = tree_of(alloc, self, &roots.vaet)?;
        Ok(Roots {
            eavt,
            aevt,
            avet,
            vaet,
        })
    }
}

/// The tree of directories of the file.
fn tree_of(alloc: Global, nodes: &Nodes, ids: &Vec<u64>) -> Result<Tree, Memory>
    requires { All (λ id. IsTrue
        (is_among (map (λ directory. directory.id) nodes.now.directories) id)) ids.now.items }
    ensures { IfOk result (λ tree. AreFound nodes.now ids.now.items tree) }
{
    let mut directories = Vec::with_capacity(alloc, ids.len())?;
    for id in ids.iter() {
        add_found(nodes, *id, &mut directories)?;
    }
    let tree = Tree::of_directories(alloc, directories)?;
    Ok(tree)
}

fn add_found(nodes: &Nodes, id: u64, directories: &mut Vec<Arc<Directory>>) -> Result<(), Memory>
    requires { IsTrue (is_among (map (λ directory. directory.id) nodes.now.directories) id) }
    ensures { OnOk result ((directory : DirectoryNode)
        × (map arc_value directories.new.items ≡ map arc_value directories.old.items
        ++ directory ∷ [])
        × IsDirectoryOf nodes.now id directory) }
{
    match nodes.directory(id) {
        None => unreachable!(),
        Some(directory) => {
            directories.push(directory.clone()?)?;
            Ok(())
        }
    }
}
