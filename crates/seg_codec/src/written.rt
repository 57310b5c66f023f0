//! Merge records that are written.
ghost use Rattle.std.specs.Prelude.{◌≡◌, ◌<◌, ◌≤◌, ◌^◌, [], ◌∷◌, ◌++◌, length, map, filter, flat_map, drop, not, All, IsTrue, IfOk, OnOk};
ghost use Rattle.std.specs.Arc.{arc_value};
ghost use Rattle.fb_values.specs.declared.facts.Datom.{Datom};
ghost use Rattle.log_model.specs.Fields.{u32_bytes, u64_bytes};
ghost use Rattle.log_model.specs.Payload.{written_format};
ghost use Rattle.log_model.specs.Storable.{is_storable_value};
ghost use Rattle.log_model.specs.Nodes.{is_among, list_bytes, dated_bytes, leaf_bytes, directory_bytes, in_order_of_indexes, record_bytes_in};
ghost use Rattle.seg_tree.specs.Nodes.{tree_leaves};
ghost use Rattle.seg_codec.specs.Trees.{file_leaf, file_directory, directory_ids, leaves_of_four, directories_of_four, roots_of, merge_over, AreStorable};

use crate::ids::Ids;
use crate::room::room_for;
use fb_codec::{WRITTEN_FORMAT, put, put_datom};
use fb_memory::Memory;
use fb_values::Datom;
use seg_tree::{Directory, Leaf, Roots, Tree};
use std::alloc::Global;
use std::sync::Arc;

/// The bytes that are free in front of a record, for the length that a journal writes there.
const FREE: usize = 8;

/// The record of four trees that go as far as c, after 8 free bytes: it has those of their nodes that the file has not.
pub fn record_bytes(alloc: Global, roots: &Roots, c: u32, in_file: &Ids) -> Result<Vec<u8>, Memory>
    requires { AreStorable roots.now }
    ensures room { IfOk result (λ b. 8 ≤ length b.items) }
    ensures bytes { IfOk result (λ b. drop 8 b.items
        ≡ record_bytes_in written_format (merge_over in_file.now roots.now c)) }
{
    let leaves = new_leaves(alloc, roots, in_file)?;
    let directories = new_directories(alloc, roots, in_file)?;
    // A vector that grows would have its bytes twice and more while it moves them.
    let mut out = Vec::with_capacity(alloc, room_for(&leaves, &directories, roots))?;
    put(&[0; FREE], &mut out)?;
    out.push(WRITTEN_FORMAT)?;
    put(&c.to_be_bytes(), &mut out)?;
    put_leaves(&leaves, &mut out)?;
    put_directories(&directories, &mut out)?;
    put_roots(roots, &mut out)?;
    Ok(out)
}

// ---- the nodes that the file has not

pub(crate) fn new_leaves(
    alloc: Global,
    roots: &Roots,
    in_file: &Ids,
) -> Result<Vec<Arc<Leaf>>, Memory>
    ensures { IfOk result (λ v. map arc_value v.items
        ≡ filter (λ leaf. not (is_among in_file.now leaf.id)) (leaves_of_four roots.now)) }
{
    let mut new = Vec::new(alloc);
    add_new_leaves(alloc, &roots.eavt, in_file, &mut new)?;
    add_new_leaves(alloc, &roots.aevt, in_file, &mut new)?;
    add_new_leaves(alloc, &roots.avet, in_file, &mut new)?;
    add_new_leaves(alloc, &roots.vaet, in_file, &mut new)?;
    Ok(new)
}

fn add_new_leaves(
    alloc: Global,
    tree: &Tree,
    in_file: &Ids,
    new: &mut Vec<Arc<Leaf>>,
) -> Result<(), Memory>
    ensures { OnOk result (map arc_value new.new.items ≡ map arc_value new.old.items
        ++ filter (λ leaf. not (is_among in_file.now leaf.id)) (tree_leaves tree.now)) }
{
    let leaves = tree.leaves(alloc)?;
    for leaf in leaves.iter() {
        add_new_leaf(leaf, in_file, new)?;
    }
    Ok(())
}

fn add_new_leaf(leaf: &Arc<Leaf>, in_file: &Ids, new: &mut Vec<Arc<Leaf>>) -> Result<(), Memory>
    ensures { OnOk result (map arc_value new.new.items ≡ map arc_value new.old.items
        ++ filter (λ leaf. not (is_among in_file.now leaf.id)) (arc_value leaf.now ∷ [])) }
{
    if in_file.contains(leaf.id()) {
        return Ok(());
    }
    new.push(leaf.clone()?)?;
    Ok(())
}

pub(crate) fn new_directories(
    alloc: Global,
    roots: &Roots,
    in_file: &Ids,
) -> Result<Vec<Arc<Directory>>, Memory>
    ensures { IfOk result (λ v. map arc_value v.items
        ≡ filter (λ directory. not (is_among in_file.now directory.id))
        (directories_of_four roots.now)) }
{
    let mut new = Vec::new(alloc);
    add_new_directories(&roots.eavt, in_file, &mut new)?;
    add_new_directories(&roots.aevt, in_file, &mut new)?;
    add_new_directories(&roots.avet, in_file, &mut new)?;
    add_new_directories(&roots.vaet, in_file, &mut new)?;
    Ok(new)
}

fn add_new_directories(
    tree: &Tree,
    in_file: &Ids,
    new: &mut Vec<Arc<Directory>>,
) -> Result<(), Memory>
    ensures { OnOk result (map arc_value new.new.items ≡ map arc_value new.old.items
        ++ filter (λ directory. not (is_among in_file.now directory.id)) tree.now) }
{
    for directory in tree.directories() {
        add_new_directory(directory, in_file, new)?;
    }
    Ok(())
}

fn add_new_directory(
    directory: &Arc<Directory>,
    in_file: &Ids,
    new: &mut Vec<Arc<Directory>>,
) -> Result<(), Memory>
    ensures { OnOk result (map arc_value new.new.items ≡ map arc_value new.old.items
        ++ filter (λ directory. not (is_among in_file.now directory.id))
        (arc_value directory.now ∷ [])) }
{
    if in_file.contains(directory.id()) {
        return Ok(());
    }
    new.push(directory.clone()?)?;
    Ok(())
}

// ---- lists, after their numbers

/// A number of members. A list that is too long for it has no room in memory either.
fn put_count(count: usize, out: &mut Vec<u8>) -> Result<(), Memory>
    ensures { OnOk result ((count < 2 ^ 32) × (out.new.items ≡ out.old.items ++ u32_bytes count)) }
{
    let Ok(count) = u32::try_from(count) else {
        return Err(Memory);
    };
    put(&count.to_be_bytes(), out)
}

fn put_leaves(leaves: &Vec<Arc<Leaf>>, out: &mut Vec<u8>) -> Result<(), Memory>
    requires { All (λ leaf. All (λ d. IsTrue (is_storable_value written_format d.v)) leaf.datoms)
        (map arc_value leaves.now.items) }
    ensures { OnOk result (out.new.items ≡ out.old.items
        ++ list_bytes leaf_bytes (map file_leaf (map arc_value leaves.now.items))) }
{
    put_count(leaves.len(), out)?;
    for leaf in leaves.iter() {
        put_leaf(leaf, out)?;
    }
    Ok(())
}

fn put_leaf(leaf: &Leaf, out: &mut Vec<u8>) -> Result<(), Memory>
    requires { All (λ d. IsTrue (is_storable_value written_format d.v)) leaf.now.datoms }
    ensures { OnOk result (out.new.items ≡ out.old.items ++ leaf_bytes (file_leaf leaf.now)) }
{
    put(&leaf.id().to_be_bytes(), out)?;
    put_datoms(leaf.datoms(), out)
}

fn put_datoms(datoms: &[Datom], out: &mut Vec<u8>) -> Result<(), Memory>
    requires { All (λ d. IsTrue (is_storable_value written_format d.v)) datoms.now }
    ensures { OnOk result (out.new.items ≡ out.old.items ++ list_bytes dated_bytes datoms.now) }
{
    put_count(datoms.len(), out)?;
    for datom in datoms {
        put_dated(datom, out)?;
    }
    Ok(())
}

/// A datom with its t after it.
fn put_dated(datom: &Datom, out: &mut Vec<u8>) -> Result<(), Memory>
    requires { IsTrue (is_storable_value written_format datom.now.v) }
    ensures { OnOk result (out.new.items ≡ out.old.items ++ dated_bytes datom.now) }
{
    put_datom(datom, out)?;
    put(&datom.t.to_be_bytes(), out)
}

fn put_directories(directories: &Vec<Arc<Directory>>, out: &mut Vec<u8>) -> Result<(), Memory>
    ensures { OnOk result (out.new.items ≡ out.old.items ++ list_bytes directory_bytes
        (map file_directory (map arc_value directories.now.items))) }
{
    put_count(directories.len(), out)?;
    for directory in directories.iter() {
        put_directory(directory, out)?;
    }
    Ok(())
}

fn put_directory(directory: &Directory, out: &mut Vec<u8>) -> Result<(), Memory>
    ensures { OnOk result
        (out.new.items ≡ out.old.items ++ directory_bytes (file_directory directory.now)) }
{
    put(&directory.id().to_be_bytes(), out)?;
    let leaves = directory.leaves();
    put_count(leaves.len(), out)?;
    for leaf in leaves {
        put(&leaf.id().to_be_bytes(), out)?;
    }
    Ok(())
}

fn put_roots(roots: &Roots, out: &mut Vec<u8>) -> Result<(), Memory>
    ensures { OnOk result (out.new.items ≡ out.old.items
        ++ flat_map (list_bytes u64_bytes) (in_order_of_indexes (roots_of roots.now))) }
{
    put_root(&roots.eavt, out)?;
    put_root(&roots.aevt, out)?;
    put_root(&roots.avet, out)?;
    put_root(&roots.vaet, out)
}

fn put_root(tree: &Tree, out: &mut Vec<u8>) -> Result<(), Memory>
    ensures { OnOk result
        (out.new.items ≡ out.old.items ++ list_bytes u64_bytes (directory_ids tree.now)) }
{
    let directories = tree.directories();
    put_count(directories.len(), out)?;
    for directory in directories {
        put(&directory.id().to_be_bytes(), out)?;
    }
    Ok(())
}
