//! How much room the bytes of a record take, or the greatest number if it is more: no memory has as much room.

use fb_values::{Datom, Value};
use seg_tree::{Directory, Leaf, Roots, Tree};
use std::sync::Arc;

/// The free bytes in front of a record, its format and its c.
const FRONT: usize = 13;

/// The bytes of a number of members.
const COUNT: usize = 4;

/// The bytes of an id.
const ID: usize = 8;

/// The bytes of a datom with its t and without its value.
const BARE_DATOM: usize = 21;

/// The room of a record that has these nodes and roots, with the free bytes in front of it.
pub(crate) fn room_for(
    leaves: &Vec<Arc<Leaf>>,
    directories: &Vec<Arc<Directory>>,
    roots: &Roots,
) -> usize {
    FRONT
        .saturating_add(leaves_room(leaves))
        .saturating_add(directories_room(directories))
        .saturating_add(tree_room(&roots.eavt))
        .saturating_add(tree_room(&roots.aevt))
        .saturating_add(tree_room(&roots.avet))
        .saturating_add(tree_room(&roots.vaet))
}

fn leaves_room(leaves: &Vec<Arc<Leaf>>) -> usize {
    let mut room = COUNT;
    for leaf in leaves.iter() {
        room = room.saturating_add(leaf_room(leaf));
    }
    room
}

fn leaf_room(leaf: &Leaf) -> usize {
    let mut room = ID + COUNT;
    for datom in leaf.datoms() {
        room = room.saturating_add(datom_room(datom));
    }
    room
}

fn datom_room(datom: &Datom) -> usize {
    BARE_DATOM.saturating_add(value_room(&datom.v))
}

/// With the tag in front.
fn value_room(v: &Value) -> usize {
    match v {
        Value::Keyword(text) => text_room(text.len()),
        Value::Str(text) => text_room(text.len()),
        Value::Bool(_) => 2,
        Value::Long(_) => 9,
        Value::Ref(_) => 9,
        Value::Instant(_) => 9,
        Value::Uuid(_) => 17,
        Value::Symbol(text) => text_room(text.len()),
        Value::Uri(text) => text_room(text.len()),
    }
}

/// With the tag and the length in front.
fn text_room(len: usize) -> usize {
    len.saturating_add(5)
}

fn directories_room(directories: &Vec<Arc<Directory>>) -> usize {
    let mut room = COUNT;
    for directory in directories.iter() {
        room = room.saturating_add(directory_room(directory));
    }
    room
}

fn directory_room(directory: &Directory) -> usize {
    ID.saturating_add(ids_room(directory.leaves().len()))
}

/// The room of a tree's root.
fn tree_room(tree: &Tree) -> usize {
    ids_room(tree.directories().len())
}

/// With their number in front.
fn ids_room(count: usize) -> usize {
    count.saturating_mul(ID).saturating_add(COUNT)
}
