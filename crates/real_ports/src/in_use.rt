//! The files that a host has handed out. One that is a sink is nothing else, also once it is closed, whatever its names.
ghost use Rattle.std.specs.Prelude.{◌≡◌, [], IsFalse, OnOk};
ghost use Rattle.real_ports.specs.Nodes.{is_among, with_node};

use crate::opened::Node;
use arrayvec::ArrayVec;
use std::io;
use std::io::ErrorKind;

/// The most sinks that a host hands out, and the most files of other kinds. A run has 16 sinks, 16 sources and two disks.
const MOST: usize = 64;

#[derive(Drop)]
pub(crate) struct InUse {
    sinks: ArrayVec<Node, MOST>,
    others: ArrayVec<Node, MOST>,
}

impl InUse {
    pub(crate) fn new() -> InUse
        ensures { (result.sinks.items ≡ []) × (result.others.items ≡ []) }
    {
        InUse {
            sinks: ArrayVec::new(),
            others: ArrayVec::new(),
        }
    }

    /// Notes a source or a disk, whose file is none of the sinks'.
    pub(crate) fn add(&mut self, node: Node) -> io::Result<()>
        ensures apart { OnOk result (IsFalse (is_among self.old.sinks.items node)) }
        ensures noted { OnOk result
            (self.new.others.items ≡ with_node self.old.others.items node) }
        ensures sinks { self.new.sinks ≡ self.old.sinks }
    {
        if self.sinks.as_slice().contains(&node) {
            return Err(io::Error::from(ErrorKind::ResourceBusy));
        }
        note(&mut self.others, node)
    }

    /// Notes a sink, whose file nothing else has.
    pub(crate) fn add_sink(&mut self, node: Node) -> io::Result<()>
        ensures apart { OnOk result (IsFalse (is_among self.old.sinks.items node)
            × IsFalse (is_among self.old.others.items node)) }
        ensures noted { OnOk result
            (self.new.sinks.items ≡ with_node self.old.sinks.items node) }
        ensures others { self.new.others ≡ self.old.others }
    {
        if self.sinks.as_slice().contains(&node) || self.others.as_slice().contains(&node) {
            return Err(io::Error::from(ErrorKind::ResourceBusy));
        }
        note(&mut self.sinks, node)
    }
}

/// Adds a file to a list that lacks it, where there is room.
fn note(nodes: &mut ArrayVec<Node, MOST>, node: Node) -> io::Result<()>
    ensures { OnOk result (nodes.new.items ≡ with_node nodes.old.items node) }
{
    if nodes.as_slice().contains(&node) {
        return Ok(());
    }
    match nodes.try_push(node) {
        Ok(()) => Ok(()),
        Err(_) => Err(io::Error::from(ErrorKind::StorageFull)),
    }
}
