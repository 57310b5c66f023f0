//! A long list of members in parts, which longer and shorter versions of it share.
ghost use Rattle.std.specs.Prelude.{◌≡◌, ◌+◌, ◌<◌, ◌≤◌, ◌∷◌, ◌++◌, [], length, IfOk};
ghost use Rattle.std.specs.List.{All};
ghost use Rattle.live_runs.specs.Parts.{AreFull, IsJoined, IsPart, members_in, members_of};

use crate::members::{Member, Numbered};
use fb_chunks::{Share, Shared};
use fb_memory::Memory;
use std::alloc::Global;
use std::marker::Model;

/// No part has more members.
pub const MOST: usize = 511;

/// As many has a part that is cut off from a longer list, so that it can grow.
const EACH: usize = 340;

/// Some members, at most `MOST`.
#[derive(Drop)]
pub struct Part {
    pub first: Member,
    pub members: Shared<Vec<Member>>,
}

impl Part {
    pub(crate) fn share(&self) -> Result<Part, Memory>
        ensures { IfOk result (λ p. p ≡ self.now) }
    {
        Ok(Part {
            first: self.first,
            members: self.members.share()?,
        })
    }
}

/// A part is searched for by its first member.
impl Numbered for Part {
    ghost member_of = { λ p. p.first };

    fn member(&self) -> Member {
        self.first
    }
}

/// A list of members.
#[derive(Drop)]
pub struct Parts {
    parts: Vec<Part>,
    len: usize,
}

impl Model for Parts {
    ghost use Rattle.std.specs.Prelude.{List};
    ghost use Rattle.live_runs.specs.declared.members.Member.{Member};
    ghost use Rattle.live_runs.specs.Parts.{members_of, AreParts};

    ghost Value = { List Member };

    ghost view = { λ p. members_of p.parts.items };

    ghost invariant = { λ p. AreParts p.parts.items p.len };
}

impl Parts {
    /// Takes no memory.
    pub fn empty(alloc: Global) -> Parts
        ensures { result ≡ [] }
    {
        Parts {
            parts: Vec::new(alloc),
            len: 0,
        }
    }

    pub fn len(&self) -> usize
        ensures { result ≡ length self.now }
    {
        self.len
    }

    pub(crate) fn allocator(&self) -> Global {
        *self.parts.allocator()
    }

    pub(crate) fn parts(&self) -> &[Part]
        ensures members { members_of result.now ≡ self.now }
        ensures parts { All IsPart result.now }
        ensures full { AreFull result.now }
    {
        self.parts.as_slice()
    }

    /// The list with these members at its end.
    pub fn with_all(self, members: &[Member]) -> Result<Parts, Memory>
        ensures { IfOk result (λ p. p ≡ self ++ members.now) }
    {
        let mut parts = self;
        let mut left = members;
        while MOST < left.len() {
            let (piece, rest) = left.split_at(EACH);
            parts = parts.with_piece(piece)?;
            left = rest;
        }
        if left.is_empty() {
            return Ok(parts);
        }
        parts.with_piece(left)
    }

    fn with_piece(self, members: &[Member]) -> Result<Parts, Memory>
        requires some { 0 < length members.now }
        requires few { length members.now ≤ MOST }
        ensures { IfOk result (λ p. p ≡ self ++ members.now) }
    {
        let part = part_of(self.allocator(), members, &[])?;
        self.with(part)
    }

    /// The list with the members of a part at its end.
    pub(crate) fn with(self, part: Part) -> Result<Parts, Memory>
        requires { IsPart part }
        ensures { IfOk result (λ p. p ≡ self ++ members_in part) }
    {
        let Parts { parts, len } = self;
        // No memory holds as many.
        let len = len.checked_add(part.members.get().len()).ok_or(Memory)?;
        let parts = with_part(parts, part)?;
        Ok(Parts { parts, len })
    }
}

/// The parts with one more, which is joined to the last one where there is room.
fn with_part(parts: Vec<Part>, part: Part) -> Result<Vec<Part>, Memory>
    requires each { All IsPart parts.items }
    requires full { AreFull parts.items }
    requires part { IsPart part }
    ensures each { IfOk result (λ new. All IsPart new.items) }
    ensures full { IfOk result (λ new. AreFull new.items) }
    ensures members { IfOk result
        (λ new. members_of new.items ≡ members_of parts.items ++ members_in part) }
{
    let mut parts = parts;
    match parts.pop() {
        None => pushed(parts, part),
        Some(last) => with_both(parts, last, part),
    }
}

fn with_both(parts: Vec<Part>, last: Part, part: Part) -> Result<Vec<Part>, Memory>
    requires each { All IsPart parts.items }
    requires full { AreFull (parts.items ++ last ∷ []) }
    requires last { IsPart last }
    requires part { IsPart part }
    ensures each { IfOk result (λ new. All IsPart new.items) }
    ensures full { IfOk result (λ new. AreFull new.items) }
    ensures members { IfOk result (λ new. members_of new.items
        ≡ members_of (parts.items ++ last ∷ []) ++ members_in part) }
{
    match joined(*parts.allocator(), &last, &part)? {
        Some(both) => pushed(parts, both),
        None => pushed(pushed(parts, last)?, part),
    }
}

fn pushed(parts: Vec<Part>, part: Part) -> Result<Vec<Part>, Memory>
    ensures { IfOk result (λ new. new.items ≡ parts.items ++ part ∷ []) }
{
    let mut parts = parts;
    parts.push(part)?;
    Ok(parts)
}

/// Two parts as one, if there is room.
fn joined(alloc: Global, first: &Part, second: &Part) -> Result<Option<Part>, Memory>
    requires first { IsPart first.now }
    requires second { IsPart second.now }
    ensures { IfOk result (λ both. IsJoined first.now second.now both) }
{
    let (front, back) = (first.members.get(), second.members.get());
    if front.len() + back.len() <= MOST {
        Ok(Some(part_of(alloc, front, back)?))
    } else {
        Ok(None)
    }
}

/// A part of members that lie in two slices.
fn part_of(alloc: Global, front: &[Member], back: &[Member]) -> Result<Part, Memory>
    requires some { 0 < length front.now }
    requires few { length front.now + length back.now ≤ MOST }
    ensures part { IfOk result (λ p. IsPart p) }
    ensures members { IfOk result (λ p. members_in p ≡ front.now ++ back.now) }
{
    let first = front[0];
    let mut members = Vec::with_capacity(alloc, front.len() + back.len())?;
    members.extend_from_slice(front)?;
    members.extend_from_slice(back)?;
    Ok(Part {
        first,
        members: Shared::new(alloc, members)?,
    })
}
