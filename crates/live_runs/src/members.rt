//! What runs are made of: numbers of datoms in a table, each with the first bits of its datom's key.
ghost use Rattle.std.specs.Prelude.{◌≡◌, ◌<◌, ◌≤◌, true, false, drop, length};
ghost use Rattle.std.specs.List.{All, slice_get};
ghost use Rattle.fb_values.specs.Orders.{key_cmp};
ghost use Rattle.fb_values.specs.Rising.{IsRising};
ghost use Rattle.fb_search.specs.Places.{is_below, place_of, probe_of};
ghost use Rattle.live_runs.specs.Changes.{is_met};
ghost use Rattle.live_runs.specs.Members.{IsMember, datom_of, held_by, changing};

use crate::table::Table;
use fb_prefix::{Prefix, prefix_of};
use fb_values::{Order, cmp_in};
use std::cmp::Ordering;

/// A datom of a table. Its prefix tells most comparisons.
#[derive(Clone, Copy, Debug)]
pub struct Member {
    pub prefix: Prefix,
    pub number: u32,
}

/// A datom that comes into a list, or one that leaves it.
#[derive(Clone, Copy, Debug)]
pub struct Change {
    pub prefix: Prefix,
    pub number: u32,
    pub removes: bool,
}

/// What has a member.
pub trait Numbered {
    ghost use Rattle.live_runs.specs.declared.members.Member.{Member};

    ghost member_of: { Self → Member };

    fn member(&self) -> Member
        ensures { result ≡ member_of self.now };
}

impl Numbered for Member {
    ghost member_of = { λ m. m };

    fn member(&self) -> Member {
        *self
    }
}

impl Numbered for Change {
    ghost use Rattle.live_runs.specs.Members.{changing};

    ghost member_of = { changing };

    fn member(&self) -> Member {
        Member {
            prefix: self.prefix,
            number: self.number,
        }
    }
}

impl Member {
    pub fn of(table: &Table, order: Order, number: u32) -> Member
        requires { number < length table.now }
        ensures member { IsMember order table.now result }
        ensures number { result.number ≡ number }
    {
        Member {
            prefix: prefix_of(order, table.at(number)),
            number,
        }
    }

    pub fn adding(&self) -> Change
        ensures { result ≡ record { prefix = self.now.prefix; number = self.now.number; removes = false } }
    {
        Change {
            prefix: self.prefix,
            number: self.number,
            removes: false,
        }
    }

    pub fn removing(&self) -> Change
        ensures { result ≡ record { prefix = self.now.prefix; number = self.now.number; removes = true } }
    {
        Change {
            prefix: self.prefix,
            number: self.number,
            removes: true,
        }
    }
}

/// How two members' datoms compare in the order.
pub fn cmp_members(table: &Table, order: Order, x: &Member, y: &Member) -> Ordering
    requires x { IsMember order table.now x.now }
    requires y { IsMember order table.now y.now }
    ensures { result
        ≡ key_cmp order (datom_of table.now x.now.number) (datom_of table.now y.now.number) }
{
    if x.prefix.is_below(&y.prefix) {
        Ordering::Less
    } else if y.prefix.is_below(&x.prefix) {
        Ordering::Greater
    } else {
        cmp_datoms(table, order, x.number, y.number)
    }
}

/// Apart, so that what compares prefixes is small enough to stand within the loops that search.
#[inline(never)]
fn cmp_datoms(table: &Table, order: Order, x: u32, y: u32) -> Ordering
    requires x { x < length table.now }
    requires y { y < length table.now }
    ensures { result ≡ key_cmp order (datom_of table.now x) (datom_of table.now y) }
{
    cmp_in(order, table.at(x), table.at(y))
}

/// Whether the first member's datom follows that of the second.
fn stands_after(table: &Table, order: Order, x: &Member, y: &Member) -> bool
    requires x { IsMember order table.now x.now }
    requires y { IsMember order table.now y.now }
    ensures { result ≡ is_below (probe_of order (datom_of table.now x.now.number))
        (datom_of table.now y.now.number) }
{
    cmp_members(table, order, x, y) == Ordering::Greater
}

/// The place of a member among others, whether it is there or not: how many stand before it.
pub fn place_among<N: Numbered>(table: &Table, order: Order, others: &[N], m: &Member) -> usize
    requires others { All (λ n. IsMember order table.now (N.member_of n)) others.now }
    requires rising { IsRising order (held_by N.member_of table.now others.now) }
    requires member { IsMember order table.now m.now }
    ensures value { result ≡ place_of (probe_of order (datom_of table.now m.now.number))
        (held_by N.member_of table.now others.now) }
    ensures within { result ≤ length others.now }
{
    let mut from = 0;
    let mut to = others.len();
    while from < to {
        let middle = from + (to - from) / 2;
        if stands_after(table, order, m, &others[middle].member()) {
            from = middle + 1;
        } else {
            to = middle;
        }
    }
    from
}

/// Whether the change at a place is of a member's datom.
pub fn is_met(table: &Table, order: Order, changes: &[Change], place: usize, m: &Member) -> bool
    requires changes { All (λ c. IsMember order table.now (changing c)) changes.now }
    requires member { IsMember order table.now m.now }
    ensures { result ≡ is_met order table.now m.now.number (slice_get changes.now place) }
{
    match changes.get(place) {
        None => false,
        Some(change) => cmp_members(table, order, &change.member(), m) == Ordering::Equal,
    }
}

/// All but the first.
pub fn without_first<T>(xs: &[T]) -> &[T]
    ensures { result.now ≡ drop 1 xs.now }
{
    match xs.split_first() {
        Some((_, rest)) => rest,
        None => xs,
    }
}
