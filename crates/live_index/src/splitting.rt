//! The two halves of an order's list at once, from datoms of a table in any order.
ghost use Rattle.std.specs.Prelude.{◌≡◌, ◌+◌, ◌<◌, ◌≤◌, ◌++◌, ◌∷◌, [], IsPermutation, filter, length, if◌then◌else◌, slice_index_or, IfOk, List, Some};
ghost use Rattle.std.specs.List.{slice_get};
ghost use Rattle.std.specs.List.Sorted.{IsSortedBy};
ghost use Rattle.std.specs.Ordering.{is_lt};
ghost use Rattle.fb_values.specs.declared.facts.Datom.{Datom as ModelDatom};
ghost use Rattle.fb_values.specs.declared.indexes.Order.{Order as ModelOrder};
ghost use Rattle.fb_values.specs.Orders.{key_cmp};
ghost use Rattle.fb_model.specs.Rising.{in_order as model_in_order};
ghost use Rattle.live_runs.specs.Members.{nothing};
ghost use Rattle.live_index.specs.Growth.{HasNoTwins, is_held, is_twin};
ghost use Rattle.live_index.specs.Lists.{IsLastOf};
ghost use Rattle.live_index.specs.Ranks.{AreInOrder, AreRanked, IsRanked, IsSpan, datoms_of, span_of};
ghost use Rattle.live_index.specs.Splits.{AreParted, AreSplit, once, stands_at};

use crate::gathering::Span;
use crate::ranked::Ranked;
use crate::retracting::Pair;
use fb_covers::Covers;
use fb_memory::Memory;
use fb_prefix::laws::a_lesser_prefix_is_of_a_lesser_datom;
use fb_values::{Order, cmp_in};
use live_runs::{Member, Runs, Table, is_mate};
use std::alloc::Global;
use std::cmp::Ordering;

/// The halves of an order's list, and the number of the last datom of both.
#[derive(Drop)]
pub struct Split {
    pub pair: Pair,
    pub last: Option<u32>,
}

/// The halves of the list that an order has of its own datoms and of those that come.
pub fn halves_of(
    alloc: Global,
    table: &Table,
    order: Order,
    own: Span,
    coming: Span,
    covers: &Covers,
) -> Result<Split, Memory>
    requires single { HasNoTwins table.now }
    requires own { IsSpan table.now own }
    requires coming { IsSpan table.now coming }
    ensures { IfOk result (λ s. AreSplit order table.now
        (model_in_order order (filter (is_held covers.now order) (span_of table.now own)
        ++ filter (is_held covers.now order) (span_of table.now coming))) s) }
{
    let all = with_span(Vec::new(alloc), table, order, own, covers)?;
    let all = with_span(all, table, order, coming, covers)?;
    let rising = in_order(alloc, order, all)?;
    runs_of(alloc, &rising)
}

/// With those of some datoms of the table whose attribute the order's index holds.
fn with_span<'a>(
    all: Vec<Ranked<'a>>,
    table: &'a Table,
    order: Order,
    span: Span,
    covers: &Covers,
) -> Result<Vec<Ranked<'a>>, Memory>
    requires span { IsSpan table.now span }
    requires ranked { AreRanked order table.now all.items }
    ensures ranked { IfOk result (λ new. AreRanked order table.now new.items) }
    ensures datoms { IfOk result (λ new. datoms_of new.items
        ≡ datoms_of all.entry.items ++ filter (is_held covers.now order) (span_of table.now span)) }
{
    let mut all = all;
    for number in span.from..span.to {
        let ranked = Ranked::of(table, order, number);
        all = with_one_if(all, ranked, covers.holds(order, ranked.datom.a))?;
    }
    Ok(all)
}

impl<'a> Ranked<'a> {
    fn of(table: &'a Table, order: Order, number: u32) -> Ranked<'a>
        requires { number < length table.now }
        ensures ranked { IsRanked order table.now result }
        ensures number { result.member.number ≡ number }
    {
        let member = Member::of(table, order, number);
        Ranked {
            member,
            order,
            datom: table.at(number),
        }
    }
}

fn with_one_if<'a>(
    mut all: Vec<Ranked<'a>>,
    ranked: Ranked<'a>,
    is_one: bool,
) -> Result<Vec<Ranked<'a>>, Memory>
    ensures { IfOk result (λ new. new.items
        ≡ if is_one then all.entry.items ++ ranked.entry ∷ [] else all.entry.items) }
{
    if is_one {
        all.push(ranked)?;
    }
    Ok(all)
}

/// The datoms in the order, each of them once.
fn in_order<'a>(
    alloc: Global,
    order: Order,
    all: Vec<Ranked<'a>>,
) -> Result<Vec<Ranked<'a>>, Memory>
    ensures ranked { IfOk result (λ new. (table : List ModelDatom)
        → AreRanked order table all.entry.items → AreRanked order table new.items) }
    ensures datoms { IfOk result (λ new. (table : List ModelDatom)
        → HasNoTwins table → AreRanked order table all.entry.items
        → datoms_of new.items ≡ model_in_order order (datoms_of all.entry.items)) }
{
    let sorted = sorted(order, all);
    each_once(alloc, order, &sorted)
}

fn sorted<'a>(order: Order, all: Vec<Ranked<'a>>) -> Vec<Ranked<'a>>
    ensures sorted { IsSortedBy (λ x y. is_lt (key_cmp order x.datom.now y.datom.now)) result.items }
    ensures same { IsPermutation all.entry.items result.items }
{
    let mut sorted = all;
    sorted.sort_unstable_by(|x, y| compared(order, x, y));
    sorted
}

fn compared(order: Order, x: &Ranked, y: &Ranked) -> Ordering
    ensures { result ≡ key_cmp order x.now.datom.now y.now.datom.now }
{
    if x.order == order && y.order == order {
        compared_by_prefix(order, x, y)
    } else {
        cmp_in(order, x.datom, y.datom)
    }
}

fn compared_by_prefix(order: Order, x: &Ranked, y: &Ranked) -> Ordering
    requires x { x.now.order ≡ order }
    requires y { y.now.order ≡ order }
    ensures { result ≡ key_cmp order x.now.datom.now y.now.datom.now }
{
    a_lesser_prefix_is_of_a_lesser_datom();
    if x.member.prefix.is_below(&y.member.prefix) {
        Ordering::Less
    } else if y.member.prefix.is_below(&x.member.prefix) {
        Ordering::Greater
    } else {
        cmp_in(order, x.datom, y.datom)
    }
}

/// Without the datoms that the next one repeats.
fn each_once<'a>(
    alloc: Global,
    order: Order,
    sorted: &[Ranked<'a>],
) -> Result<Vec<Ranked<'a>>, Memory>
    ensures ranked { IfOk result (λ all. (table : List ModelDatom)
        → AreRanked order table sorted.now → AreRanked order table all.items) }
    ensures datoms { IfOk result (λ all. datoms_of all.items ≡ once order (datoms_of sorted.now)) }
{
    let mut all = Vec::with_capacity(alloc, sorted.len())?;
    for place in 0..sorted.len() {
        let is_last = !is_repeated(order, sorted, place);
        all = with_one_if(all, at(sorted, place), is_last)?;
    }
    Ok(all)
}

fn at<'a>(all: &[Ranked<'a>], place: usize) -> Ranked<'a>
    requires { place < length all.now }
    ensures { slice_get all.now place ≡ Some result }
{
    all[place]
}

/// Whether the next datom has the key of the one at the place.
fn is_repeated(order: Order, sorted: &[Ranked], place: usize) -> bool
    requires { place < length sorted.now }
    ensures { result ≡ is_twin order (slice_index_or (datoms_of sorted.now) place nothing)
        (slice_get (datoms_of sorted.now) (place + 1)) }
{
    if place + 1 < sorted.len() {
        compared(order, &sorted[place + 1], &sorted[place]) == Ordering::Equal
    } else {
        false
    }
}

/// The members of what holds, and of what does not.
#[derive(Drop)]
pub struct Parted {
    pub holding: Vec<Member>,
    pub past: Vec<Member>,
}

fn runs_of(alloc: Global, rising: &[Ranked]) -> Result<Split, Memory>
    ensures { IfOk result (λ s. (order : ModelOrder) (table : List ModelDatom)
        → HasNoTwins table → AreInOrder order table rising.now
        → AreSplit order table (datoms_of rising.now) s) }
{
    let parted = part(alloc, rising)?;
    let pair = Pair {
        holding: Runs::of_rising(alloc, &parted.holding)?,
        past: Runs::of_rising(alloc, &parted.past)?,
    };
    Ok(Split {
        pair,
        last: last_number(rising),
    })
}

/// The number of the last datom.
fn last_number(rising: &[Ranked]) -> Option<u32>
    ensures { (order : ModelOrder) (table : List ModelDatom) → AreRanked order table rising.now
        → IsLastOf table (datoms_of rising.now) result }
{
    let count = rising.len();
    if count == 0 {
        return None;
    }
    let last = at(rising, count - 1);
    Some(last.member.number)
}

fn part(alloc: Global, rising: &[Ranked]) -> Result<Parted, Memory>
    ensures { IfOk result (λ p. (order : ModelOrder) (table : List ModelDatom)
        → AreInOrder order table rising.now → AreParted order table (datoms_of rising.now) p) }
{
    let mut holding = Vec::with_capacity(alloc, rising.len())?;
    let mut past = Vec::new(alloc);
    for place in 0..rising.len() {
        let stands = stands(rising, place);
        let ranked = at(rising, place);
        holding = with_member_if(holding, ranked.member, stands)?;
        let falls = !stands;
        past = with_member_if(past, ranked.member, falls)?;
    }
    Ok(Parted { holding, past })
}

fn with_member_if(mut all: Vec<Member>, member: Member, is_one: bool) -> Result<Vec<Member>, Memory>
    ensures { IfOk result (λ new. new.items
        ≡ if is_one then all.items ++ member ∷ [] else all.items) }
{
    if is_one {
        all.push(member)?;
    }
    Ok(all)
}

/// Whether the datom at the place is an addition, and the next one is of another triple.
fn stands(rising: &[Ranked], place: usize) -> bool
    requires { place < length rising.now }
    ensures { result ≡ stands_at (slice_index_or (datoms_of rising.now) place nothing)
        (slice_get (datoms_of rising.now) (place + 1)) }
{
    let datom = rising[place].datom;
    if !datom.added {
        return false;
    }
    if place + 1 < rising.len() {
        !is_mate(datom, rising[place + 1].datom)
    } else {
        true
    }
}
