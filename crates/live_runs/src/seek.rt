//! Where a probe leads in runs.
ghost use Rattle.std.specs.Prelude.{◌≡◌, ℕ, ◌+◌, ◌*◌, ◌^◌, ◌<◌, ◌≤◌, length};
ghost use Rattle.std.specs.List.{All};
ghost use Rattle.fb_values.specs.Rising.{IsRising};
ghost use Rattle.fb_search.specs.Places.{is_below, place_of};
ghost use Rattle.live_runs.specs.Bounds.{blocks_at_least};
ghost use Rattle.live_runs.specs.Changed.{from_probe};
ghost use Rattle.live_runs.specs.Changes.{AreMembers};
ghost use Rattle.live_runs.specs.Members.{IsMember, datom_of, held_by};
ghost use Rattle.live_runs.specs.Parts.{AreFull, IsPart, members_of};
ghost use Rattle.live_runs.specs.Runs.{AreRuns, runs_datoms};
ghost use Rattle.live_runs.specs.Seeks.{IsCut};
ghost use Rattle.live_runs.specs.Walks.{IsLeft, left_of, members_left};

use crate::aim::Aim;
use crate::members::{Member, Numbered};
use crate::parts::Part;
use crate::runs::Runs;
use crate::table::Table;
use crate::walk::RunsWalk;
use fb_search::Steps;
use fb_values::Probe;
use std::sync::ledger::Ledger;

/// What is left of a list in parts: of one part, and all parts after it.
#[derive(Drop)]
pub struct Rest<'a> {
    pub chunk: &'a [Member],
    pub later: &'a [Part],
}

impl Runs {
    /// The walk from the first datom on that is not below the probe.
    pub fn seek<'a, L: Ledger>(
        &'a self,
        table: &'a Table,
        probe: &Probe,
        steps: &mut Steps<L>,
    ) -> RunsWalk<'a>
        requires { AreRuns probe.now.order table.now self.now }
        ensures left { IsLeft result }
        ensures datoms { left_of result
            ≡ from_probe probe.now (runs_datoms probe.now.order table.now self.now) }
        // At most twice the binary digits of the number of blocks, and 18 more, however few the blocks are.
        ensures cost { (digits : ℕ)
            → blocks_at_least (length (runs_datoms probe.now.order table.now self.now)) < 2 ^ digits
            → steps.new ≤ steps.old + 2 * digits + 18 }
    {
        self.walk_from(table, &Aim::of_probe(probe), steps)
    }

    /// The walk from the first datom on that is not below what is looked for.
    pub(crate) fn walk_from<'a, L: Ledger>(
        &'a self,
        table: &'a Table,
        aim: &Aim<'_>,
        steps: &mut Steps<L>,
    ) -> RunsWalk<'a>
        requires { AreRuns aim.now.order table.now self.now }
        ensures left { IsLeft result }
        ensures table { result.table.now ≡ table.now }
        ensures datoms { left_of result
            ≡ from_probe aim.now (runs_datoms aim.now.order table.now self.now) }
        ensures cost { (digits : ℕ)
            → blocks_at_least (length (runs_datoms aim.now.order table.now self.now)) < 2 ^ digits
            → steps.new ≤ steps.old + 2 * digits + 18 }
    {
        let (newest, middle) = (self.newest(), self.middle());
        let first = lower_bound(table, aim, newest, steps);
        let second = lower_bound(table, aim, middle, steps);
        let rest = rest_from(table, aim, self.parts(), steps);
        RunsWalk::of(
            table,
            aim.order(),
            &newest[first..],
            &middle[second..],
            rest.chunk,
            rest.later,
        )
    }
}

/// What of a list in parts is not below what is looked for.
fn rest_from<'a, L: Ledger>(
    table: &Table,
    aim: &Aim<'_>,
    parts: &'a [Part],
    steps: &mut Steps<L>,
) -> Rest<'a>
    requires each { All IsPart parts.now }
    requires full { AreFull parts.now }
    requires members { AreMembers aim.now.order table.now (members_of parts.now) }
    ensures cut { IsCut aim.now table.now (members_of parts.now)
        (members_left result.chunk.now result.later.now) }
    ensures each { All IsPart result.later.now }
    ensures cost { (digits : ℕ) → length (members_of parts.now) < 2 ^ (digits + 8)
        → steps.new ≤ steps.old + digits + 9 }
{
    let Some((_, others)) = parts.split_first() else {
        return Rest {
            chunk: &[],
            later: &[],
        };
    };
    // The first part's own first member need not be asked.
    let part = lower_bound(table, aim, others, steps);
    let members = parts[part].members.get();
    let place = lower_bound(table, aim, members, steps);
    Rest {
        chunk: &members[place..],
        later: &others[part..],
    }
}

/// The first place that is not below what is looked for, or the length.
fn lower_bound<N: Numbered, L: Ledger>(
    table: &Table,
    aim: &Aim<'_>,
    others: &[N],
    steps: &mut Steps<L>,
) -> usize
    requires others { All (λ n. IsMember aim.now.order table.now (N.member_of n)) others.now }
    requires rising { IsRising aim.now.order (held_by N.member_of table.now others.now) }
    ensures value { result ≡ place_of aim.now (held_by N.member_of table.now others.now) }
    ensures within { result ≤ length others.now }
    // At most as many comparisons as the length has binary digits.
    ensures cost { (digits : ℕ) → length others.now < 2 ^ digits → steps.new ≤ steps.old + digits }
{
    let mut from = 0;
    let mut to = others.len();
    while from < to {
        let middle = from + (to - from) / 2;
        if is_above(table, aim, &others[middle].member(), steps) {
            from = middle + 1;
        } else {
            to = middle;
        }
    }
    from
}

/// Whether a member's datom is below what is looked for. It counts, whether the prefix tells it or the datom.
fn is_above<L: Ledger>(table: &Table, aim: &Aim<'_>, m: &Member, steps: &mut Steps<L>) -> bool
    requires { IsMember aim.now.order table.now m.now }
    ensures value { result ≡ is_below aim.now (datom_of table.now m.now.number) }
    ensures cost { steps.new ≡ steps.old + 1 }
{
    steps.tick();
    aim.is_above(table, m)
}
