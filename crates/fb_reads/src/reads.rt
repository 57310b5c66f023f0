//! Each read goes to what answers it.
ghost use Rattle.std.specs.Prelude.{◌≡◌, ℕ, Bool, OnOk, OnErr, map};
ghost use Rattle.std.specs.Option.{option_map};
ghost use Rattle.fb_db.specs.Seen.{window_of};
ghost use Rattle.tx_model.specs.Step as model;
ghost use Rattle.talk_model.specs.Looks.{IsLook};
ghost use Rattle.talk_model.specs.Reads.{IsReply, turn_reply, turned, behind};
ghost use Rattle.talk_model.specs.Replies.{IsLineOf};
ghost use Rattle.fb_commands.specs.View.{model_read, model_look, model_turn as asked_turn};
ghost use Rattle.fb_reads.specs.Answers.{IsLineFor, sight_in, standing_at};

use crate::lines::not_a_command;
use crate::pulls::answer_pull;
use crate::scans::{answer_datoms, answer_index_range, answer_seek, answer_tx_range};
use crate::tries::answer_tried;
use crate::tuples::answer_tuples;
use crate::views::{add_filter, see_as_of, see_history, see_since, see_whole};
use fb_commands::{Look, Read, Turn};
use fb_db::Db;
use fb_memory::Memory;
use fb_preds::{FilterTable, Picks};
use fb_replies::write_done;
use fb_view::Snapshot;
use std::alloc::Global;
use tx_step::Guard;

/// Answers a read, or what is not a command, of what its session has seen: its line takes the place of what the buffer held, and
/// the view changes as the read says. Where memory runs out the view stays, and nothing is promised of the buffer.
pub fn answer_read<T: FilterTable, G: Guard<Snapshot>>(
    alloc: Global,
    view: &mut Db<Picks<'_, T>>,
    asked: Option<Read<'_>>,
    guard: &G,
    line: &mut Vec<u8>,
) -> Result<(), Memory>
    ensures line { let table = view.old.filter.table.now in OnOk result
        (IsLineFor
        (IsReply
        (sight_in (T.place_of table) (T.name_at table) (T.selects_at table)
        (G.bars guard.now) view.old.snapshot.entries (window_of view.old) view.old.filter.places.items)
        (option_map (λ read. model_read read) asked.entry))
        line.new.items) }
    ensures stands { let table = view.old.filter.table.now in OnOk result
        ((place : ℕ) (notified : Bool)
        → standing_at place notified (window_of view.new)
        (map (T.name_at table) view.new.filter.places.items)
        ≡ behind
        (sight_in (T.place_of table) (T.name_at table) (T.selects_at table)
        (G.bars guard.now) view.old.snapshot.entries (window_of view.old) view.old.filter.places.items)
        (standing_at place notified (window_of view.old)
        (map (T.name_at table) view.old.filter.places.items))
        (option_map (λ read. model_read read) asked.entry)) }
    ensures unchanged { OnErr result ((window_of view.new ≡ window_of view.old)
        × (view.new.filter.places.items ≡ view.old.filter.places.items)) }
    ensures snapshot { view.new.snapshot ≡ view.old.snapshot }
    ensures table { view.new.filter.table ≡ view.old.filter.table }
{
    let basis = view.snapshot.basis();
    let Some(read) = asked else {
        return not_a_command(line, basis);
    };
    match read {
        Read::Look(look) => answer_look(alloc, view, look, line),
        Read::Tried(datas, look) => answer_tried(alloc, view, datas, look, guard, line),
        Read::Tuples(names, start, end) => answer_tuples(alloc, view, names, start, end, line),
        Read::Turn(turn) => turn_view(view, turn, line),
        Read::RequestIndex => write_done(line, basis),
    }
}

/// Answers a look.
pub fn answer_look<T: FilterTable>(
    alloc: Global,
    view: &Db<Picks<'_, T>>,
    look: Look<'_>,
    line: &mut Vec<u8>,
) -> Result<(), Memory>
    ensures { (guard : model.Guard) → let table = view.now.filter.table.now in OnOk result
        (IsLineFor
        (IsLook
        (sight_in (T.place_of table) (T.name_at table) (T.selects_at table)
        guard view.now.snapshot.entries (window_of view.now) view.now.filter.places.items)
        (model_look look.entry))
        line.new.items) }
{
    match look {
        Look::Datoms(order, components) => answer_datoms(alloc, view, order, components, line),
        Look::Seek(order, components) => answer_seek(alloc, view, order, components, line),
        Look::IndexRange(a, start, end) => answer_index_range(alloc, view, a, start, end, line),
        Look::TxRange(start, end) => answer_tx_range(alloc, &view.snapshot, start, end, line),
        Look::Pull(pattern, entity) => answer_pull(alloc, view, pattern, entity, line),
    }
}

/// Turns the view, and says that it is done.
fn turn_view<T: FilterTable>(
    view: &mut Db<Picks<'_, T>>,
    turn: Turn<'_>,
    line: &mut Vec<u8>,
) -> Result<(), Memory>
    ensures line { (guard : model.Guard) → let table = view.old.filter.table.now in OnOk result
        (IsLineOf
        (turn_reply
        (sight_in (T.place_of table) (T.name_at table) (T.selects_at table)
        guard view.old.snapshot.entries (window_of view.old) view.old.filter.places.items)
        (asked_turn turn.entry))
        line.new.items) }
    ensures stands { (guard : model.Guard) → let table = view.old.filter.table.now in OnOk result
        ((place : ℕ) (notified : Bool)
        → standing_at place notified (window_of view.new)
        (map (T.name_at table) view.new.filter.places.items)
        ≡ turned
        (sight_in (T.place_of table) (T.name_at table) (T.selects_at table)
        guard view.old.snapshot.entries (window_of view.old) view.old.filter.places.items)
        (standing_at place notified (window_of view.old)
        (map (T.name_at table) view.old.filter.places.items))
        (asked_turn turn.entry)) }
    ensures unchanged { OnErr result ((window_of view.new ≡ window_of view.old)
        × (view.new.filter.places.items ≡ view.old.filter.places.items)) }
    ensures snapshot { view.new.snapshot ≡ view.old.snapshot }
    ensures table { view.new.filter.table ≡ view.old.filter.table }
{
    match turn {
        Turn::AsOf(point) => see_as_of(view, point, line),
        Turn::Since(point) => see_since(view, point, line),
        Turn::History => see_history(view, line),
        Turn::Filter(name) => add_filter(view, name, line),
        Turn::Unfilter => see_whole(view, line),
    }
}
