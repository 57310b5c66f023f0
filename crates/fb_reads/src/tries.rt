//! `[:with [data ..] look]`: a look at the database as transactions would make it. Nothing of it stays.
ghost use Rattle.std.specs.Prelude.{OnOk, map};
ghost use Rattle.edn_form.specs.View.{forms_of};
ghost use Rattle.fb_db.specs.Seen.{window_of};
ghost use Rattle.tx_model.specs.Step as model;
ghost use Rattle.with_model.specs.Chain.{reaches};
ghost use Rattle.fb_with.specs.Outcomes.{report_of};
ghost use Rattle.read_refusals.specs.declared.reasons.Reason.TheVariants.{Filtered};
ghost use Rattle.fb_model.specs.History.{basis};
ghost use Rattle.read_model.specs.Given.{refusal};
ghost use Rattle.talk_model.specs.Looks.{refused};
ghost use Rattle.tx_refusals.specs.Reasons.{keyword_of};
ghost use Rattle.talk_model.specs.Replies.{refusal_reply, IsLineOf};
ghost use Rattle.talk_model.specs.Tried.{ShowsChain, IsTried};
ghost use Rattle.fb_commands.specs.View.{model_look};
ghost use Rattle.fb_reads.specs.Answers.{IsLineFor, sight_in};

use crate::lines::refuse;
use crate::reads::answer_look;
use edn_form::Edn;
use fb_commands::Look;
use fb_db::Db;
use fb_memory::Memory;
use fb_preds::{FilterTable, Picks, Selector};
use fb_replies::{write_refusal, write_with};
use fb_view::Snapshot;
use fb_with::{ChainStop, Chained, chain, is_whole};
use read_refusals::{Reason, Refusal};
use std::alloc::Global;
use tx_step::Guard;

/// Answers a look behind transactions that are tried.
pub fn answer_tried<T: FilterTable, G: Guard<Snapshot>>(
    alloc: Global,
    view: &Db<Picks<'_, T>>,
    datas: &[Edn],
    look: Look<'_>,
    guard: &G,
    line: &mut Vec<u8>,
) -> Result<(), Memory>
    ensures { let table = view.now.filter.table.now in OnOk result
        (IsLineFor
        (IsTried
        (sight_in (T.place_of table) (T.name_at table) (T.selects_at table)
        (G.bars guard.now) view.now.snapshot.entries (window_of view.now) view.now.filter.places.items)
        (forms_of datas.now) (model_look look.entry))
        line.new.items) }
{
    if !is_whole(view) {
        return refuse_filtered(line, view);
    }
    match chain(alloc, &view.snapshot, datas, guard) {
        Ok(done) => answer_behind(alloc, view, done, look, line),
        Err(ChainStop::Refused { refusal, at }) => refuse_transaction(line, refusal, at),
        Err(ChainStop::Memory) => Err(Memory),
    }
}

/// Answers a look at what the transactions come to.
fn answer_behind<T: FilterTable>(
    alloc: Global,
    view: &Db<Picks<'_, T>>,
    done: Chained,
    look: Look<'_>,
    line: &mut Vec<u8>,
) -> Result<(), Memory>
    ensures { (guard : model.Guard) → let table = view.now.filter.table.now in OnOk result
        (IsLineFor
        (ShowsChain
        (sight_in (T.place_of table) (T.name_at table) (T.selects_at table)
        guard view.now.snapshot.entries (window_of view.now) view.now.filter.places.items)
        (model_look look.entry)
        (reaches done.after.entries (map report_of done.reports.items)))
        line.new.items) }
{
    let Chained { reports, after } = done;
    let end = Db::of(after, Picks::none(alloc, view.filter.table));
    let mut shown = Vec::new(alloc);
    answer_look(alloc, &end, look, &mut shown)?;
    write_with(line, view.snapshot.basis(), &reports, &shown)
}

/// Nothing is tried on a value that is not the whole database.
fn refuse_filtered<S: Selector>(line: &mut Vec<u8>, view: &Db<S>) -> Result<(), Memory>
    ensures { OnOk result (IsLineOf
        (refused (basis view.now.snapshot.entries) (refusal Filtered 0)) line.new.items) }
{
    let refusal = Refusal {
        reason: Reason::Filtered,
        at: 0,
    };
    refuse(line, refusal, view.snapshot.basis())
}

/// The line of a transaction that is refused at this basis.
fn refuse_transaction(
    line: &mut Vec<u8>,
    refusal: tx_refusals::Refusal,
    basis: u32,
) -> Result<(), Memory>
    ensures { OnOk result (IsLineOf
        (refusal_reply (keyword_of refusal.reason) refusal.at basis) line.new.items) }
{
    write_refusal(line, refusal.reason.keyword(), refusal.at, basis)
}
