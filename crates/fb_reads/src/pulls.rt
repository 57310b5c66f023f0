//! `[:pull pattern entity]`: the tree that a pattern gives of an entity in the view.
ghost use Rattle.std.specs.Prelude.{◌≡◌, OnOk, Ok, Some};
ghost use Rattle.edn_form.specs.View.{form_of};
ghost use Rattle.fb_model.specs.History.{basis};
ghost use Rattle.fb_db.specs.Seen.{window_of};
ghost use Rattle.read_model.specs.Given.{refusal};
ghost use Rattle.pull_model.specs.Reading as model;
ghost use Rattle.pull_pattern.specs.View.{model_pattern};
ghost use Rattle.talk_model.specs.Looks.{refused, HasTree, HasPull};
ghost use Rattle.talk_model.specs.Replies.{IsLineOf};
ghost use Rattle.fb_reads.specs.Answers.{IsLineFor};

use crate::lines::refuse_at;
use edn_form::Edn;
use fb_db::Db;
use fb_memory::Memory;
use fb_names::entid;
use fb_preds::Selector;
use fb_pull::{PullStop, pull};
use fb_replies::write_pull;
use pull_pattern::{Pattern, PatternStop, read_pattern};
use read_refusals::Reason;
use std::alloc::Global;

/// Answers a pull.
pub fn answer_pull<S: Selector>(
    alloc: Global,
    view: &Db<S>,
    pattern: &Edn,
    entity: &Edn,
    line: &mut Vec<u8>,
) -> Result<(), Memory>
    ensures { OnOk result (IsLineFor
        (HasPull view.now.snapshot.entries (window_of view.now) (S.selects view.now.filter)
        (model.pattern_in (form_of pattern.now)) (form_of entity.now))
        line.new.items) }
{
    match read_pattern(alloc, pattern) {
        Ok(pattern) => answer_by(alloc, view, &pattern, entity, line),
        Err(PatternStop::BadPattern { item }) => refuse_at(line, view, Reason::BadPattern, item),
        Err(PatternStop::Memory) => Err(Memory),
    }
}

/// Answers a pull by a pattern that was read.
fn answer_by<S: Selector>(
    alloc: Global,
    view: &Db<S>,
    pattern: &Pattern,
    entity: &Edn,
    line: &mut Vec<u8>,
) -> Result<(), Memory>
    ensures { OnOk result (IsLineFor
        (HasPull view.now.snapshot.entries (window_of view.now) (S.selects view.now.filter)
        (Ok (model_pattern pattern.now)) (form_of entity.now))
        line.new.items) }
{
    match entid(view, entity)? {
        Some(e) => answer_of(alloc, view, pattern, e, line),
        None => refuse_at(line, view, Reason::NotAnEntity, 2),
    }
}

/// Answers a pull of an entity that was found.
fn answer_of<S: Selector>(
    alloc: Global,
    view: &Db<S>,
    pattern: &Pattern,
    e: u64,
    line: &mut Vec<u8>,
) -> Result<(), Memory>
    ensures { OnOk result (IsLineFor
        (HasTree view.now.snapshot.entries (window_of view.now) (S.selects view.now.filter)
        (model_pattern pattern.now) (Some e))
        line.new.items) }
{
    match pull(alloc, view, pattern, e) {
        Ok(tree) => write_pull(line, view.snapshot.basis(), &tree),
        Err(PullStop::History) => refuse_at(line, view, Reason::History, 0),
        Err(PullStop::TooLarge) => refuse_at(line, view, Reason::TooLarge, 0),
        Err(PullStop::Memory) => Err(Memory),
    }
}
