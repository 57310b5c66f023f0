//! A pull.
ghost use Rattle.std.specs.Prelude.{◌≡◌, unwrap_or, option_map};
ghost use Rattle.edn_model.specs.Form.{nil};
ghost use Rattle.edn_form.specs.View as view;
ghost use Rattle.pull_model.specs.Found.{Db as Facts, IsDb};
ghost use Rattle.pull_model.specs.Pull.{pulled};
ghost use Rattle.pull_pattern.specs.View.{model_pattern};
ghost use Rattle.fb_db.specs.Seen.{window_of};
ghost use Rattle.fb_pull.specs.Pulls.{Answers};

use crate::made::{Limits, Pulled};
use crate::stops::{PullStop, Stop};
use crate::trees::{Walk, tree};
use edn_form::Edn;
use fb_db::Db;
use fb_preds::Selector;
use pull_pattern::Pattern;
use std::alloc::Global;

/// The most maps of a pull.
const MOST_MAPS: u32 = 65_536;

/// The most maps that may be around one.
const MOST_AROUND: u32 = 256;

/// The tree of the entity under the pattern, and nil if there is nothing to give. It recurses through at most 256 maps.
pub fn pull<S: Selector>(
    alloc: Global,
    db: &Db<S>,
    pattern: &Pattern,
    e: u64,
) -> Result<Edn, PullStop>
    ensures { (facts : Facts)
        → IsDb db.now.snapshot.entries (window_of db.now) (S.selects db.now.filter) facts
        → Answers (pulled db.now.history facts (model_pattern pattern.now) e) result }
{
    if db.history {
        return Err(PullStop::History);
    }
    let walk = Walk { alloc, db };
    let limits = Limits {
        depth: MOST_AROUND,
        maps: MOST_MAPS,
    };
    match tree(&walk, pattern, None, e, limits) {
        Ok(told) => Ok(form_of(told)),
        Err(Stop::TooLarge) => Err(PullStop::TooLarge),
        Err(Stop::Memory) => Err(PullStop::Memory),
    }
}

/// The form that is given, or nil.
fn form_of(told: Pulled) -> Edn
    ensures { view.form_of result ≡ unwrap_or (option_map view.form_of told.form) nil }
{
    told.form.unwrap_or(Edn::Nil)
}
