//! A range of the values of one attribute, or the first place that fails.
ghost use Rattle.std.specs.Prelude.{◌≡◌};
ghost use Rattle.edn_form.specs.View.{form_of};
ghost use Rattle.fb_model.specs.Facts.{facts};
ghost use Rattle.fb_db.specs.Seen.{window_of};
ghost use Rattle.read_model.specs.Components.{IsIndexRange, end_given};
ghost use Rattle.fb_names.specs.Answers.{IsGiven, AnswersAs};
ghost use Rattle.fb_names.specs.Ranges.{range_of, is_nil};

use crate::given::{attribute, value};
use crate::stops::NameStop;
use edn_form::Edn;
use fb_db::Db;
use fb_preds::Selector;
use fb_values::{Order, Value};

/// The values of an attribute from the first one on and before the second. Where one is not given, that end is open.
#[derive(Drop)]
pub struct ValueRange {
    pub attribute: u64,
    pub start: Option<Value>,
    pub end: Option<Value>,
}

/// The range that an attribute's keyword and two values or nils after the command's word give. AVET has to hold the
/// attribute.
pub fn index_range<S: Selector>(
    db: &Db<S>,
    a: &Edn,
    start: &Edn,
    end: &Edn,
) -> Result<ValueRange, NameStop>
    ensures { AnswersAs
        (λ answer. IsIndexRange db.now.snapshot.entries (window_of db.now) (S.selects db.now.filter)
        (form_of a.now) (form_of start.now) (form_of end.now) (range_of answer))
        result }
{
    let attribute = attribute(db.snapshot.schema(), Order::Avet, a, 1)?;
    let start = range_end(db, attribute.kind, start, 2)?;
    let end = range_end(db, attribute.kind, end, 3)?;
    Ok(ValueRange {
        attribute: attribute.id,
        start,
        end,
    })
}

/// A value of the type, or nil for an open end.
fn range_end<S: Selector>(
    db: &Db<S>,
    kind: u64,
    form: &Edn,
    at: usize,
) -> Result<Option<Value>, NameStop>
    ensures { AnswersAs
        (IsGiven db.now.snapshot.entries (window_of db.now) (S.selects db.now.filter) at
        (end_given (facts db.now.snapshot.entries) kind (form_of form.now)))
        result }
{
    if is_nil(form) {
        return Ok(None);
    }
    Ok(Some(value(db, kind, form, at)?))
}

fn is_nil(form: &Edn) -> bool
    ensures { result ≡ is_nil (form_of form.now) }
{
    match form {
        Edn::Nil => true,
        _ => false,
    }
}
