//! What a session may be asked.
use edn_form::Edn;
use fb_text::Text;
use fb_values::Order;

/// What is looked at, of what the session has seen, with the forms that follow its word.
#[derive(Clone, Copy)]
pub enum Look<'a> {
    /// `[:datoms index c ..]`
    Datoms(Order, &'a [Edn]),
    /// `[:seek index c ..]`
    Seek(Order, &'a [Edn]),
    /// `[:index-range a start end]`
    IndexRange(&'a Edn, &'a Edn, &'a Edn),
    /// `[:tx-range start end]`
    TxRange(&'a Edn, &'a Edn),
    /// `[:pull pattern entity]`
    Pull(&'a Edn, &'a Edn),
}

/// What changes in the view of later looks.
#[derive(Clone, Copy)]
pub enum Turn<'a> {
    /// `[:as-of point]`
    AsOf(&'a Edn),
    /// `[:since point]`
    Since(&'a Edn),
    /// `[:history]`
    History,
    /// `[:filter :name]`
    Filter(&'a Text),
    /// `[:unfilter]`
    Unfilter,
}

/// A command that is answered of what its session has seen.
#[derive(Clone, Copy)]
pub enum Read<'a> {
    Look(Look<'a>),
    /// `[:with [data ..] look]`: a look at what the transactions would make of it.
    Tried(&'a [Edn], Look<'a>),
    /// `[:tuple-range [a ..] start end]`
    Tuples(&'a Edn, &'a Edn, &'a Edn),
    Turn(Turn<'a>),
    /// `[:request-index]`
    RequestIndex,
}

#[derive(Clone, Copy)]
pub enum Command<'a> {
    /// `[:transact forms]`
    Transact(&'a Edn),
    /// `[:db]`: what the session sees.
    Db,
    /// `[:sync]`: what there is to see.
    Sync,
    Read(Read<'a>),
}

impl<'a> Command<'a> {
    ghost use Rattle.std.specs.Prelude.{◌≡◌};
    ghost use Rattle.talk_model.specs.Commands as model;
    ghost use Rattle.fb_commands.specs.View.{model_command, model_look, model_turn};

    pub(crate) fn look(what: Look<'a>) -> Command<'a>
        ensures { model_command result ≡ model.looks (model_look what.entry) }
    {
        Command::Read(Read::Look(what))
    }

    pub(crate) fn turn(what: Turn<'a>) -> Command<'a>
        ensures { model_command result ≡ model.turns (model_turn what.entry) }
    {
        Command::Read(Read::Turn(what))
    }
}
