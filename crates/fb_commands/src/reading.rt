//! Reads a command: a vector whose first member is a keyword, the command's word.
ghost use Rattle.std.specs.Prelude.{◌≡◌, [], ◌∷◌};
ghost use Rattle.std.specs.Option.{option_map};
ghost use Rattle.edn_form.specs.View.{form_of, forms_of};
ghost use Rattle.talk_model.specs.Commands as model;
ghost use Rattle.fb_commands.specs.View.{model_command, model_look};

use crate::commands::{Command, Look, Read, Turn};
use edn_form::Edn;
use fb_text::Text;
use fb_values::Order;

/// How many transactions may be tried together.
const MOST_TRIED: usize = 64;

/// The command that the form is, if it is one.
pub fn command_in(form: &Edn) -> Option<Command<'_>>
    ensures { option_map (λ command. model_command command) result ≡ model.command_in (form_of form.now) }
{
    match form {
        Edn::Vector(items) => command_of(items.as_slice()),
        _ => None,
    }
}

fn command_of(members: &[Edn]) -> Option<Command<'_>>
    ensures { option_map (λ command. model_command command) result
        ≡ model.command_of (forms_of members.now) }
{
    match members.split_first()? {
        (Edn::Key(word), behind) => command_named(word.as_str(), behind),
        _ => None,
    }
}

/// The command that the word begins, where these forms follow it.
fn command_named<'a>(word: &str, behind: &'a [Edn]) -> Option<Command<'a>>
    ensures { option_map (λ command. model_command command) result
        ≡ model.command_named word.now (forms_of behind.now) }
{
    match look_named(word, behind) {
        Some(look) => Some(Command::look(look)),
        None => other_named(word, behind),
    }
}

/// The look that the word begins.
fn look_named<'a>(word: &str, behind: &'a [Edn]) -> Option<Look<'a>>
    ensures { option_map (λ look. model_look look) result
        ≡ model.look_named word.now (forms_of behind.now) }
{
    match behind {
        [] => None,
        [x] => of_an_index(word, x, &[]),
        [x, y] => look_before_two(word, x, y, &behind[1..]),
        [x, y, z] => look_before_three(word, x, y, z, &behind[1..]),
        [x, ..] => of_an_index(word, x, &behind[1..]),
    }
}

fn look_before_two<'a>(word: &str, x: &'a Edn, y: &'a Edn, rest: &'a [Edn]) -> Option<Look<'a>>
    requires { forms_of rest.now ≡ form_of y.now ∷ [] }
    ensures { option_map (λ look. model_look look) result
        ≡ model.look_named word.now (form_of x.now ∷ form_of y.now ∷ []) }
{
    match word {
        "tx-range" => Some(Look::TxRange(x, y)),
        "pull" => Some(Look::Pull(x, y)),
        _ => of_an_index(word, x, rest),
    }
}

fn look_before_three<'a>(
    word: &str,
    x: &'a Edn,
    y: &'a Edn,
    z: &'a Edn,
    rest: &'a [Edn],
) -> Option<Look<'a>>
    requires { forms_of rest.now ≡ form_of y.now ∷ form_of z.now ∷ [] }
    ensures { option_map (λ look. model_look look) result
        ≡ model.look_named word.now (form_of x.now ∷ form_of y.now ∷ form_of z.now ∷ []) }
{
    match word {
        "index-range" => Some(Look::IndexRange(x, y, z)),
        _ => of_an_index(word, x, rest),
    }
}

/// A look that begins with an index.
fn of_an_index<'a>(word: &str, index: &'a Edn, components: &'a [Edn]) -> Option<Look<'a>>
    ensures { option_map (λ look. model_look look) result
        ≡ model.named word.now (model.of_an_index (form_of index.now) (forms_of components.now)) }
{
    match word {
        "datoms" => Some(Look::Datoms(order_in(index)?, components)),
        "seek" => Some(Look::Seek(order_in(index)?, components)),
        _ => None,
    }
}

/// The command that the word begins and that is no look.
fn other_named<'a>(word: &str, behind: &'a [Edn]) -> Option<Command<'a>>
    ensures { option_map (λ command. model_command command) result
        ≡ model.named word.now (model.before (forms_of behind.now)) }
{
    match behind {
        [] => alone(word),
        [x] => before_one(word, x),
        [x, y] => before_two(word, x, y),
        [x, y, z] => before_three(word, x, y, z),
        _ => None,
    }
}

fn alone<'a>(word: &str) -> Option<Command<'a>>
    ensures { option_map (λ command. model_command command) result
        ≡ model.named word.now (model.before []) }
{
    match word {
        "db" => Some(Command::Db),
        "sync" => Some(Command::Sync),
        "history" => Some(Command::turn(Turn::History)),
        "unfilter" => Some(Command::turn(Turn::Unfilter)),
        "request-index" => Some(Command::Read(Read::RequestIndex)),
        _ => None,
    }
}

fn before_one<'a>(word: &str, x: &'a Edn) -> Option<Command<'a>>
    ensures { option_map (λ command. model_command command) result
        ≡ model.named word.now (model.before (form_of x.now ∷ [])) }
{
    match word {
        "transact" => Some(Command::Transact(x)),
        "as-of" => Some(Command::turn(Turn::AsOf(x))),
        "since" => Some(Command::turn(Turn::Since(x))),
        "filter" => Some(Command::turn(Turn::Filter(name_in(x)?))),
        _ => None,
    }
}

fn before_two<'a>(word: &str, x: &'a Edn, y: &'a Edn) -> Option<Command<'a>>
    ensures { option_map (λ command. model_command command) result
        ≡ model.named word.now (model.before (form_of x.now ∷ form_of y.now ∷ [])) }
{
    match word {
        "with" => tried_in(x, y),
        _ => None,
    }
}

fn before_three<'a>(word: &str, x: &'a Edn, y: &'a Edn, z: &'a Edn) -> Option<Command<'a>>
    ensures { option_map (λ command. model_command command) result
        ≡ model.named word.now (model.before (form_of x.now ∷ form_of y.now ∷ form_of z.now ∷ [])) }
{
    match word {
        "tuple-range" => Some(Command::Read(Read::Tuples(x, y, z))),
        _ => None,
    }
}

/// A look behind transactions that are tried.
fn tried_in<'a>(given: &'a Edn, looked: &'a Edn) -> Option<Command<'a>>
    ensures { option_map (λ command. model_command command) result
        ≡ model.tried_in (form_of given.now) (form_of looked.now) }
{
    let datas = datas_in(given)?;
    let look = look_in(looked)?;
    Some(Command::Read(Read::Tried(datas, look)))
}

/// The transactions that are to be tried.
fn datas_in(form: &Edn) -> Option<&[Edn]>
    ensures { option_map (λ datas. forms_of datas.now) result ≡ model.datas_in (form_of form.now) }
{
    match form {
        Edn::Vector(items) => few(items.as_slice()),
        _ => None,
    }
}

/// The forms, where there is one at least and they are not too many.
fn few(forms: &[Edn]) -> Option<&[Edn]>
    ensures { option_map (λ few. forms_of few.now) result ≡ model.datas_of (forms_of forms.now) }
{
    if 1 <= forms.len() && forms.len() <= MOST_TRIED {
        Some(forms)
    } else {
        None
    }
}

/// The look that the form is, if it is one.
fn look_in(form: &Edn) -> Option<Look<'_>>
    ensures { option_map (λ look. model_look look) result ≡ model.look_in (form_of form.now) }
{
    match form {
        Edn::Vector(items) => look_of(items.as_slice()),
        _ => None,
    }
}

fn look_of(members: &[Edn]) -> Option<Look<'_>>
    ensures { option_map (λ look. model_look look) result ≡ model.look_of (forms_of members.now) }
{
    match members.split_first()? {
        (Edn::Key(word), behind) => look_named(word.as_str(), behind),
        _ => None,
    }
}

fn name_in(form: &Edn) -> Option<&Text>
    ensures { option_map (λ name. name.now) result ≡ model.name_in (form_of form.now) }
{
    match form {
        Edn::Key(name) => Some(name),
        _ => None,
    }
}

/// The order whose index the form names.
fn order_in(form: &Edn) -> Option<Order>
    ensures { result ≡ model.order_in (form_of form.now) }
{
    match name_in(form)?.as_str() {
        "eavt" => Some(Order::Eavt),
        "aevt" => Some(Order::Aevt),
        "avet" => Some(Order::Avet),
        "vaet" => Some(Order::Vaet),
        _ => None,
    }
}
