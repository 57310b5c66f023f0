//! The commands of a session.
use edn_form::Edn;
use fb_text::Text;
use fb_values::Order;

/// A command, with the forms that follow its word.
#[derive(Clone, Copy)]
pub(crate) enum Command<'a> {
    Transact(&'a Edn),
    /// `[:db]` or `[:sync]`, which a session that is alone cannot tell apart.
    Basis,
    Turn(Turn<'a>),
    RequestIndex,
    Look(Look<'a>),
    /// Transactions that are tried, and what is looked at behind them.
    With(&'a [Edn], Look<'a>),
    /// The names of a composite, and where the range of its tuples starts and ends.
    Tuples(&'a Edn, &'a Edn, &'a Edn),
}

/// It changes what the session sees.
#[derive(Clone, Copy)]
pub(crate) enum Turn<'a> {
    AsOf(&'a Edn),
    Since(&'a Edn),
    History,
    Filter(&'a Text),
    Unfilter,
}

/// It shows some of what the session sees.
#[derive(Clone, Copy)]
pub(crate) enum Look<'a> {
    Datoms(Order, &'a [Edn]),
    Seek(Order, &'a [Edn]),
    IndexRange(&'a Edn, &'a Edn, &'a Edn),
    TxRange(&'a Edn, &'a Edn),
    /// The pattern, and the entity's name.
    Pull(&'a Edn, &'a Edn),
}

/// How many transactions may be tried together.
const MOST_TRIED: usize = 64;

/// The command that the form is, if it is one: a vector that begins with a command's word.
pub(crate) fn command_in(form: &Edn) -> Option<Command<'_>> {
    if let Some(look) = look_in(form) {
        return Some(Command::Look(look));
    }
    let (word, behind) = worded(form)?;
    match behind {
        [] => alone(word),
        [x] => before_one(word, x),
        [x, y] => before_two(word, x, y),
        [x, y, z] if word == "tuple-range" => Some(Command::Tuples(x, y, z)),
        _ => None,
    }
}

/// The word, and what stands behind it.
fn worded(form: &Edn) -> Option<(&str, &[Edn])> {
    let Edn::Vector(members) = form else {
        return None;
    };
    match members.as_slice() {
        [Edn::Key(word), behind @ ..] => Some((word.as_str(), behind)),
        _ => None,
    }
}

fn look_in(form: &Edn) -> Option<Look<'_>> {
    let (word, behind) = worded(form)?;
    match (word, behind) {
        ("tx-range", [x, y]) => Some(Look::TxRange(x, y)),
        ("pull", [x, y]) => Some(Look::Pull(x, y)),
        ("index-range", [x, y, z]) => Some(Look::IndexRange(x, y, z)),
        _ => of_an_index(word, behind),
    }
}

fn alone(word: &str) -> Option<Command<'_>> {
    match word {
        "db" | "sync" => Some(Command::Basis),
        "history" => Some(Command::Turn(Turn::History)),
        "unfilter" => Some(Command::Turn(Turn::Unfilter)),
        "request-index" => Some(Command::RequestIndex),
        _ => None,
    }
}

fn before_one<'a>(word: &str, x: &'a Edn) -> Option<Command<'a>> {
    match (word, x) {
        ("transact", _) => Some(Command::Transact(x)),
        ("as-of", _) => Some(Command::Turn(Turn::AsOf(x))),
        ("since", _) => Some(Command::Turn(Turn::Since(x))),
        ("filter", Edn::Key(name)) => Some(Command::Turn(Turn::Filter(name))),
        _ => None,
    }
}

fn before_two<'a>(word: &str, x: &'a Edn, y: &'a Edn) -> Option<Command<'a>> {
    match (word, x) {
        ("with", Edn::Vector(datas)) if (1..=MOST_TRIED).contains(&datas.as_slice().len()) => {
            Some(Command::With(datas.as_slice(), look_in(y)?))
        }
        _ => None,
    }
}

/// `[:datoms index c ..]` and `[:seek index c ..]`.
fn of_an_index<'a>(word: &str, behind: &'a [Edn]) -> Option<Look<'a>> {
    let [Edn::Key(index), components @ ..] = behind else {
        return None;
    };
    let order = order_in(index.as_str())?;
    match word {
        "datoms" => Some(Look::Datoms(order, components)),
        "seek" => Some(Look::Seek(order, components)),
        _ => None,
    }
}

fn order_in(index: &str) -> Option<Order> {
    match index {
        "eavt" => Some(Order::Eavt),
        "aevt" => Some(Order::Aevt),
        "avet" => Some(Order::Avet),
        "vaet" => Some(Order::Vaet),
        _ => None,
    }
}
