//! The first places at which forms ask a triple.
ghost use Rattle.std.specs.Prelude.{◌≡◌};
ghost use Rattle.tx_rules.specs.Places as model;

use tx_asks::Triple;

/// The lesser place, where there are two.
pub fn earlier(x: Option<usize>, y: Option<usize>) -> Option<usize>
    ensures { result ≡ model.earlier x y }
{
    match (x, y) {
        (Some(m), Some(n)) => Some(m.min(n)),
        (Some(m), None) => Some(m),
        (None, other) => other,
    }
}

/// Of those that ask it in whatever way.
pub fn asked_at(triple: &Triple) -> Option<usize>
    ensures { result ≡ model.asked_at triple.now }
{
    earlier(triple.added, withdrawn_at(triple))
}

/// Of those that name it.
pub fn named_at(triple: &Triple) -> Option<usize>
    ensures { result ≡ model.named_at triple.now }
{
    earlier(triple.added, triple.retracted)
}

/// Of those for which it is recorded: as an addition of what does not hold, or as a retraction of what holds.
pub fn recorded_at(triple: &Triple) -> Option<usize>
    ensures { result ≡ model.recorded_at triple.now }
{
    if triple.holds {
        withdrawn_at(triple)
    } else {
        triple.added
    }
}

fn withdrawn_at(triple: &Triple) -> Option<usize>
    ensures { result
        ≡ model.earlier triple.now.retracted (model.earlier triple.now.swept triple.now.replaced) }
{
    earlier(triple.retracted, earlier(triple.swept, triple.replaced))
}
