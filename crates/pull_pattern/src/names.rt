//! Names of attributes as a pattern writes them. One whose local part begins with `_` means the entities that refer to the
//! one that is pulled. The attribute's own keyword is kept beside it, since a pull asks for it at each entity.
ghost use Rattle.std.specs.Prelude.{◌≡◌, ◌∷◌, [], true, drop, IfOk};
ghost use Rattle.fb_model.specs.Words as words;
ghost use Rattle.pull_model.specs.Patterns.{is_reversed as model_is_reversed};
ghost use Rattle.tx_model.specs.Asks.{without_underscore as model_without_underscore};
ghost use Rattle.pull_pattern.specs.Names.{forward_of};

use edn_values::{begins_with_one_of, local_name, split};
use fb_memory::Memory;
use fb_text::Text;
use std::alloc::Global;
use std::marker::Model;

/// A name, forward or reversed.
#[derive(Drop)]
pub struct Name {
    written: Text,
    forward: Option<Text>,
}

impl Model for Name {
    ghost use Rattle.std.specs.Prelude.{◌≡◌, ℕ, List};
    ghost use Rattle.pull_pattern.specs.Names.{forward_of};

    ghost Value = { List ℕ };

    ghost view = { λ n. n.written };

    ghost invariant = { λ n. n.forward ≡ forward_of n.written };
}

impl Name {
    pub fn of(alloc: Global, written: &Text) -> Result<Name, Memory>
        ensures { IfOk result (λ n. n ≡ written.now) }
    {
        Ok(Name {
            forward: forward_name(alloc, written.as_str())?,
            written: written.copy()?,
        })
    }

    /// The keyword as the pattern has it, without its colon.
    pub fn written(&self) -> &Text
        ensures { result.now ≡ self.now }
    {
        &self.written
    }

    /// The attribute's keyword where the name is reversed, and nothing where it is the attribute's own.
    pub fn reversed(&self) -> &Option<Text>
        ensures { result.now ≡ forward_of self.now }
    {
        &self.forward
    }

    pub(crate) fn copy(&self) -> Result<Name, Memory>
        ensures { IfOk result (λ n. n ≡ self.now) }
    {
        Ok(Name {
            written: self.written.copy()?,
            forward: copy_text(&self.forward)?,
        })
    }
}

fn copy_text(text: &Option<Text>) -> Result<Option<Text>, Memory>
    ensures { IfOk result (λ t. t ≡ text.now) }
{
    match text {
        Some(text) => Ok(Some(text.copy()?)),
        None => Ok(None),
    }
}

/// Whether the name means the entities that refer to the one that is pulled.
pub fn is_reversed(name: &str) -> bool
    ensures { result ≡ model_is_reversed name.now }
{
    begins_with_one_of(b"_", local_name(name).as_bytes())
}

/// The attribute's keyword of a reversed name.
fn forward_name(alloc: Global, name: &str) -> Result<Option<Text>, Memory>
    ensures { IfOk result (λ forward. forward ≡ forward_of name.now) }
{
    if is_reversed(name) {
        return Ok(Some(without_underscore(alloc, name)?));
    }
    Ok(None)
}

fn without_underscore(alloc: Global, name: &str) -> Result<Text, Memory>
    requires { model_is_reversed name.now ≡ true }
    ensures { IfOk result (λ forward. forward ≡ model_without_underscore name.now) }
{
    match split(name) {
        Some((namespace, local)) => {
            let rest = behind_underscore(local);
            let forward = format!(in alloc; "{namespace}/{rest}")?;
            Text::of(alloc, forward.as_str())
        }
        None => Text::of(alloc, behind_underscore(name)),
    }
}

fn behind_underscore(text: &str) -> &str
    requires { words.begins_with_one_of (95 ∷ []) text.now ≡ true }
    ensures { result.now ≡ drop 1 text.now }
{
    match text.strip_prefix('_') {
        Some(rest) => rest,
        None => text,
    }
}
