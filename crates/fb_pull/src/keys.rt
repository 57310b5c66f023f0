//! The keys of a map: which one an item has, and whether it is there already.
ghost use Rattle.std.specs.Prelude.{◌≡◌, IfOk};
ghost use Rattle.edn_form.specs.View.{form_of, pairs_of};
ghost use Rattle.edn_model.specs.Likeness.{alike};
ghost use Rattle.pull_model.specs.Patterns as patterns;
ghost use Rattle.pull_model.specs.Tree as model;
ghost use Rattle.pull_pattern.specs.View.{model_options};
ghost use Rattle.fb_pull.specs.Keys.{model_key};

use edn_form::Edn;
use fb_memory::Memory;
use fb_text::Text;
use pull_pattern::{Label, Options};

/// A key that is not in a map yet.
#[derive(Clone, Copy)]
pub enum Key<'a> {
    Word(&'a Text),
    Str(&'a Text),
}

impl<'a> Key<'a> {
    /// The key of an item: its name, or what is given in its place.
    pub fn of(name: &'a Text, options: &'a Options) -> Key<'a>
        ensures { model_key result ≡ patterns.key_of name.now (model_options options.now) }
    {
        match &options.renamed {
            Some(Label::Key(text)) => Key::Word(text),
            Some(Label::Str(text)) => Key::Str(text),
            None => Key::Word(name),
        }
    }

    pub fn form(self) -> Result<Edn, Memory>
        ensures { IfOk result (λ form. form_of form ≡ model_key self.entry) }
    {
        Ok(match self {
            Key::Word(text) => Edn::Key(text.copy()?),
            Key::Str(text) => Edn::Str(text.copy()?),
        })
    }

    fn is_alike(self, f: &Edn) -> bool
        ensures { result ≡ alike (model_key self.entry) (form_of f.now) }
    {
        match (self, f) {
            (Key::Word(text), Edn::Key(other)) => text.as_str() == other.as_str(),
            (Key::Str(text), Edn::Str(other)) => text.as_str() == other.as_str(),
            _ => false,
        }
    }

    /// Whether one of the pairs has the key.
    pub fn is_in(self, pairs: &[(Edn, Edn)]) -> bool
        ensures { result ≡ model.has_key (pairs_of pairs.now) (model_key self.entry) }
    {
        for (other, _) in pairs {
            if self.is_alike(other) {
                return true;
            }
        }
        false
    }
}
