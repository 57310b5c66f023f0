//! Patterns as data: items, each with its options, and what is given of the entities under an attribute.
ghost use Rattle.std.specs.Prelude.{◌≡◌, IfOk};
ghost use Rattle.std.specs.Option.{option_map};
ghost use Rattle.std.specs.Arc.{arc_value};
ghost use Rattle.edn_form.specs.View.{form_of};
ghost use Rattle.pull_model.specs.Patterns.{no_options, everything};
ghost use Rattle.pull_pattern.specs.View.{model_label};

use crate::names::Name;
use edn_form::Edn;
use fb_memory::Memory;
use fb_text::Text;
use std::alloc::Global;
use std::sync::Arc;

/// How many values are given at most.
#[derive(Clone, Copy)]
pub enum Limit {
    First(u32),
    All,
}

/// A key in place of a name.
#[derive(Drop)]
pub enum Label {
    Key(Text),
    Str(Text),
}

/// What an item is given besides its name.
#[derive(Drop)]
pub struct Options {
    pub renamed: Option<Label>,
    /// What is given where the attribute is absent.
    pub default: Option<Arc<Edn>>,
    pub limit: Option<Limit>,
}

#[cycle(pattern)]
#[derive(Drop)]
pub enum Item {
    /// `*`.
    Wildcard,
    /// `:db/id`.
    Own(Options),
    Attribute {
        name: Name,
        options: Options,
        below: Below,
    },
}

/// What is given of each entity that is found under an attribute.
#[cycle(pattern)]
#[derive(Drop)]
pub enum Below {
    /// Its number, or the whole of it where it is a part.
    Usual,
    Under(Pattern),
    /// What the pattern that has this item says, this many times at most.
    Times(u32),
    Unlimited,
}

/// The items in order. A copy shares them.
#[cycle(pattern)]
#[derive(Drop)]
pub struct Pattern {
    items: Arc<Vec<Item>>,
}

impl Pattern {
    ghost use Rattle.pull_pattern.specs.View.{model_pattern, pattern_of};

    pub(crate) fn of(alloc: Global, items: Vec<Item>) -> Result<Pattern, Memory>
        ensures { IfOk result (λ p. model_pattern p ≡ pattern_of items.items) }
    {
        Ok(Pattern {
            items: Arc::new(alloc, items)?,
        })
    }

    /// `[*]`.
    pub fn everything(alloc: Global) -> Result<Pattern, Memory>
        ensures { IfOk result (λ p. model_pattern p ≡ everything) }
    {
        let mut items = Vec::new(alloc);
        items.push(Item::Wildcard)?;
        Pattern::of(alloc, items)
    }

    pub fn items(&self) -> &[Item]
        ensures { pattern_of result.now ≡ model_pattern self.now }
    {
        let items: &Vec<Item> = &self.items;
        items.as_slice()
    }

    /// The same pattern, at the cost of a reference count.
    pub fn share(&self) -> Result<Pattern, Memory>
        ensures { IfOk result (λ p. model_pattern p ≡ model_pattern self.now) }
    {
        Ok(Pattern {
            items: self.items.clone()?,
        })
    }
}

impl Item {
    ghost use Rattle.pull_pattern.specs.View.{model_item};

    /// The same item, which shares what is below it and its default.
    pub(crate) fn copy(&self) -> Result<Item, Memory>
        ensures { IfOk result (λ i. model_item i ≡ model_item self.now) }
    {
        Ok(match self {
            Item::Wildcard => Item::Wildcard,
            Item::Own(options) => Item::Own(options.copy()?),
            Item::Attribute {
                name,
                options,
                below,
            } => Item::Attribute {
                name: name.copy()?,
                options: options.copy()?,
                below: below.copy()?,
            },
        })
    }
}

impl Below {
    ghost use Rattle.pull_pattern.specs.View.{model_below};

    fn copy(&self) -> Result<Below, Memory>
        ensures { IfOk result (λ b. model_below b ≡ model_below self.now) }
    {
        Ok(match self {
            Below::Usual => Below::Usual,
            Below::Under(pattern) => Below::Under(pattern.share()?),
            Below::Times(n) => Below::Times(*n),
            Below::Unlimited => Below::Unlimited,
        })
    }
}

impl Options {
    ghost use Rattle.pull_pattern.specs.View.{model_options};

    /// No option is given.
    pub fn none() -> Options
        ensures { model_options result ≡ no_options }
    {
        Options {
            renamed: None,
            default: None,
            limit: None,
        }
    }

    pub(crate) fn copy(&self) -> Result<Options, Memory>
        ensures { IfOk result (λ o. model_options o ≡ model_options self.now) }
    {
        Ok(Options {
            renamed: copy_label(&self.renamed)?,
            default: share_form(&self.default)?,
            limit: self.limit,
        })
    }
}

impl Label {
    ghost use Rattle.pull_pattern.specs.View.{model_label};

    fn copy(&self) -> Result<Label, Memory>
        ensures { IfOk result (λ l. model_label l ≡ model_label self.now) }
    {
        Ok(match self {
            Label::Key(text) => Label::Key(text.copy()?),
            Label::Str(text) => Label::Str(text.copy()?),
        })
    }
}

fn copy_label(label: &Option<Label>) -> Result<Option<Label>, Memory>
    ensures { IfOk result (λ l. option_map model_label l ≡ option_map model_label label.now) }
{
    match label {
        Some(label) => Ok(Some(label.copy()?)),
        None => Ok(None),
    }
}

fn share_form(form: &Option<Arc<Edn>>) -> Result<Option<Arc<Edn>>, Memory>
    ensures { IfOk result (λ f. option_map (λ a. form_of (arc_value a)) f
        ≡ option_map (λ a. form_of (arc_value a)) form.now) }
{
    match form {
        Some(form) => Ok(Some(form.clone()?)),
        None => Ok(None),
    }
}
