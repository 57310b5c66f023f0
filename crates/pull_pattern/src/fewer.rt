//! The end of a recursion: a pattern with one less for the number of one of its items.
ghost use Rattle.std.specs.Prelude.{◌≡◌, ◌++◌, option_map, option_to_list, IfOk};
ghost use Rattle.pull_model.specs.Patterns as model;
ghost use Rattle.pull_pattern.specs.Items.{lessened};
ghost use Rattle.pull_pattern.specs.View.{model_item, model_items, model_pattern};

use crate::patterns::{Below, Item, Pattern};
use fb_memory::Memory;
use std::alloc::Global;

impl Pattern {
    /// The pattern with one less for the number of the item at the place, and without that item where it is used up.
    /// What is below the items is shared.
    pub fn one_less(&self, alloc: Global, place: usize) -> Result<Pattern, Memory>
        ensures { IfOk result (λ p. model_pattern p ≡ model.one_less place (model_pattern self.now)) }
    {
        let items = self.items();
        let Some(item) = items.get(place) else {
            return self.share();
        };
        let mut list = Vec::with_capacity(alloc, items.len())?;
        add_copies(&mut list, &items[..place])?;
        add_lessened(&mut list, item)?;
        add_copies(&mut list, &items[place + 1..])?;
        Pattern::of(alloc, list)
    }
}

fn add_copies(list: &mut Vec<Item>, items: &[Item]) -> Result<(), Memory>
    ensures { IfOk result
        (λ _. model_items list.new.items ≡ model_items list.old.items ++ model_items items.now) }
{
    for item in items {
        list.push(item.copy()?)?;
    }
    Ok(())
}

/// Adds the item with one less for its number, and nothing where that is used up.
fn add_lessened(list: &mut Vec<Item>, item: &Item) -> Result<(), Memory>
    ensures { IfOk result (λ _. model_items list.new.items
        ≡ model_items list.old.items ++ option_to_list (lessened (model_item item.now))) }
{
    if let Some(fewer) = with_one_less(item)? {
        list.push(fewer)?;
    }
    Ok(())
}

fn with_one_less(item: &Item) -> Result<Option<Item>, Memory>
    ensures { IfOk result (λ fewer. option_map model_item fewer ≡ lessened (model_item item.now)) }
{
    Ok(match item {
        Item::Attribute {
            name,
            options,
            below: Below::Times(n),
        } => {
            if *n <= 1 {
                return Ok(None);
            }
            Some(Item::Attribute {
                name: name.copy()?,
                options: options.copy()?,
                below: Below::Times(*n - 1),
            })
        }
        _ => Some(item.copy()?),
    })
}
