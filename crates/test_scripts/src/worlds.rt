//! Worlds: small schemas that are drawn from a seed, in which scripts go on.
use crate::fields::{Field, OWN, SHARED};
use anyhow::Result;
use std::alloc::Global;
use test_data::{Dice, PEOPLE, SCHEMA};

/// The commands with which its scripts begin, and the attributes that these install.
#[derive(Drop)]
pub(crate) struct World {
    pub(crate) commands: String,
    pub(crate) fields: Vec<Field>,
    /// Whether it has the attributes and the entities that other tests draw too.
    pub(crate) is_shared: bool,
}

const UNIQUENESSES: &[&str] = &[
    "",
    "",
    " :db/unique :db.unique/identity",
    " :db/unique :db.unique/value",
];

const CARDINALITIES: &[&str] = &[":db.cardinality/one", ":db.cardinality/many"];

pub(crate) fn drawn_world(alloc: Global, dice: &mut Dice) -> Result<World> {
    let mut world = World {
        commands: String::new(alloc),
        fields: Vec::new(alloc),
        is_shared: dice.once_in(3),
    };
    world.install_fields(dice)?;
    Ok(world)
}

impl World {
    fn install_fields(&mut self, dice: &mut Dice) -> Result<()> {
        if self.is_shared {
            self.install_shared()?;
        }
        self.commands.push_str("[:transact [")?;
        for field in OWN {
            if dice.once_in(2) {
                self.install(dice, *field)?;
            }
        }
        self.commands.push_str("]]\n")?;
        Ok(())
    }

    fn install_shared(&mut self) -> Result<()> {
        self.fields.extend_from_slice(SHARED)?;
        write!(
            self.commands,
            "[:transact {SCHEMA}]\n[:transact {PEOPLE}]\n"
        )?;
        Ok(())
    }

    /// With a cardinality, a uniqueness and an index as they fall.
    fn install(&mut self, dice: &mut Dice, field: Field) -> Result<()> {
        let cardinality = dice.pick(CARDINALITIES);
        let more = if !field.values.is_empty() {
            dice.pick(UNIQUENESSES)
        } else if field.name == ":h/part" {
            " :db/isComponent true"
        } else {
            ""
        };
        let index = if dice.once_in(3) {
            " :db/index true"
        } else {
            ""
        };
        write!(
            self.commands,
            "{{:db/ident {} :db/valueType {} :db/cardinality {cardinality}{more}{index}}}\n",
            field.name, field.kind
        )?;
        self.fields.push(field)?;
        Ok(())
    }
}
