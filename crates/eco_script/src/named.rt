//! Entities and ids by their names.
ghost use Rattle.std.specs.Prelude.{Some};
ghost use Rattle.eco_script.specs.Printed.{printed_name, named_id};

use eco_ids::{Entity, Id};
use eco_world::World;
use std::fmt;

/// An entity, by its name, or by its handle where it has none.
#[derive(Clone, Copy)]
pub struct Named<'a> {
    pub world: &'a World,
    pub entity: Entity,
}

impl fmt::Display for Named<'_> {
    ghost output = { λ n. Some (printed_name n.world.now n.entity) };

    fn fmt<W: fmt::Write>(&self, f: &mut fmt::Formatter<W>) -> fmt::Result {
        let entity = self.entity;
        match self.world.name_of(entity) {
            Some(name) => write!(f, "{name}"),
            None => write!(f, "{entity}"),
        }
    }
}

/// An id, each entity of it by its name, or by its handle where it has none.
#[derive(Clone, Copy)]
pub struct NamedId<'a> {
    pub world: &'a World,
    pub id: Id,
}

impl fmt::Display for NamedId<'_> {
    ghost output = { λ n. Some (named_id n.world.now n.id) };

    fn fmt<W: fmt::Write>(&self, f: &mut fmt::Formatter<W>) -> fmt::Result {
        let world = self.world;
        match self.id {
            Id::One(entity) => {
                let named = Named { world, entity };
                write!(f, "{named}")
            }
            Id::Two(relationship, target) => {
                let relationship = Named {
                    world,
                    entity: relationship,
                };
                let target = Named {
                    world,
                    entity: target,
                };
                write!(f, "({relationship}, {target})")
            }
        }
    }
}
