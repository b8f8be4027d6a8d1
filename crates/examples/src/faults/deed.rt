//! What is done to a world by direct calls.
use eco_ids::entity::CHILD_OF;
use eco_ids::{Entity, Id, Refusal, Value};
use eco_world::World;

/// What is done to a world. Entities are told by their indices: who is made has the next one.
#[derive(Clone, Copy)]
pub enum Deed {
    /// An entity without a name is made.
    Make,
    /// An entity with a name is made.
    Name(&'static str),
    /// A component of one field is made.
    Narrow(&'static str),
    /// A component of two fields is made.
    Wide(&'static str),
    /// An entity gets an id.
    Add(u32, u32),
    /// An entity gets a pair.
    AddPair(u32, u32, u32),
    /// An entity gets an id with a value.
    Set(u32, u32, [i64; 2]),
    /// An entity gets a pair with a value.
    SetPair(u32, u32, u32, i64),
    /// An entity gets another name.
    Rename(u32, &'static str),
    /// An entity dies.
    Delete(u32),
    /// All who have an id die.
    DeleteWith(u32),
    /// A query is asked again and again from now on.
    Keep(&'static str),
    /// Fifty tables come: each of fifty entities gets an id and a tag of its own.
    Spread(u32),
    /// A chain of 199 along ChildOf hangs below an entity.
    Hang(u32),
    /// Twenty get an id, and each is the target of a relationship of one of twenty others, who get a value of a component too.
    Hold(u32, u32, u32),
}

/// The first handle of an index.
pub fn first(index: u32) -> Entity {
    Entity {
        index,
        generation: 0,
    }
}

/// A single id.
pub fn one(index: u32) -> Id {
    Id::One(first(index))
}

/// A pair.
pub fn two(relationship: u32, target: u32) -> Id {
    Id::Two(first(relationship), first(target))
}

// Whether somebody was made.
fn is_made(outcome: Result<Entity, Refusal>) -> Result<(), Refusal> {
    match outcome {
        Ok(_) => Ok(()),
        Err(refusal) => Err(refusal),
    }
}

fn keep(world: &mut World, text: &str) -> Result<(), Refusal> {
    let query = world.read_query(text)?;
    world.add_query(query)?;
    Ok(())
}

fn spread(world: &mut World, id: Id) -> Result<(), Refusal> {
    for _ in 0..50 {
        let own = world.create(None)?;
        let entity = world.create(None)?;
        world.add(entity, id)?;
        world.add(entity, Id::One(own))?;
    }
    Ok(())
}

fn hang(world: &mut World, root: Entity) -> Result<(), Refusal> {
    let mut parent = root;
    for _ in 0..199 {
        let child = world.create(None)?;
        world.add(child, Id::Two(CHILD_OF, parent))?;
        parent = child;
    }
    Ok(())
}

// An entity with the id, and another with a value and a pair of which the first is the target.
fn hold_one(
    world: &mut World,
    id: Id,
    relationship: Entity,
    component: Id,
    number: i64,
) -> Result<(), Refusal> {
    let holder = world.create(None)?;
    let survivor = world.create(None)?;
    world.add(holder, id)?;
    world.set(survivor, component, Value::of([number]))?;
    world.add(survivor, Id::Two(relationship, holder))
}

fn hold(world: &mut World, id: Id, relationship: Entity, component: Id) -> Result<(), Refusal> {
    for number in 0..20i64 {
        hold_one(world, id, relationship, component, number)?;
    }
    Ok(())
}

impl Deed {
    /// Does it.
    pub fn make(self, world: &mut World) -> Result<(), Refusal> {
        match self {
            Deed::Make => is_made(world.create(None)),
            Deed::Name(name) => is_made(world.create(Some(name))),
            Deed::Narrow(name) => is_made(world.component(Some(name), 1)),
            Deed::Wide(name) => is_made(world.component(Some(name), 2)),
            Deed::Add(entity, id) => world.add(first(entity), one(id)),
            Deed::AddPair(entity, relationship, target) => {
                world.add(first(entity), two(relationship, target))
            }
            Deed::Set(entity, id, fields) => world.set(first(entity), one(id), Value::of(fields)),
            Deed::SetPair(entity, relationship, target, field) => {
                world.set(first(entity), two(relationship, target), Value::of([field]))
            }
            Deed::Rename(entity, name) => world.rename(first(entity), Some(name)),
            Deed::Delete(entity) => world.delete(first(entity)),
            Deed::DeleteWith(id) => world.delete_with(one(id)),
            Deed::Keep(text) => keep(world, text),
            Deed::Spread(id) => spread(world, one(id)),
            Deed::Hang(root) => hang(world, first(root)),
            Deed::Hold(id, relationship, component) => {
                hold(world, one(id), first(relationship), one(component))
            }
        }
    }
}

/// Does all of them in their order.
pub fn make_all(world: &mut World, deeds: &[Deed]) -> Result<(), Refusal> {
    for deed in deeds {
        deed.make(world)?;
    }
    Ok(())
}
