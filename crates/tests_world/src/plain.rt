//! Who has which id, as a plain list, and what is done to it. Those who live from the start are not in it, and it refuses nothing.
use eco_ids::entity::{ACYCLIC, EXCLUSIVE, SYMMETRIC, WITH};
use eco_ids::{Entity, Id, Refusal, Value};
use eco_world::{Recorded, World};
use std::alloc::{AllocError, Global};
use std::mem;

// How many live from the start in a world of the second edition.
const BUILT_IN: usize = 10;

// No chain of With is longer.
const LONGEST: u32 = 64;

/// Somebody has an id.
#[derive(Clone, Copy)]
pub struct Had {
    pub holder: Entity,
    pub id: Id,
}

impl Had {
    fn is(self, other: Had) -> bool {
        self.holder.is(other.holder) && self.id.is(other.id)
    }

    // Whether it goes with the entity.
    fn is_about(self, entity: Entity) -> bool {
        self.holder.is(entity) || self.id.names(entity)
    }

    // What the target has if this is a pair of a symmetric relationship.
    fn mirror(self) -> Option<Had> {
        match self.id {
            Id::Two(relationship, target) => Some(Had {
                holder: target,
                id: Id::Two(relationship, self.holder),
            }),
            Id::One(_) => None,
        }
    }
}

// Whether it goes with one of those who have the id.
fn is_about_any(list: &[Had], own: Had, id: Id) -> bool {
    for other in list {
        if other.id.is(id) && own.is_about(other.holder) {
            return true;
        }
    }
    false
}

/// What may be done to a world, and to such a list.
#[derive(Clone, Copy)]
pub enum Deed {
    Add(Had),
    Set(Had),
    Remove(Had),
    Clear(Entity),
    RemoveAll(Id),
    Delete(Entity),
    DeleteWith(Id),
}

impl Deed {
    /// What a command does, if that is any of these and no run of sets.
    pub fn of(command: &Recorded) -> Option<Deed> {
        match command {
            Recorded::Add(holder, id) => Some(Deed::Add(Had {
                holder: *holder,
                id: *id,
            })),
            Recorded::Remove(holder, id) => Some(Deed::Remove(Had {
                holder: *holder,
                id: *id,
            })),
            Recorded::Clear(entity) => Some(Deed::Clear(*entity)),
            Recorded::RemoveAll(id) => Some(Deed::RemoveAll(*id)),
            Recorded::Delete(entity) => Some(Deed::Delete(*entity)),
            Recorded::DeleteWith(id) => Some(Deed::DeleteWith(*id)),
            Recorded::Create(_)
            | Recorded::Set { .. }
            | Recorded::Turns { .. }
            | Recorded::Rename(_, _) => None,
        }
    }

    /// Does it to a world.
    pub fn apply(self, world: &mut World) -> Result<(), Refusal> {
        match self {
            Deed::Add(new) => world.add(new.holder, new.id),
            Deed::Set(new) => world.set(new.holder, new.id, Value::of([1])),
            Deed::Remove(old) => world.remove(old.holder, old.id),
            Deed::Clear(entity) => world.clear(entity),
            Deed::RemoveAll(id) => world.remove_all(id),
            Deed::Delete(entity) => world.delete(entity),
            Deed::DeleteWith(id) => world.delete_with(id),
        }
    }

    // Whether it takes this from the list, mirrors left aside. Nobody has a policy by whose delete others would die.
    fn takes(self, list: &[Had], own: Had) -> bool {
        match self {
            Deed::Add(_) | Deed::Set(_) => false,
            Deed::Remove(old) => own.is(old),
            Deed::Clear(entity) => own.holder.is(entity),
            Deed::RemoveAll(id) => own.id.is(id),
            Deed::Delete(entity) => own.is_about(entity),
            Deed::DeleteWith(id) => is_about_any(list, own, id),
        }
    }

    // Whether it takes this one's mirror.
    fn takes_mirror(self, list: &[Had], own: Had) -> bool {
        match own.mirror() {
            Some(mirror) => self.takes(list, mirror),
            None => false,
        }
    }
}

// Whether the entity has the id.
fn has(list: &[Had], holder: Entity, id: Id) -> bool {
    let wanted = Had { holder, id };
    for own in list {
        if own.is(wanted) {
            return true;
        }
    }
    false
}

// Whether it is a pair of a symmetric relationship.
fn is_symmetric(list: &[Had], id: Id) -> bool {
    match id {
        Id::Two(relationship, _) => has(list, relationship, Id::One(SYMMETRIC)),
        Id::One(_) => false,
    }
}

// What comes along with an id by a pair of With, if this is one that says so.
fn brought(id: Id, tie: Had) -> Option<Id> {
    let Id::Two(relationship, other) = tie.id else {
        return None;
    };
    if !relationship.is(WITH) {
        return None;
    }
    match id {
        Id::One(own) if own.is(tie.holder) => Some(Id::One(other)),
        Id::Two(own, target) if own.is(tie.holder) => Some(Id::Two(other, target)),
        _ => None,
    }
}

// The same of several ids that one id has brought: at most one of them is of the holder of the tie.
fn brought_by_any(ids: &[Id], tie: Had) -> Option<Id> {
    for id in ids {
        if let Some(other) = brought(*id, tie) {
            return Some(other);
        }
    }
    None
}

// Whether the id is among them.
fn is_among(ids: &[Id], id: Id) -> bool {
    for own in ids {
        if own.is(id) {
            return true;
        }
    }
    false
}

// Puts what these bring along behind them.
fn spread(list: &[Had], ids: &mut Vec<Id>) -> Result<(), AllocError> {
    for tie in list {
        if let Some(id) = brought_by_any(ids.as_slice(), *tie) {
            if !is_among(ids.as_slice(), id) {
                ids.push(id)?;
            }
        }
    }
    Ok(())
}

// Makes the ids this one and all that comes along.
fn close(list: &[Had], ids: &mut Vec<Id>, id: Id) -> Result<(), AllocError> {
    ids.clear();
    ids.push(id)?;
    for _ in 0..LONGEST {
        let count = ids.len();
        spread(list, ids)?;
        if ids.len() == count {
            break;
        }
    }
    Ok(())
}

// Whether it is a pair of the relationship.
fn is_pair_of(id: Id, relationship: Entity) -> bool {
    match id {
        Id::Two(own, _) => own.is(relationship),
        Id::One(_) => false,
    }
}

// Whether one of the ids is such a pair.
fn has_pair_of(ids: &[Id], relationship: Entity) -> bool {
    for id in ids {
        if is_pair_of(*id, relationship) {
            return true;
        }
    }
    false
}

// Whether the pair gives way to one of those that come: its relationship is exclusive.
fn gives_way(list: &[Had], coming: &[Id], own: Id) -> bool {
    let Id::Two(relationship, _) = own else {
        return false;
    };
    has(list, relationship, Id::One(EXCLUSIVE))
        && !is_among(coming, own)
        && has_pair_of(coming, relationship)
}

// Puts it into the list, where it isn't there.
fn put(list: &mut Vec<Had>, new: Had) -> Result<(), AllocError> {
    if !has(list.as_slice(), new.holder, new.id) {
        list.push(new)?;
    }
    Ok(())
}

// Copies into the new list what stays where these come to the holder, and then puts them there.
fn gain(list: &[Had], new: &mut Vec<Had>, holder: Entity, coming: &[Id]) -> Result<(), AllocError> {
    for own in list {
        if !own.holder.is(holder) || !gives_way(list, coming, own.id) {
            new.push(*own)?;
        }
    }
    for id in coming {
        put(new, Had { holder, id: *id })?;
    }
    Ok(())
}

// Copies into the new list what stays where the deed is done: all but what it takes, each with its mirror.
fn lose(list: &[Had], new: &mut Vec<Had>, deed: Deed) -> Result<(), AllocError> {
    for own in list {
        if !deed.takes(list, *own)
            && !(is_symmetric(list, own.id) && deed.takes_mirror(list, *own))
        {
            new.push(*own)?;
        }
    }
    Ok(())
}

/// A list, what it is once a deed is done, and room for what an id brings along.
#[derive(Drop)]
pub struct PlainList {
    pub now: Vec<Had>,
    pub next: Vec<Had>,
    coming: Vec<Id>,
}

impl PlainList {
    /// Nobody has anything.
    pub fn new(alloc: Global) -> PlainList {
        PlainList {
            now: Vec::new(alloc),
            next: Vec::new(alloc),
            coming: Vec::new(alloc),
        }
    }

    // Makes the next list the one where one more has come, with all that comes along, and the mirror.
    fn add(&mut self, new: Had) -> Result<(), AllocError> {
        if has(&self.now, new.holder, new.id) {
            return self.next.extend_from_slice(&self.now);
        }
        close(&self.now, &mut self.coming, new.id)?;
        gain(&self.now, &mut self.next, new.holder, &self.coming)?;
        match new.mirror() {
            Some(mirror) if is_symmetric(&self.now, new.id) => put(&mut self.next, mirror),
            _ => Ok(()),
        }
    }

    /// Makes the next list the one where the deed is done.
    pub fn foresee(&mut self, deed: Deed) -> Result<(), AllocError> {
        self.next.clear();
        match deed {
            Deed::Add(new) | Deed::Set(new) => self.add(new),
            _ => lose(&self.now, &mut self.next, deed),
        }
    }

    /// The deed is done: the next list is the one that holds now.
    pub fn accept(&mut self) {
        mem::swap(&mut self.now, &mut self.next);
    }
}

// Whether this keeps the entity from being symmetric.
fn bars(own: Had, entity: Entity) -> bool {
    match own.id {
        Id::One(own_trait) => {
            own.holder.is(entity) && (own_trait.is(EXCLUSIVE) || own_trait.is(ACYCLIC))
        }
        Id::Two(relationship, other) => {
            relationship.is(WITH) && (own.holder.is(entity) || other.is(entity))
        }
    }
}

// Whether anything in the list does so.
fn is_barred(list: &[Had], entity: Entity) -> bool {
    for own in list {
        if bars(*own, entity) {
            return true;
        }
    }
    false
}

/// Whether somebody is symmetric who may not be.
pub fn clashes(list: &[Had]) -> bool {
    for own in list {
        if own.id.is(Id::One(SYMMETRIC)) && is_barred(list, own.holder) {
            return true;
        }
    }
    false
}

// How many ids the entity has in the list.
fn count_had(list: &[Had], entity: Entity) -> usize {
    let mut count = 0usize;
    for own in list {
        if own.holder.is(entity) {
            count = count.saturating_add(1);
        }
    }
    count
}

// Whether the entity has all of these in the list.
fn has_all(list: &[Had], entity: Entity, ids: &[Id]) -> bool {
    for id in ids {
        if !has(list, entity, *id) {
            return false;
        }
    }
    true
}

// Whether each of these has in the world just what it has in the list.
fn have_just(world: &World, list: &[Had], living: &[Entity]) -> bool {
    for entity in living {
        let ids = world.ids_of(*entity);
        if ids.len() != count_had(list, *entity) || !has_all(list, *entity, ids) {
            return false;
        }
    }
    true
}

// Whether it is so of all who were made.
fn are_just(world: &World, list: &[Had]) -> bool {
    match world.living() {
        Ok(living) => have_just(world, list, living.get(BUILT_IN..).unwrap_or(&[])),
        Err(_) => false,
    }
}

// Whether nobody dead is in the list.
fn are_alive(world: &World, list: &[Had]) -> bool {
    for own in list {
        if !world.is_alive(own.holder) {
            return false;
        }
    }
    true
}

/// Whether all who were made have in the world just what they have in the list, and nobody dead is in it.
pub fn agrees(world: &World, list: &[Had]) -> bool {
    are_alive(world, list) && are_just(world, list)
}
