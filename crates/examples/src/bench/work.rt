//! What calls are about: entities, and an id for each.
use crate::bench::group::{Group, Ids};
use eco_ids::{Entity, Id};
use std::alloc::{AllocError, Global};

/// The ids of calls. One that all calls have stands once, so that it costs no memory for each.
enum WorkIds {
    Same(Id),
    Ones(Vec<Entity>),
    Twos(Vec<Entity>, Vec<Entity>),
    // Pairs of one relationship.
    Targets(Entity, Vec<Entity>),
}

// By hand, so that dropping it is one call: a derived drop is proved anew at each early return of whoever holds it.
impl Drop for WorkIds {
    fn drop(self) {
        match self {
            WorkIds::Same(_) => (),
            WorkIds::Ones(_) => (),
            WorkIds::Twos(_, _) => (),
            WorkIds::Targets(_, _) => (),
        }
    }
}

// The entities of a group in the order of so many turns.
fn turns(alloc: Global, group: Group, count: u32) -> Result<Vec<Entity>, AllocError> {
    let mut list = Vec::with_capacity(alloc, count as usize)?;
    for turn in 0..count {
        list.push(group.at(turn))?;
    }
    Ok(list)
}

impl WorkIds {
    // The ids of so many turns.
    fn of(alloc: Global, ids: Ids, count: u32) -> Result<WorkIds, AllocError> {
        match ids {
            Ids::Ones(ones) if ones.is_alone() => Ok(WorkIds::Same(Id::One(ones.at(0)))),
            Ids::Ones(ones) => Ok(WorkIds::Ones(turns(alloc, ones, count)?)),
            Ids::Twos(first, second) if first.is_alone() && second.is_alone() => {
                Ok(WorkIds::Same(Id::Two(first.at(0), second.at(0))))
            }
            Ids::Twos(first, second) if first.is_alone() => {
                Ok(WorkIds::Targets(first.at(0), turns(alloc, second, count)?))
            }
            Ids::Twos(first, second) => Ok(WorkIds::Twos(
                turns(alloc, first, count)?,
                turns(alloc, second, count)?,
            )),
        }
    }
}

/// Entities and an id for each, in the order of the calls. As in a program that works on lists of handles, a call has a handle of eight
/// bytes, and another where the ids differ.
pub struct Work {
    entities: Vec<Entity>,
    ids: WorkIds,
}

// By hand, so that dropping it is one call: a derived drop is proved anew at each early return of whoever holds it.
impl Drop for Work {
    fn drop(self) {
        let Work {
            entities: _,
            ids: _,
        } = self;
    }
}

impl Work {
    /// No call.
    pub fn none(alloc: Global) -> Work {
        Work {
            entities: Vec::new(alloc),
            ids: WorkIds::Ones(Vec::new(alloc)),
        }
    }

    /// So many calls about the entities and the ids, each at its turn.
    pub fn of(alloc: Global, count: u32, group: Group, ids: Ids) -> Result<Work, AllocError> {
        Ok(Work {
            entities: turns(alloc, group, count)?,
            ids: WorkIds::of(alloc, ids, count)?,
        })
    }

    /// The calls in the opposite order.
    pub fn reverse(&mut self) {
        self.entities.reverse();
        match &mut self.ids {
            WorkIds::Same(_) => (),
            WorkIds::Ones(ones) => ones.reverse(),
            WorkIds::Twos(relationships, targets) => {
                relationships.reverse();
                targets.reverse();
            }
            WorkIds::Targets(_, targets) => targets.reverse(),
        }
    }

    /// The entities.
    pub fn entities(&self) -> &[Entity] {
        &self.entities
    }

    /// The id that all calls have, where it is one.
    pub fn same_id(&self) -> Option<Id> {
        match &self.ids {
            WorkIds::Same(id) => Some(*id),
            _ => None,
        }
    }

    /// The id of the call at a turn, if there is one.
    #[inline(always)]
    pub fn id(&self, turn: usize) -> Option<Id> {
        match &self.ids {
            WorkIds::Same(id) => Some(*id),
            WorkIds::Ones(ones) => Some(Id::One(*ones.get(turn)?)),
            WorkIds::Twos(relationships, targets) => {
                Some(Id::Two(*relationships.get(turn)?, *targets.get(turn)?))
            }
            WorkIds::Targets(relationship, targets) => {
                Some(Id::Two(*relationship, *targets.get(turn)?))
            }
        }
    }
}
