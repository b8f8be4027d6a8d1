//! Entities with the places of their tables: all of one table, or of several.
ghost use Rattle.std.specs.Prelude.{◌≡◌, ◌==◌, ◌<◌, ◌∷◌, [], length, map, option_map, slice_get, IsTrue, Some};
ghost use Rattle.std.specs.Iterator.{at_most};
ghost use Rattle.std.specs.Map.Iter.{TakesFirst};
ghost use Rattle.eco_store.specs.Ranking.{in_first};

use crate::standing::Standing;
use eco_ids::Entity;
use std::alloc::Global;
use std::marker::Model;
use std::slice;

/// Entities, each with the place of its table among some. A contract sees the list of them. Where all stand in the first
/// table, they are kept without their places, in half the memory, and one who stands there alone takes none.
#[derive(Debug)]
pub struct Ranked {
    list: Ranks,
}

#[derive(Debug, Drop)]
enum Ranks {
    // All stand in the first table.
    Alone(Vec<Entity>),
    // So does the only one.
    Only(Entity),
    Among(Vec<Standing>),
}

// By hand, so that dropping it is one call: a derived drop is proved anew at each early return of whoever holds it.
impl Drop for Ranked {
    fn drop(self) {
        let Ranked { list: _ } = self;
    }
}

impl Model for Ranked {
    ghost use Rattle.std.specs.Prelude.{List};
    ghost use Rattle.eco_store.specs.declared.standing.Standing.{Standing as Stands};

    ghost Value = { List Stands };

    ghost use Rattle.eco_store.specs.Ranked.{standing_ones};

    ghost view = { λ r. standing_ones r.list };
}

impl Ranked {
    /// Nobody.
    pub fn none(alloc: Global) -> Ranked
        ensures { length result ≡ 0 }
    {
        Ranked::alone(Vec::new(alloc))
    }

    /// These, all of whom stand in the first table.
    pub fn alone(entities: Vec<Entity>) -> Ranked
        ensures { result ≡ map in_first entities.items }
    {
        Ranked {
            list: Ranks::Alone(entities),
        }
    }

    /// The only one, who stands in the first table.
    pub fn only(entity: Entity) -> Ranked
        ensures { result ≡ in_first entity ∷ [] }
    {
        Ranked {
            list: Ranks::Only(entity),
        }
    }

    /// These, each in the table at its place.
    pub fn among(standings: Vec<Standing>) -> Ranked
        ensures { result ≡ standings.items }
    {
        Ranked {
            list: Ranks::Among(standings),
        }
    }

    /// How many there are.
    pub fn len(&self) -> usize
        ensures { result ≡ length self.now }
    {
        match &self.list {
            Ranks::Alone(entities) => entities.len(),
            Ranks::Only(_) => 1,
            Ranks::Among(standings) => standings.len(),
        }
    }

    /// Whether there is nobody.
    pub fn is_empty(&self) -> bool
        ensures { result ≡ (length self.now == 0) }
    {
        self.len() == 0
    }

    /// One of them, and the place of its table.
    #[inline]
    pub fn get(&self, place: usize) -> Standing
        requires { place < length self.now }
        ensures { slice_get self.now place ≡ Some result }
    {
        match &self.list {
            Ranks::Alone(entities) => in_first(entities[place]),
            Ranks::Only(entity) => in_first(*entity),
            Ranks::Among(standings) => standings[place],
        }
    }

    /// Whether two of them stand in one table. Where all stand in the first, nothing is looked up.
    #[inline]
    pub fn share_table(&self, one: usize, other: usize) -> bool
        requires one { one < length self.now }
        requires other { other < length self.now }
        ensures { IsTrue result → option_map (λ s. s.place) (slice_get self.now one)
            ≡ option_map (λ s. s.place) (slice_get self.now other) }
    {
        match &self.list {
            Ranks::Alone(_) => true,
            _ => self.get(one).place == self.get(other).place,
        }
    }

    /// All of them, in their order.
    pub fn iter(&self) -> RankedIter<'_>
        ensures { result ≡ self.now }
    {
        let rest = match &self.list {
            Ranks::Alone(entities) => Rest::Alone(entities.iter()),
            Ranks::Only(entity) => Rest::Alone(slice::from_ref(entity).iter()),
            Ranks::Among(standings) => Rest::Among(standings.iter()),
        };
        RankedIter { rest }
    }
}

// An entity in the first table.
#[inline]
fn in_first(entity: Entity) -> Standing
    ensures { result ≡ in_first entity }
{
    Standing { entity, place: 0 }
}

/// Those that are left of some. A contract sees the list of them.
#[derive(Drop)]
pub struct RankedIter<'a> {
    rest: Rest<'a>,
}

#[derive(Drop)]
enum Rest<'a> {
    Alone(slice::Iter<'a, Entity>),
    Among(slice::Iter<'a, Standing>),
}

impl<'a> Model for RankedIter<'a> {
    ghost use Rattle.std.specs.Prelude.{List};
    ghost use Rattle.eco_store.specs.declared.standing.Standing.{Standing as Stands};

    ghost Value = { List Stands };

    ghost use Rattle.eco_store.specs.Ranked.{left_ones};

    ghost view = { λ i. left_ones i.rest };
}

impl<'a> Iterator for RankedIter<'a> {
    type Item = Standing;

    ghost next_gives = { TakesFirst (λ s. s) };

    ghost remaining = { λ s. at_most (length s) };

    #[inline]
    fn next(&mut self) -> Option<Standing> {
        match &mut self.rest {
            Rest::Alone(entities) => {
                let entity = entities.next()?;
                Some(in_first(*entity))
            }
            Rest::Among(standings) => {
                let standing = standings.next()?;
                Some(*standing)
            }
        }
    }
}
