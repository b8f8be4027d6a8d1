//! Deeds that look random, most of them about pairs of relationships that are symmetric.
use crate::draws::RandomDraws;
use crate::handles::at;
use crate::plain::{Deed, Had};
use eco_ids::entity::{ACYCLIC, DELETE, EXCLUSIVE, SYMMETRIC, WITH};
use eco_ids::{Entity, Id};

/// The first index behind the built-ins.
pub const FIRST: u32 = 10;

// Who stands at this place of the living, or somebody who may be dead.
fn made_at(living: &[Entity], place: u32) -> Entity {
    match living.get(place as usize) {
        Some(entity) => *entity,
        None => at(place),
    }
}

// One of the first twelve who are no built-ins.
fn draw_entity(draws: &mut RandomDraws, living: &[Entity]) -> Entity {
    made_at(living, FIRST + draws.below(12))
}

// One of the first four, who serve as relationships.
fn draw_relationship(draws: &mut RandomDraws, living: &[Entity]) -> Entity {
    made_at(living, FIRST + draws.below(4))
}

/// A trait: mostly Symmetric.
pub fn draw_trait(draws: &mut RandomDraws, living: &[Entity]) -> Id {
    match draws.below(6) {
        0..=2 => Id::One(SYMMETRIC),
        3 => Id::One(EXCLUSIVE),
        4 => Id::One(ACYCLIC),
        _ => Id::Two(WITH, draw_relationship(draws, living)),
    }
}

/// A pair, now and then with a built-in, or a tag.
pub fn draw_id(draws: &mut RandomDraws, living: &[Entity]) -> Id {
    match draws.below(8) {
        0 => Id::One(draw_entity(draws, living)),
        1 => Id::Two(draw_relationship(draws, living), DELETE),
        _ => Id::Two(draw_relationship(draws, living), draw_entity(draws, living)),
    }
}

/// A deed to the living, or to a relationship and its traits.
pub fn draw_deed(draws: &mut RandomDraws, living: &[Entity]) -> Deed {
    let relationship = draw_relationship(draws, living);
    let holder = draw_entity(draws, living);
    let id = draw_id(draws, living);
    match draws.below(23) {
        0..=9 => Deed::Add(Had { holder, id }),
        10..=11 => Deed::Set(Had { holder, id }),
        12..=14 => Deed::Remove(Had { holder, id }),
        15 => Deed::Clear(holder),
        16 => Deed::RemoveAll(id),
        17..=18 => Deed::Delete(holder),
        19 => Deed::DeleteWith(id),
        20..=21 => Deed::Add(Had {
            holder: relationship,
            id: draw_trait(draws, living),
        }),
        _ => Deed::Remove(Had {
            holder: relationship,
            id: draw_trait(draws, living),
        }),
    }
}
