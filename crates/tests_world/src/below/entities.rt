//! Entities come and go.
use eco_entities::EntityIndex;
use eco_ids::Entity;
use std::alloc::Global;

// The entity at an index, at a generation.
fn at(index: u32, generation: u16) -> Entity {
    Entity { index, generation }
}

// Who is made next; nobody, where that is refused.
fn next(index: &mut EntityIndex, name: Option<&str>) -> Option<Entity> {
    index.create(name, None).ok()
}

// Kills an entity that is living.
fn kill(index: &mut EntityIndex, entity: Entity) {
    if index.is_alive(entity) {
        index.kill(entity);
    }
}

// Whether indices are admitted and made living, and names are given.
fn are_made(index: &mut EntityIndex) -> bool {
    index.admit(2).is_ok()
        && index.make_alive(at(1, 0)).is_ok()
        && index.rename(at(1, 0), Some("b")).is_ok()
        && next(index, Some("a")) == Some(at(0, 0))
}

// Whether all is made, and an index is used again once its entity is killed.
fn is_used_again(alloc: Global) -> bool {
    let mut index = EntityIndex::new(alloc, 3);
    let is_made = are_made(&mut index);
    kill(&mut index, at(0, 0));
    is_made && next(&mut index, None) == Some(at(0, 1))
}

#[test]
fn each_call_succeeds(rt: HostRuntime) {
    assert!(rt; is_used_again(rt.alloc()));
}

// Whether a copy knows names and indices, and goes its own way.
fn is_copied(alloc: Global) -> bool {
    let mut index = EntityIndex::new(alloc, 3);
    let is_made = are_made(&mut index);
    match index.try_copy() {
        Ok(mut copy) => is_made
            && copy.name(at(1, 0)) == Some("b")
            && copy.lookup("a") == Some(at(0, 0))
            && next(&mut copy, None) == Some(at(2, 0))
            && !index.is_alive(at(2, 0)),
        Err(_) => false,
    }
}

#[test]
fn a_copy_goes_its_own_way(rt: HostRuntime) {
    assert!(rt; is_copied(rt.alloc()));
}

// Whether the entities made next are those of one generation at these indices.
fn come_next(index: &mut EntityIndex, indices: &[u32], generation: u16) -> bool {
    for expected in indices {
        if next(index, None) != Some(at(*expected, generation)) {
            return false;
        }
    }
    true
}

// Whether the entities made next are those at the first indices.
fn come_in_order(index: &mut EntityIndex, count: u32) -> bool {
    for expected in 0..count {
        if next(index, None) != Some(at(expected, 0)) {
            return false;
        }
    }
    true
}

// Whether the lowest of many free indices is used first.
fn lowest_comes_first(alloc: Global) -> bool {
    let mut index = EntityIndex::new(alloc, 5000);
    let is_admitted = index.admit(4096).is_ok();
    let are_made = come_in_order(&mut index, 5000);
    for killed in [4999, 4096, 63, 4095] {
        kill(&mut index, at(killed, 0));
    }
    is_admitted && are_made && come_next(&mut index, &[63, 4095, 4096, 4999], 1)
}

#[test]
fn the_lowest_of_many_free_indices_comes_first(rt: HostRuntime) {
    assert!(rt; lowest_comes_first(rt.alloc()));
}

// Whether an index is used at each generation, and not again.
fn retires(alloc: Global) -> bool {
    let mut index = EntityIndex::new(alloc, 1);
    for generation in 0..=u16::MAX {
        if next(&mut index, None) != Some(at(0, generation)) {
            return false;
        }
        kill(&mut index, at(0, generation));
    }
    next(&mut index, None).is_none()
}

#[test]
fn the_last_generation_retires_its_index(rt: HostRuntime) {
    assert!(rt; retires(rt.alloc()));
}
