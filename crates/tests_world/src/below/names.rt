//! Many names are in use, so that some find their bucket full.
use eco_entities::EntityIndex;
use eco_ids::Entity;
use std::alloc::{AllocError, Global};

// So many that there are four for each of 256 buckets, of which some are full.
const MANY: u32 = 1024;

// The name of this number.
fn name_of(alloc: Global, number: u32) -> Result<String, AllocError> {
    format!(in alloc; "entity_{number}")
}

// Whether the names, those of even numbers alone or all, are given to the entities that are made next: those of the same
// indices at a generation.
fn are_given(index: &mut EntityIndex, alloc: Global, even_alone: bool, generation: u16) -> bool {
    for number in 0..MANY {
        if even_alone && number % 2 == 1 {
            continue;
        }
        let made = match name_of(alloc, number) {
            Ok(name) => index.create(Some(name.as_str()), None).ok(),
            Err(_) => None,
        };
        let expected = Entity {
            index: number,
            generation,
        };
        if made != Some(expected) {
            return false;
        }
    }
    true
}

// Whether the name of a number finds an entity of this index at the generation, or nobody.
fn finds(index: &EntityIndex, alloc: Global, number: u32, generation: Option<u16>) -> bool {
    let expected = generation.map(|generation| Entity {
        index: number,
        generation,
    });
    match name_of(alloc, number) {
        Ok(name) => index.lookup(name.as_str()) == expected,
        Err(_) => false,
    }
}

// Whether each even number's name finds its index at the one generation, or nobody, and each odd number's at the first.
fn all_find(index: &EntityIndex, alloc: Global, even: Option<u16>) -> bool {
    for number in 0..MANY {
        let generation = if number % 2 == 0 { even } else { Some(0) };
        if !finds(index, alloc, number, generation) {
            return false;
        }
    }
    true
}

// Kills the entities of even indices, at their first generation.
fn kill_even(index: &mut EntityIndex) {
    for number in (0..MANY).step_by(2) {
        let entity = Entity {
            index: number,
            generation: 0,
        };
        if index.is_alive(entity) {
            index.kill(entity);
        }
    }
}

// Whether the entities of odd indices take other names, which find them, while their old ones find nobody.
fn are_renamed(index: &mut EntityIndex, alloc: Global) -> bool {
    for number in (1..MANY).step_by(2) {
        let entity = Entity {
            index: number,
            generation: 0,
        };
        let is_found = match format!(in alloc; "renamed_{number}") {
            Ok(name) => {
                index.rename(entity, Some(name.as_str())).is_ok()
                    && index.lookup(name.as_str()) == Some(entity)
            }
            Err(_) => false,
        };
        if !is_found || !finds(index, alloc, number, None) {
            return false;
        }
    }
    true
}

// Whether names are found, given up, given again and changed, also in a copy.
fn are_kept_apart(alloc: Global) -> bool {
    let mut index = EntityIndex::new(alloc, MANY);
    if !are_given(&mut index, alloc, false, 0) || !all_find(&index, alloc, Some(0)) {
        return false;
    }
    let Ok(copy) = index.try_copy() else {
        return false;
    };
    kill_even(&mut index);
    let are_free = all_find(&index, alloc, None);
    let are_given_again = are_given(&mut index, alloc, true, 1);
    are_free
        && are_given_again
        && all_find(&index, alloc, Some(1))
        && are_renamed(&mut index, alloc)
        && all_find(&copy, alloc, Some(0))
}

#[test]
fn many_names_are_kept_apart(rt: HostRuntime) {
    assert!(rt; are_kept_apart(rt.alloc()));
}
