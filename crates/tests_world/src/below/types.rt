//! Type lists, shorter and longer than what a list keeps inline.
use eco_ids::{Entity, Id, TypeList};
use std::alloc::{AllocError, Global};
use std::collections::HashMap;

// The id that names the entity at an index, at generation 0.
fn id(index: u32) -> Id {
    Id::One(Entity {
        index,
        generation: 0,
    })
}

// The list of the ids at so many indices.
fn first_ids(alloc: Global, count: u32) -> Result<TypeList, AllocError> {
    let mut list = TypeList::empty(alloc);
    for index in 0..count {
        list = list.with(id(index))?;
    }
    Ok(list)
}

// Puts its length at the list of so many ids, and tells whether that was done.
fn put(alloc: Global, numbers: &mut HashMap<TypeList, u32>, count: u32) -> bool {
    match first_ids(alloc, count) {
        Ok(list) => numbers.insert(list, count).is_ok(),
        Err(_) => false,
    }
}

// Puts eight lists into the map, each with its length.
fn put_all(alloc: Global, numbers: &mut HashMap<TypeList, u32>) -> bool {
    let mut are_put = true;
    for count in 1..9 {
        are_put &= put(alloc, numbers, count);
    }
    are_put
}

// Whether the number is found for a copy of the list.
fn finds_copy(numbers: &HashMap<TypeList, u32>, list: &TypeList, count: u32) -> bool {
    match list.try_copy() {
        Ok(copy) => numbers.get(&copy).copied() == Some(count),
        Err(_) => false,
    }
}

// Whether nothing is found for the list without its first id.
fn finds_no_shorter(numbers: &HashMap<TypeList, u32>, list: &TypeList) -> bool {
    match list.without(id(0)) {
        Ok(shorter) => numbers.get(&shorter).is_none(),
        Err(_) => false,
    }
}

// Whether it is so of the list of so many ids.
fn is_found(alloc: Global, numbers: &HashMap<TypeList, u32>, count: u32) -> bool {
    match first_ids(alloc, count) {
        Ok(list) => finds_copy(numbers, &list, count) && finds_no_shorter(numbers, &list),
        Err(_) => false,
    }
}

// Whether it is so of each of the eight lists.
fn are_found(alloc: Global, numbers: &HashMap<TypeList, u32>) -> bool {
    let mut are_found = true;
    for count in 1..9 {
        are_found &= is_found(alloc, numbers, count);
    }
    are_found
}

// Whether all are put and found in a new map.
fn serve(alloc: Global) -> bool {
    let mut numbers: HashMap<TypeList, u32> = HashMap::new(alloc);
    put_all(alloc, &mut numbers) && are_found(alloc, &numbers)
}

#[test]
fn types_serve_as_keys(rt: HostRuntime) {
    assert!(rt; serve(rt.alloc()));
}
