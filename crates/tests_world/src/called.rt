//! Calls that may want memory and that no step of a script makes: each answers what its row says, where there is enough.
use crate::handles::at;
use eco_ids::entity::{EXCLUSIVE, PANIC, WITH};
use eco_ids::{Edition, Entity, Id, Part, Pattern, Refusal, TypeList};
use eco_query::Query;
use eco_store::{Seed, Store};
use eco_traits::{Target, target_type};
use eco_world::{TableRows, World};
use std::alloc::{AllocError, Global};

// `Position` is #9.0, a component, `Frozen` #10.0 and `Likes` #11.0.
fn make(world: &mut World) -> Result<(), Refusal> {
    world.component(Some("Position"), 2)?;
    world.create(Some("Frozen"))?;
    world.create(Some("Likes"))?;
    Ok(())
}

// Puts a query behind its canonical text, and then its slots and their terms, as they print.
fn push_query(shown: &mut String, query: &Query) -> Result<(), AllocError> {
    write!(shown, "; {query}")?;
    for slot in query.slots() {
        let term = &slot.term;
        write!(shown, "; {slot}; {term}")?;
    }
    Ok(())
}

// Whether the canonical text of a query, and what is put behind it, are this text.
fn is_shown(alloc: Global, query: &Query, expected: &str) -> bool {
    match query.canonical_text(alloc) {
        Ok(mut shown) => push_query(&mut shown, query).is_ok() && shown.as_str() == expected,
        Err(_) => false,
    }
}

/// A query, and how it is shown.
const SHOWN: [(&str, &str); 2] = [
    (
        "[in]Position,! Frozen , (Likes,*)",
        "[in] #9.0, !#10.0, (#11.0, *); [in] #9.0, !#10.0, (#11.0, *); [in] #9.0; #9.0; !#10.0; !#10.0; (#11.0, *); (#11.0, *)",
    ),
    (
        "[out]\tPosition, ?Frozen,[none] Frozen||Likes",
        "[out] #9.0, ?#10.0, [none] #10.0 || #11.0; [out] #9.0, ?#10.0, [none] #10.0 || #11.0; [out] #9.0; #9.0; ?#10.0; ?#10.0; [none] #10.0 || #11.0; #10.0 || #11.0",
    ),
];

// Whether a query is shown so in this world.
fn shows(alloc: Global, world: &World, (text, expected): (&str, &str)) -> bool {
    match world.read_query(text) {
        Ok(query) => is_shown(alloc, &query, expected),
        Err(_) => false,
    }
}

// Puts these tables behind a text: the ids of each, and how many entities it has.
fn list(text: &mut String, tables: &[TableRows<'_>]) -> Result<(), AllocError> {
    for table in tables {
        for id in table.ids {
            write!(text, "{id} ")?;
        }
        let count = table.entities.len();
        write!(text, "has {count}; ")?;
    }
    Ok(())
}

// Whether the tables are listed so.
fn are_listed(alloc: Global, tables: &[TableRows<'_>], expected: &str) -> bool {
    let mut text = String::new(alloc);
    list(&mut text, tables).is_ok() && text.as_str() == expected
}

// Whether the tables of this world with an id that the pattern matches are listed so.
fn lists(alloc: Global, world: &World, pattern: Pattern, expected: &str) -> bool {
    match world.tables_with(pattern) {
        Ok(tables) => are_listed(alloc, &tables, expected),
        Err(_) => false,
    }
}

// Whether each query is shown and tables are listed so in a world with a component and two tags.
fn shows_all(alloc: Global, world: &mut World) -> bool {
    let panics = Pattern::Two(Part::Each, Part::Is(PANIC));
    make(world).is_ok()
        && shows(alloc, world, SHOWN[0])
        && shows(alloc, world, SHOWN[1])
        && lists(
            alloc,
            world,
            Pattern::One(EXCLUSIVE),
            "#1.0 has 2; #1.0 #2.0 (#5.0, #7.0) has 1; ",
        )
        && lists(alloc, world, panics, "(#4.0, #8.0) has 1; ")
}

// Whether it is so in a new world.
fn are_shown(alloc: Global) -> bool {
    match World::new(alloc, 64) {
        Ok(mut world) => shows_all(alloc, &mut world),
        Err(_) => false,
    }
}

// With makes the second id of the first: the first, and an entity.
fn bind(world: &mut World) -> Result<(Entity, Entity), Refusal> {
    let power = world.create(Some("Power"))?;
    let resp = world.create(Some("Resp"))?;
    let entity = world.create(Some("e"))?;
    world.add(power, Id::Two(WITH, resp))?;
    Ok((power, entity))
}

// Where an add leads that With makes one of two ids.
fn lead(alloc: Global, world: &mut World) -> Result<Target, Refusal> {
    let (power, entity) = bind(world)?;
    // Of a world of any edition it is asked that it is in order.
    world.is_lawful();
    if world.is_alive(entity) {
        return target_type(alloc, world, entity, Id::One(power));
    }
    Err(Refusal::NotAlive)
}

// Whether it leads to the type of both.
fn leads_to_both(alloc: Global, world: &mut World) -> bool {
    match lead(alloc, world) {
        Ok(Target::Other(ids)) => ids.as_slice() == [Id::One(at(9)), Id::One(at(10))].as_slice(),
        _ => false,
    }
}

// Whether it does so in a new world.
fn brings_along(alloc: Global) -> bool {
    match World::new(alloc, 64) {
        Ok(mut world) => leads_to_both(alloc, &mut world),
        Err(_) => false,
    }
}

// Makes an entity that has a tag, and tells whether it alone holds the tag, and nobody holds it.
fn holds_alone(store: &mut Store, tag: Entity, tagged: &TypeList) -> Result<bool, Refusal> {
    let holder = store.create(None, None, tagged)?;
    let holders = store.entities_with(Pattern::One(tag))?;
    Ok(holders.as_slice() == [holder].as_slice() && !store.is_named(holder))
}

// Whether an entity that is made with a tag does so.
fn tag_is_held(store: &mut Store, tag: Entity, nothing: &TypeList) -> bool {
    match nothing.with(Id::One(tag)) {
        Ok(tagged) => holds_alone(store, tag, &tagged) == Ok(true),
        Err(_) => false,
    }
}

// Whether it does so in a new store.
fn one_holds(alloc: Global) -> bool {
    let mut store = Store::new(alloc, 16, Seed::new(0));
    let nothing = TypeList::empty(alloc);
    match store.create(None, None, &nothing) {
        Ok(tag) => tag_is_held(&mut store, tag, &nothing),
        Err(_) => false,
    }
}

// Whether a target that the holder gets is found by its pair.
fn finds_target(world: &mut World, likes: Entity, holder: Entity) -> Result<bool, Refusal> {
    let target = world.create(None)?;
    world.add(holder, Id::Two(likes, target))?;
    let pair = Pattern::Two(Part::Is(likes), Part::Is(target));
    Ok(world.tables_with(pair)?.len() == 1)
}

// Whether each of eight targets that an entity gets, one after another, is found.
fn finds_targets(world: &mut World) -> Result<bool, Refusal> {
    let likes = world.create(None)?;
    let holder = world.create(None)?;
    let mut finds = true;
    for _ in 0..8 {
        finds &= finds_target(world, likes, holder)?;
    }
    Ok(finds)
}

// Whether it is so in a world with this seed.
fn finds_by_seed(alloc: Global, seed: u64) -> bool {
    match World::seeded(alloc, Edition::First, 32, seed) {
        Ok(mut world) => finds_targets(&mut world) == Ok(true),
        Err(_) => false,
    }
}

#[test]
fn queries_and_tables_are_shown(rt: HostRuntime) {
    assert!(rt; are_shown(rt.alloc()));
}

#[test]
fn an_add_leads_to_what_with_brings_along(rt: HostRuntime) {
    assert!(rt; brings_along(rt.alloc()));
}

#[test]
fn who_has_a_tag_holds_it(rt: HostRuntime) {
    assert!(rt; one_holds(rt.alloc()));
}

#[test]
fn a_seed_changes_no_answer(rt: HostRuntime) {
    assert!(rt; finds_by_seed(rt.alloc(), 0));
    assert!(rt; finds_by_seed(rt.alloc(), 1));
    assert!(rt; finds_by_seed(rt.alloc(), 0x9e37_79b9_7f4a_7c15));
}
