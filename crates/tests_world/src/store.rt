//! Each call of a store that may want memory and that a world does not make.
use eco_ids::{Entity, Id, Pattern, Refusal, TypeList};
use eco_store::{AllOf, Move, Seed, Store};
use std::alloc::{AllocError, Global};

const TAG: Entity = Entity {
    index: 0,
    generation: 0,
};

const HOLDER: Entity = Entity {
    index: 1,
    generation: 0,
};

const NOBODY: Entity = Entity {
    index: 9,
    generation: 0,
};

// The type of who has the tag, and the holder as an id.
fn tagged(alloc: Global) -> Result<TypeList, AllocError> {
    TypeList::empty(alloc)
        .with(Id::One(TAG))?
        .with(Id::One(HOLDER))
}

// Makes two entities without ids, admits an index, and makes the entity living that is there.
fn fill(store: &mut Store, nothing: &TypeList) -> Result<(), Refusal> {
    store.create(None, None, nothing)?;
    store.create(None, None, nothing)?;
    store.admit(1)?;
    store.make_alive(Entity {
        index: 2,
        generation: 0,
    })?;
    store.rename(TAG, Some("Tag"))
}

// How many tables there are before these moves, and how many behind them.
fn moved(store: &mut Store, moves: &[Move]) -> Result<[usize; 2], AllocError> {
    let before = store.tables().len();
    store.retype_all(moves)?;
    Ok([before, store.tables().len()])
}

// Whether a table comes where the holder gets this type. Nobody has the other handle, which goes nowhere, and leaves no table behind.
fn moves_to(store: &mut Store, tagged: TypeList) -> bool {
    match tagged.without(Id::One(TAG)) {
        Ok(other) => {
            let moves = [
                Move {
                    entity: HOLDER,
                    type_list: tagged,
                },
                Move {
                    entity: NOBODY,
                    type_list: other,
                },
            ];
            moved(store, &moves) == Ok([1, 2])
        }
        Err(_) => false,
    }
}

// Whether a table comes where the holder gets the tag.
fn is_moved(alloc: Global, store: &mut Store) -> bool {
    match tagged(alloc) {
        Ok(tagged) => moves_to(store, tagged),
        Err(_) => false,
    }
}

// How many tables, entities and types have the tag, and how many tables have both ids.
fn found(store: &Store) -> Result<[usize; 4], AllocError> {
    let pattern = Pattern::One(TAG);
    let both = AllOf {
        first: pattern,
        others: &[Pattern::One(HOLDER)],
    };
    let tables = store.tables_by(&pattern)?.slots.len();
    let entities = store.entities_with(pattern)?.len();
    let types = store.types_with(pattern)?.len();
    let tables_of_both = store.tables_by(&both)?.slots.len();
    Ok([tables, entities, types, tables_of_both])
}

// Whether the holder loses the tag, and the tag's own entity gets it.
fn is_handed_over(store: &mut Store) -> bool {
    store.is_alive(HOLDER)
        && store.is_alive(TAG)
        && store
            .step_both((HOLDER, Id::One(TAG)), (TAG, Id::One(TAG)))
            .is_ok()
}

// Whether all is made in a new store, and found in it before and after the tag is handed over.
fn is_used(alloc: Global) -> bool {
    let mut store = Store::new(alloc, 16, Seed::new(0));
    fill(&mut store, &TypeList::empty(alloc)).is_ok()
        && is_moved(alloc, &mut store)
        && found(&store) == Ok([1, 1, 1, 1])
        && is_handed_over(&mut store)
        && found(&store) == Ok([1, 1, 1, 0])
}

#[test]
fn each_call_succeeds(rt: HostRuntime) {
    assert!(rt; is_used(rt.alloc()));
}
