//! A plain filter: what a query answers, found by going through all that live and all that each of them has.
use eco_ids::{Entity, Id, Part, Pattern};
use eco_query::Term;
use eco_world::World;

// Whether the part may stand for the entity.
fn stands_for(part: Part, entity: Entity) -> bool {
    match part {
        Part::Is(own) => own.is(entity),
        Part::Each | Part::Any => true,
    }
}

// Whether the id is a pair for whose entities the parts may stand.
fn are_parts(first: Part, second: Part, id: Id) -> bool {
    match id {
        Id::One(_) => false,
        Id::Two(relationship, target) => {
            stands_for(first, relationship) && stands_for(second, target)
        }
    }
}

// Whether the pattern matches the id.
fn is_match(pattern: Pattern, id: Id) -> bool {
    match pattern {
        Pattern::One(entity) => id.is(Id::One(entity)),
        Pattern::Two(first, second) => are_parts(first, second, id),
    }
}

// The pattern with its `*` parts filled as the id fills them.
fn filled(pattern: Pattern, id: Id) -> Pattern {
    match (pattern, id) {
        (Pattern::Two(first, second), Id::Two(relationship, target)) => {
            Pattern::Two(
                filled_part(first, relationship),
                filled_part(second, target),
            )
        }
        _ => pattern,
    }
}

fn filled_part(part: Part, entity: Entity) -> Part {
    match part {
        Part::Each => Part::Is(entity),
        Part::Is(_) | Part::Any => part,
    }
}

// Whether one of the ids matches.
fn is_any_match(pattern: Pattern, ids: &[Id]) -> bool {
    for id in ids {
        if is_match(pattern, *id) {
            return true;
        }
    }
    false
}

// Whether one of the ids matches and is less than this one.
fn is_less_match(pattern: Pattern, ids: &[Id], id: Id) -> bool {
    for other in ids {
        if *other < id && is_match(pattern, *other) {
            return true;
        }
    }
    false
}

// Whether the id is the least of those that match with its filling.
fn is_least(pattern: Pattern, ids: &[Id], id: Id) -> bool {
    is_match(pattern, id) && !is_less_match(filled(pattern, id), ids, id)
}

// Whether the id, which the entity has, is the first of these that it has.
fn is_first_had(world: &World, entity: Entity, ids: &[Id], id: Id) -> bool {
    for own in ids {
        if own.is(id) {
            return true;
        }
        if world.has(entity, *own) {
            return false;
        }
    }
    false
}

// Whether the id, which the entity has, is an entry of the term.
fn is_found(world: &World, entity: Entity, term: &Term, id: Id) -> bool {
    match term {
        Term::And(pattern) => is_least(*pattern, world.ids_of(entity), id),
        Term::Not(_) => false,
        Term::Optional(own) => own.is(id),
        Term::Or(alternatives) => is_first_had(world, entity, alternatives, id),
    }
}

// Whether the term has the entry of no id.
fn is_without(world: &World, entity: Entity, term: &Term) -> bool {
    match term {
        Term::And(_) | Term::Or(_) => false,
        Term::Not(pattern) => !is_any_match(*pattern, world.ids_of(entity)),
        Term::Optional(id) => !world.has(entity, *id),
    }
}

// How many entries the term has on the entity.
fn count_entries(world: &World, entity: Entity, term: &Term) -> usize {
    let mut count = usize::from(is_without(world, entity, term));
    for id in world.ids_of(entity) {
        if is_found(world, entity, term, *id) {
            count = count.saturating_add(1);
        }
    }
    count
}

// Whether there is an entry, and it is one of those.
fn fits(world: &World, entity: Entity, term: &Term, entry: Option<&Option<Id>>) -> bool {
    match entry {
        Some(Some(id)) => world.has(entity, *id) && is_found(world, entity, term, *id),
        Some(None) => is_without(world, entity, term),
        None => false,
    }
}

/// How many results the entity is: so many as there are choices of an entry for each term.
pub fn count_choices(world: &World, entity: Entity, terms: &[Term]) -> usize {
    let mut count = 1usize;
    for term in terms {
        count = count.saturating_mul(count_entries(world, entity, term));
    }
    count
}

/// Whether the entries are such a choice.
pub fn is_choice(world: &World, entity: Entity, terms: &[Term], entries: &[Option<Id>]) -> bool {
    for (place, term) in terms.iter().enumerate() {
        if !fits(world, entity, term, entries.get(place)) {
            return false;
        }
    }
    terms.len() == entries.len()
}
