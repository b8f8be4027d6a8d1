//! What forbids a delete.
ghost use Rattle.std.specs.Prelude.{◌≡◌};
ghost use Rattle.eco_ids.specs.Order.{entity_cmp};
ghost use Rattle.eco_traits.specs.Firsts.{counted, former};
ghost use Rattle.eco_traits.specs.Objections.{objection_cmp};

use eco_ids::Entity;

/// A holder that stays has an id that names a member under the policy `Panic`.
#[derive(Clone, Copy, Debug)]
pub struct Objection {
    pub holder: Entity,
    pub member: Entity,
}

/// The lesser of the two objections, by holder and then by member, where there are two.
pub fn first_of(first: Option<Objection>, other: Option<Objection>) -> Option<Objection>
    ensures { result ≡ former objection_cmp first other }
{
    match (first, other) {
        (None, _) => other,
        (_, None) => first,
        (Some(one), Some(new)) => {
            let order = new
                .holder
                .cmp(&one.holder)
                .then(new.member.cmp(&one.member));
            if order.is_lt() { other } else { first }
        }
    }
}

/// The lesser of the first and the entity, where the entity counts.
pub fn lesser(first: Option<Entity>, entity: Entity, counts: bool) -> Option<Entity>
    ensures { result ≡ former entity_cmp first (counted entity counts) }
{
    if !counts {
        return first;
    }
    match first {
        Some(least) => {
            if entity.cmp(&least).is_lt() {
                Some(entity)
            } else {
                first
            }
        }
        None => Some(entity),
    }
}
