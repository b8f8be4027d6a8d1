//! What the types of numbers keep to: each function does nothing, and its contract says so of what it is given.
ghost use Rattle.eco_query.specs.Queries.{IsHandle, IsPattern, IsPatternPart, exactly};

use eco_ids::{Entity, Id, Part, Pattern};

fn handle_is_in_range(entity: Entity)
    ensures { IsHandle entity }
{
    let Entity {
        index: _,
        generation: _,
    } = entity;
}

fn part_is_in_range(part: Part)
    ensures { IsPatternPart part }
{
    if let Part::Is(entity) = part {
        handle_is_in_range(entity);
    }
}

pub fn pattern_is_in_range(pattern: Pattern)
    ensures { IsPattern pattern }
{
    match pattern {
        Pattern::One(entity) => handle_is_in_range(entity),
        Pattern::Two(relationship, target) => {
            part_is_in_range(relationship);
            part_is_in_range(target);
        }
    }
}

pub fn id_is_in_range(id: Id)
    ensures { IsPattern (exactly id) }
{
    match id {
        Id::One(entity) => handle_is_in_range(entity),
        Id::Two(relationship, target) => {
            handle_is_in_range(relationship);
            handle_is_in_range(target);
        }
    }
}
