//! What the texts of a script name on a world.

ghost use Rattle.eco_script.specs.References.{ReadsBoth, ReadsEntity, ReadsId, ReadsQuery};

use eco_grammar::read_ref;
use eco_ids::{Entity, Id, Refusal};
use eco_world::{Query, World};

/// The entity that a text names: a name, or a handle as `#9.0`. It is refused as by [`read_ref`]: with `Syntax`, else with
/// `UnknownName`.
#[tactic(auto, unfolding(crate::specs::References::ReadsEntity))]
pub fn read_entity(text: &str, world: &World) -> Result<Entity, Refusal>
    ensures { ReadsEntity world.now text.now result }
{
    read_ref(text, world)
}

/// The id that a text names. It is refused as by [`eco_grammar::read_id`]: with `Syntax`, else with `WildcardHere`, else with
/// `UnknownName`.
#[tactic(auto, unfolding(crate::specs::References::ReadsId))]
pub fn read_id(text: &str, world: &World) -> Result<Id, Refusal>
    ensures { ReadsId world.now text.now result }
{
    eco_grammar::read_id(text, world)
}

/// The query that a text spells. It is refused as by [`World::read_query`].
#[tactic(auto, unfolding(crate::specs::References::ReadsQuery))]
pub fn read_query(text: &str, world: &World) -> Result<Query, Refusal>
    ensures { ReadsQuery world.now text.now result }
{
    world.read_query(text)
}

/// The entity and the id that two texts name. Where both are refused, the answer is the refusal of the first.
pub fn read_both(entity: &str, id: &str, world: &World) -> Result<(Entity, Id), Refusal>
    ensures { ReadsBoth world.now entity.now id.now result }
{
    let entity = read_entity(entity, world);
    let id = read_id(id, world);
    Ok((entity?, id?))
}
