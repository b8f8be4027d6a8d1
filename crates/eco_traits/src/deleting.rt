//! The delete itself: planned completely, then carried out at once.
ghost use Rattle.std.specs.Prelude.{◌≡◌, ◌∷◌, [], Bool, true, List, map, IsTrue, IfOk, IfSome, OnOk, OnErr};
ghost use Rattle.eco_ids.specs.Cleanup.{after_delete, Ends, IsDoomed as IsDoomedList};
ghost use Rattle.eco_ids.specs.Indices.{is_alive};
ghost use Rattle.eco_ids.specs.Losses.{without};
ghost use Rattle.eco_ids.specs.Order.{entity_cmp, has_item};
ghost use Rattle.eco_ids.specs.Outcome.{Meets};
ghost use Rattle.eco_ids.specs.declared.entity.Entity.{Entity as EntityData};
ghost use Rattle.eco_ids.specs.declared.id.Id.{Id as IdData};
ghost use Rattle.eco_archetypes.specs.Holders.{entities_with};
ghost use Rattle.eco_traits.specs.Objections.{AnswersDelete};
ghost use Rattle.eco_traits.specs.OnlyHolders.{IsOnlyHolder};
ghost use Rattle.eco_traits.specs.Plans.{IsDeletePlan, TakesOutOfAll};
ghost use Rattle.eco_archetypes.specs.Worlds.{world_of};
ghost use Rattle.eco_traits.specs.declared.node.Node.TheVariants.{Root, Falling};

use crate::node::Node;
use crate::only_holder::OnlyHolder;
use crate::plan::DeletePlan;
use crate::ties::Ties;
use eco_archetypes::{Places, Population, TypeChange};
use eco_ids::{Entity, Pattern, Refusal, TableSlot};
use std::alloc::{AllocError, Global};

/// The roots die with all that the policies demand: the least set that holds the roots and each holder of a member under
/// the policy `Delete`. The others lose the ids that name the dead. All memory is taken before the first of them dies.
///
/// Refused with `Panic` exactly where an entity that would stay has an id that names a member in a role whose policy is
/// `Panic`: it tells the least such holder, and the least such member for it. Last, refused with `OutOfMemory`. An `Err`
/// leaves all entities as they were.
pub fn delete<S: Population>(alloc: Global, store: &mut S, roots: &[Entity]) -> Result<(), Refusal>
    ensures { (members : List EntityData)
        → IsDoomedList (world_of (S.entities store.old))
        (λ x. IsTrue (has_item entity_cmp roots.now x)) members
        → Meets (Ends (world_of (S.entities store.old)) members) true
        (world_of (S.entities store.old)) result (world_of (S.entities store.new)) }
{
    let only = only_held(alloc, &store.places(), roots)?;
    if let Some(only) = only {
        take_from(store, only)?;
        return Ok(());
    }
    let plan = plan_roots(alloc, store, roots)?;
    carry_out(store, &plan.dead, &plan.changes)?;
    Ok(())
}

// The one root, if it is one who lives, and if no more than one id of another goes with it.
fn only_held(
    alloc: Global,
    places: &Places<'_>,
    roots: &[Entity],
) -> Result<Option<OnlyHolder>, AllocError>
    ensures only { IfOk result (λ o. IfSome o (λ h. IsOnlyHolder places.now.entities h)) }
    ensures root { IfOk result (λ o. IfSome o (λ h. roots.now ≡ h.member ∷ [])) }
    ensures alive { IfOk result (λ o. IfSome o (λ h. IsTrue (is_alive places.now.entities h.member))) }
{
    if roots.len() != 1 || !places.is_alive(roots[0]) {
        return Ok(None);
    }
    places.are_shown();
    let ties = Ties { places };
    ties.only_holder(alloc, roots[0])
}

// The id goes, and then the member dies, who is named no more. Memory is wanted for the first alone, so an `Err` changes nothing.
fn take_from<S: Population>(store: &mut S, only: OnlyHolder) -> Result<(), AllocError>
    requires only { IsOnlyHolder (S.entities store.old) only }
    requires alive { IsTrue (is_alive (S.entities store.old) only.member) }
    ensures ok { OnOk result (world_of (S.entities store.new)
        ≡ after_delete (world_of (S.entities store.old)) (only.member ∷ [])) }
    ensures err { OnErr result (S.entities store.new ≡ S.entities store.old) }
{
    store.step(only.holder, only.id)?;
    store.take_out(only.member);
    Ok(())
}

/// All who have an id that the pattern matches die, with all that the policies demand, as by [`delete`]. Their tables fall
/// whole.
pub fn delete_with<S: Population>(
    alloc: Global,
    store: &mut S,
    pattern: Pattern,
) -> Result<(), Refusal>
    ensures { (members : List EntityData)
        → IsDoomedList (world_of (S.entities store.old))
        (λ x. IsTrue (has_item entity_cmp (entities_with (S.entities store.old) pattern) x)) members
        → Meets (Ends (world_of (S.entities store.old)) members) true
        (world_of (S.entities store.old)) result (world_of (S.entities store.new)) }
{
    let plan = plan_holders(alloc, store, pattern)?;
    carry_out(store, &plan.dead, &plan.changes)?;
    Ok(())
}

/// These entities die, and ids go from all others: those that pass a test of ids, where each change takes them out of its
/// type, and the type of whoever stays and has one of them is changed (`TakesOutOfAll`). All memory is taken before the
/// first entity dies. An `Err` comes where memory is refused, and changes nothing.
///
/// A delete is the case where the ids go that name the dead.
pub fn carry_out<S: Population>(
    store: &mut S,
    dead: &[Entity],
    changes: &[TypeChange],
) -> Result<(), AllocError>
    requires { (goes : IdData → Bool)
        × TakesOutOfAll (S.entities store.old) (has_item entity_cmp dead.now) goes changes.now }
    ensures ok { (goes : IdData → Bool)
        → TakesOutOfAll (S.entities store.old) (has_item entity_cmp dead.now) goes changes.now
        → OnOk result (world_of (S.entities store.new)
        ≡ without (world_of (S.entities store.old)) (has_item entity_cmp dead.now) (λ e. goes)) }
    ensures err { OnErr result (S.entities store.new ≡ S.entities store.old) }
{
    store.delete_all(dead, changes)
}

// What the delete of the roots does to the population, unless a policy forbids it.
fn plan_roots<S: Population>(
    alloc: Global,
    store: &S,
    roots: &[Entity],
) -> Result<DeletePlan, Refusal>
    ensures planned { IfOk result (λ p. IsDeletePlan (S.entities store.now)
        (λ x. IsTrue (has_item entity_cmp roots.now x)) p.dead.items p.changes.items) }
    ensures judged { (members : List EntityData)
        → IsDoomedList (world_of (S.entities store.now))
        (λ x. IsTrue (has_item entity_cmp roots.now x)) members
        → AnswersDelete (world_of (S.entities store.now)) members result }
{
    plan_delete(alloc, &store.places(), roots)
}

// What the delete of all who have such an id does to it, unless a policy forbids it.
fn plan_holders<S: Population>(
    alloc: Global,
    store: &S,
    pattern: Pattern,
) -> Result<DeletePlan, Refusal>
    ensures planned { IfOk result (λ p. IsDeletePlan (S.entities store.now)
        (λ x. IsTrue (has_item entity_cmp (entities_with (S.entities store.now) pattern) x))
        p.dead.items p.changes.items) }
    ensures judged { (members : List EntityData)
        → IsDoomedList (world_of (S.entities store.now))
        (λ x. IsTrue (has_item entity_cmp (entities_with (S.entities store.now) pattern) x)) members
        → AnswersDelete (world_of (S.entities store.now)) members result }
{
    plan_delete_with(alloc, &store.places(), pattern)
}

// What the delete of the roots does, where the places of the population are known.
fn plan_delete(alloc: Global, places: &Places<'_>, roots: &[Entity]) -> Result<DeletePlan, Refusal>
    ensures planned { IfOk result (λ p. IsDeletePlan places.now.entities
        (λ x. IsTrue (has_item entity_cmp roots.now x)) p.dead.items p.changes.items) }
    ensures judged { (members : List EntityData)
        → IsDoomedList (world_of places.now.entities) (λ x. IsTrue (has_item entity_cmp roots.now x)) members
        → AnswersDelete (world_of places.now.entities) members result }
{
    let starts = nodes_of(alloc, roots)?;
    places.are_shown();
    let ties = Ties { places };
    ties.plan(alloc, &starts)
}

// Each of these entities as a root.
fn nodes_of(alloc: Global, entities: &[Entity]) -> Result<Vec<Node>, AllocError>
    ensures { IfOk result (λ nodes. nodes.items ≡ map Root entities.now) }
{
    let mut nodes = Vec::new(alloc);
    for entity in entities {
        nodes.push(Node::Root(*entity))?;
    }
    Ok(nodes)
}

// What the delete of all who have such an id does, where the places of the population are known.
fn plan_delete_with(
    alloc: Global,
    places: &Places<'_>,
    pattern: Pattern,
) -> Result<DeletePlan, Refusal>
    ensures planned { IfOk result (λ p. IsDeletePlan places.now.entities
        (λ x. IsTrue (has_item entity_cmp (entities_with places.now.entities pattern) x))
        p.dead.items p.changes.items) }
    ensures judged { (members : List EntityData)
        → IsDoomedList (world_of places.now.entities)
        (λ x. IsTrue (has_item entity_cmp (entities_with places.now.entities pattern) x)) members
        → AnswersDelete (world_of places.now.entities) members result }
{
    places.are_shown();
    let slots = places.archetypes().tables_by(&pattern)?;
    let starts = falling(alloc, &slots)?;
    let ties = Ties { places };
    ties.plan(alloc, &starts)
}

// The tables in these slots, as tables that fall.
fn falling(alloc: Global, slots: &[TableSlot]) -> Result<Vec<Node>, AllocError>
    ensures { IfOk result (λ nodes. nodes.items ≡ map Falling slots.now) }
{
    let mut nodes = Vec::new(alloc);
    for slot in slots {
        nodes.push(Node::Falling(*slot))?;
    }
    Ok(nodes)
}
