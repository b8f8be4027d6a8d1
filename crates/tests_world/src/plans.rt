//! Systems that look random: when each runs, what it asks for, and what it does.
use crate::draws::RandomDraws;
use crate::handles::at;
use eco_bodies::{Action, Script, Systems};
use eco_ids::entity::{CHILD_OF, EXCLUSIVE, WITH};
use eco_ids::{Id, Refusal, Value};
use eco_systems::{PHASES, Phase};
use eco_world::{Query, World};
use std::alloc::{AllocError, Global};

/// What a system does with each row.
#[derive(Clone, Copy)]
pub enum Deeds {
    /// The actions of a script.
    Script([Action; 2]),
    /// It clears the row's entity, and then deletes all who have an id.
    Sweep(Id),
}

/// A system.
#[derive(Clone, Copy)]
pub struct FramePlan {
    pub phase: Phase,
    pub text: &'static str,
    pub deeds: Deeds,
}

/// The components `P` and `V` of two fields at 9 and 10 and `M` of one at 11, the tags `T`, `U` and `Z` from 12 on, the
/// relationships `Likes` and `In` at 15 and 16, which have the tag `Rel` at 17, and their targets `a`, `b` and `c` from 18 on.
pub fn prepare(world: &mut World) -> Result<(), Refusal> {
    for (name, arity) in [("P", 2), ("V", 2), ("M", 1)] {
        world.component(Some(name), arity)?;
    }
    for name in ["T", "U", "Z", "Likes", "In", "Rel", "a", "b", "c"] {
        world.create(Some(name))?;
    }
    world.add(at(15), Id::One(at(17)))?;
    world.add(at(16), Id::One(at(17)))
}

/// What most systems ask for.
const TEXTS: [&str; 20] = [
    "[inout] P, [in] V",
    "[in] P, [out] M",
    "[in] M, [inout] V, !U",
    "[inout] ?P, [inout] ?V, T",
    "[inout] (Likes, *), [inout] P",
    "[inout] P || V, [in] M",
    "T, !U",
    "U, !T",
    "T, U",
    "(Likes, *)",
    "T || M",
    "(In, _), P",
    "V, !P",
    "[none] P, !V",
    "(In, a), !Z",
    "(ChildOf, *), M",
    "(Likes, a), (In, *)",
    "?T, P, V",
    "U, P",
    "T, (Likes, _)",
];

/// A component, a tag or a pair.
pub fn draw_id(draws: &mut RandomDraws) -> Id {
    match draws.below(8) {
        0..=3 => Id::One(at(9 + draws.below(6))),
        4..=6 => Id::Two(at(15 + draws.below(2)), at(18 + draws.below(3))),
        _ => Id::Two(CHILD_OF, at(18)),
    }
}

// What a system may do with most entities, if its query allows it.
fn draw_action(draws: &mut RandomDraws) -> Action {
    let slot = draws.below(2) as usize;
    match draws.below(12) {
        0..=3 => Action::AddId(draw_id(draws)),
        4..=5 => Action::RemoveId(draw_id(draws)),
        6..=7 => Action::Put {
            slot,
            value: Value::of([i64::from(draws.below(9))]),
        },
        8..=10 => Action::Sum {
            into: slot,
            from: draws.below(2) as usize,
        },
        _ => Action::Spawn(Some(draw_id(draws))),
    }
}

// What it may do with relationships: it gives them traits or takes them.
fn draw_trait(draws: &mut RandomDraws) -> Action {
    match draws.below(5) {
        0 => Action::AddId(Id::One(EXCLUSIVE)),
        1 => Action::RemoveId(Id::One(EXCLUSIVE)),
        2 => Action::AddId(Id::Two(WITH, at(17))),
        3 => Action::AddId(Id::Two(WITH, at(16))),
        _ => Action::RemoveId(Id::Two(WITH, at(16))),
    }
}

// A system whose actions its query may not allow.
fn draw_plan(draws: &mut RandomDraws) -> FramePlan {
    let phase = PHASES[draws.below(8) as usize];
    let (text, actions) = match draws.below(12) {
        0 => ("Z", [Action::Kill, draw_action(draws)]),
        1 => ("Z, (Likes, *)", [Action::Spawn(None), Action::Kill]),
        2 => ("Rel", [draw_trait(draws), draw_trait(draws)]),
        _ => (
            TEXTS[draws.below(20) as usize],
            [draw_action(draws), draw_action(draws)],
        ),
    };
    FramePlan {
        phase,
        text,
        deeds: Deeds::Script(actions),
    }
}

// The script of a plan, if its query allows its actions.
fn script_of(alloc: Global, query: &Query, deeds: Deeds) -> Result<Script, Refusal> {
    match deeds {
        Deeds::Script(actions) => Script::new(alloc, query, Vec::from_slice(alloc, &actions)?),
        Deeds::Sweep(_) => Err(Refusal::Undeclared),
    }
}

const NAMES: [&str; 8] = ["a", "b", "c", "d", "e", "f", "g", "h"];

// Declares a system of the plan, and tells whether that was done.
fn declare(
    alloc: Global,
    world: &World,
    systems: &mut Systems<Script>,
    name: &str,
    plan: &FramePlan,
) -> Result<bool, Refusal> {
    let query = world.read_query(plan.text)?;
    match script_of(alloc, &query, plan.deeds) {
        Ok(script) => Ok(systems.add(name, plan.phase, query, script).is_ok()),
        Err(_) => Ok(false),
    }
}

/// Declares the systems of the first eight of these plans, those that are allowed, and puts these plans behind the allowed ones.
pub fn declare_all(
    alloc: Global,
    world: &World,
    drawn: &[FramePlan],
    systems: &mut Systems<Script>,
    allowed: &mut Vec<FramePlan>,
) -> Result<(), Refusal> {
    for (place, name) in NAMES.iter().enumerate() {
        let Some(plan) = drawn.get(place) else {
            break;
        };
        if declare(alloc, world, systems, name, plan)? {
            allowed.push(*plan)?;
        }
    }
    Ok(())
}

/// Eight plans, whose queries may not allow their actions.
pub fn draw_plans(alloc: Global, draws: &mut RandomDraws) -> Result<Vec<FramePlan>, AllocError> {
    let mut plans = Vec::new(alloc);
    for _ in 0..8 {
        plans.push(draw_plan(draws))?;
    }
    Ok(plans)
}
