//! Twenty commands, which a merge does: `T` is #9.0, the component `U` #10.0, `Likes` #11.0, and two entities are #12.0 and #13.0.
use crate::faults::deed::{first, one, two};
use eco_bodies::record_command;
use eco_ids::entity::CHILD_OF;
use eco_ids::{Entity, Refusal, Value};
use eco_world::{Command, Stage};
use std::alloc::{AllocError, Global};

/// A command. Entities are told by their indices.
#[derive(Clone, Copy)]
pub enum Order {
    Create(u32),
    Name(u32, &'static str),
    Add(u32, u32),
    AddPair(u32, u32, u32),
    Set(u32, u32, [i64; 2]),
    Remove(u32, u32),
    Clear(u32),
    Delete(u32),
    DeleteWith(u32),
    RemoveAll(u32),
}

// How many orders there are for each stage.
const COUNT: usize = 10;

/// Of each order, those of the second stage behind those of the first, whether it is meant.
pub type Marks = [bool; 2 * COUNT];

/// None of them.
pub const NONE: Marks = [false; 2 * COUNT];

// Fresh entities live, and all get names, ids and values, or lose an id.
const EARLY: &[Order] = &[
    Order::Create(14),
    Order::Add(14, 9),
    Order::Set(14, 10, [1, 2]),
    Order::Name(14, "x"),
    Order::Create(15),
    Order::AddPair(15, CHILD_OF.index, 14),
    Order::Add(12, 9),
    Order::Set(12, 10, [3, 4]),
    Order::Remove(13, 9),
    Order::AddPair(13, 11, 12),
];

// Ids go and entities die. Two are refused: one handle lives already, and another lives no more.
const LATE: &[Order] = &[
    Order::Create(16),
    Order::Name(12, "y"),
    Order::AddPair(16, 11, 15),
    Order::Clear(13),
    Order::Delete(14),
    Order::Add(13, 9),
    Order::RemoveAll(10),
    Order::Create(16),
    Order::Add(14, 9),
    Order::DeleteWith(9),
];

/// What a merge does, by the stages in which it is recorded.
pub const ORDERS: [&[Order]; 2] = [EARLY, LATE];

/// What is merged before: another name, and a pair that nobody has.
pub const BEFORE: [&[Order]; 2] = [&[Order::Name(13, "before")], &[Order::AddPair(12, 11, 13)]];

// The command that gives an entity a name.
fn rename(alloc: Global, entity: Entity, name: &str) -> Result<Command, AllocError> {
    let name = String::from_str(alloc, name)?;
    Ok(Command::Rename(entity, Some(name)))
}

impl Order {
    /// The command.
    pub fn command(self, alloc: Global) -> Result<Command, AllocError> {
        match self {
            Order::Create(entity) => Ok(Command::Create(first(entity))),
            Order::Name(entity, name) => rename(alloc, first(entity), name),
            Order::Add(entity, id) => Ok(Command::Add(first(entity), one(id))),
            Order::AddPair(entity, relationship, target) => {
                Ok(Command::Add(first(entity), two(relationship, target)))
            }
            Order::Set(entity, id, fields) => {
                Ok(Command::Set(first(entity), one(id), Value::of(fields)))
            }
            Order::Remove(entity, id) => Ok(Command::Remove(first(entity), one(id))),
            Order::Clear(entity) => Ok(Command::Clear(first(entity))),
            Order::Delete(entity) => Ok(Command::Delete(first(entity))),
            Order::DeleteWith(id) => Ok(Command::DeleteWith(one(id))),
            Order::RemoveAll(id) => Ok(Command::RemoveAll(one(id))),
        }
    }
}

// Records an order behind others.
fn record_order(alloc: Global, stage: &mut Stage, order: Order) -> Result<(), Refusal> {
    let command = order.command(alloc)?;
    record_command(stage, command)
}

// Records the orders into a stage, in place of what it has, but for those that are to be left out.
fn record(
    alloc: Global,
    stage: &mut Stage,
    orders: &[Order],
    left_out: &[bool],
) -> Result<(), Refusal> {
    stage.clear();
    for (place, order) in orders.iter().enumerate() {
        if !left_out.get(place).copied().unwrap_or(false) {
            record_order(alloc, stage, *order)?;
        }
    }
    Ok(())
}

/// Records what a merge does, in place of what was recorded before, but for what is to be left out.
pub fn record_all(
    alloc: Global,
    stages: &mut [Stage; 2],
    orders: [&[Order]; 2],
    left_out: &Marks,
) -> Result<(), Refusal> {
    record(alloc, &mut stages[0], orders[0], &left_out[..COUNT])?;
    record(alloc, &mut stages[1], orders[1], &left_out[COUNT..])
}

/// Makes the command that is recorded.
pub fn arm_one(alloc: Global, command: &mut Option<Command>, order: Order) -> Result<(), Refusal> {
    *command = Some(order.command(alloc)?);
    Ok(())
}

/// Records a command, which is there no more then. One that is refused stands where it stood.
pub fn record_one(stages: &mut [Stage; 2], command: &mut Option<Command>) -> Result<(), Refusal> {
    let Some(given) = command.take() else {
        return Ok(());
    };
    match stages[0].record(given) {
        Ok(()) => Ok(()),
        Err(back) => {
            *command = Some(back);
            Err(Refusal::OutOfMemory)
        }
    }
}
