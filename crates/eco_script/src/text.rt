//! A world as a text.
ghost use Rattle.std.specs.Prelude.{IfOk, string_bytes};
ghost use Rattle.eco_script.specs.Printed.{Prints};

use crate::entities::push_entities;
use crate::tables::push_tables;
use eco_world::World;
use std::alloc::{AllocError, Global};

/// The world as a text for people: each living entity, ascending by handle, with a line for each of its ids; then each table, by
/// type, with how many rows it has and a line for each of its ids. Where an id's entity has a name, the name stands for it.
///
/// ```text
/// #9.0 Position, arity 2
///     (OnDelete, Panic)
/// #10.0 Heron
///     Position = 3 -4
/// table of 1
///     Position
/// ```
///
/// The text takes its memory from `alloc`. An `Err` comes where a growth was refused.
pub fn printed(world: &World, alloc: Global) -> Result<String, AllocError>
    ensures { IfOk result (λ text. Prints world.now (string_bytes text)) }
{
    let living = world.living()?;
    let tables = world.tables()?;
    let mut text = String::new(alloc);
    push_entities(&mut text, world, living.as_slice())?;
    push_tables(&mut text, world, tables.as_slice())?;
    Ok(text)
}
