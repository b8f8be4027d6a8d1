//! The lines of tables.
ghost use Rattle.std.specs.Prelude.{◌≡◌, ◌++◌, OnOk, codes, decimal, flat_map, string_bytes};
ghost use Rattle.eco_script.specs.Printed.{id_line, table_lines};
ghost use Rattle.eco_world.specs.Layouts.{listed, listed_of};

use crate::named::NamedId;
use eco_ids::Id;
use eco_world::{TableRows, World};
use std::alloc::AllocError;

// Adds the lines of a table's ids.
fn push_ids(text: &mut String, world: &World, ids: &[Id]) -> Result<(), AllocError>
    ensures { OnOk result (string_bytes text.new
        ≡ string_bytes text.old ++ flat_map (id_line world.now) ids.now) }
{
    for id in ids {
        let named = NamedId { world, id: *id };
        write!(text, "    {named}\n")?;
    }
    Ok(())
}

// Adds the line that says how many rows a table has.
fn push_count(text: &mut String, rows: usize) -> Result<(), AllocError>
    ensures { OnOk result (string_bytes text.new
        ≡ string_bytes text.old ++ codes "table of " ++ decimal rows ++ codes "\n") }
{
    write!(text, "table of {rows}\n")
}

// Adds the lines of a table.
fn push_table(text: &mut String, world: &World, table: &TableRows<'_>) -> Result<(), AllocError>
    ensures { OnOk result (string_bytes text.new
        ≡ string_bytes text.old ++ table_lines world.now (listed_of table.now)) }
{
    push_count(text, table.entities.len())?;
    push_ids(text, world, table.ids)
}

// Adds the lines of tables, one by one.
fn push_each(text: &mut String, world: &World, tables: &[TableRows<'_>]) -> Result<(), AllocError>
    ensures { OnOk result (string_bytes text.new
        ≡ string_bytes text.old ++ flat_map (λ t. table_lines world.now (listed_of t)) tables.now) }
{
    for table in tables {
        push_table(text, world, table)?;
    }
    Ok(())
}

/// Adds the lines of tables.
pub fn push_tables(
    text: &mut String,
    world: &World,
    tables: &[TableRows<'_>],
) -> Result<(), AllocError>
    ensures { OnOk result (string_bytes text.new
        ≡ string_bytes text.old ++ flat_map (table_lines world.now) (listed tables.now)) }
{
    push_each(text, world, tables)
}
