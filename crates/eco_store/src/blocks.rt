//! The choices of several tables, one table's behind another's.
ghost use Rattle.std.specs.Prelude.{◌≡◌, ◌<◌, ◌++◌, ◌∷◌, [], length, IfOk, IsSome, OnOk, OnErr};
ghost use Rattle.std.specs.List.{All};
ghost use Rattle.eco_ids.specs.Answer as answers;
ghost use Rattle.eco_tables.specs.Tables.{slot_of};
ghost use Rattle.eco_store.specs.Answers.{asks};
ghost use Rattle.eco_store.specs.Blocks.{AreBlocks, standings_in, standings_of};

use crate::ranked::Ranked;
use crate::standing::Standing;
use eco_ids::{Entity, Id, TableSlot};
use eco_index::{Choices, choices_of, find_only};
use eco_query::Slot;
use eco_tables::{Table, Tables};
use std::alloc::{AllocError, Global};

/// The choices of one table: from the first on, up to the end.
#[derive(Clone, Copy, Debug)]
pub struct Block {
    pub first: usize,
    pub end: usize,
}

/// The choices of some tables, and which are whose.
#[derive(Debug, Drop)]
pub struct Blocks {
    pub choices: Choices,
    pub list: Vec<Block>,
}

// Puts the choices of a table behind others. What the buffer has does not matter.
fn add_block(
    alloc: Global,
    table: &Table,
    terms: &[Slot],
    choices: &mut Choices,
    buffer: &mut Vec<Option<Id>>,
) -> Result<Block, AllocError>
    requires some { 0 < length terms.now }
    requires even { choices.old.width ≡ length terms.now }
    ensures choices { OnOk result (choices.new ≡ record choices.old {
      all = choices.old.all ++ answers.choices table.now.ids (asks terms.now);
    }) }
    ensures block { IfOk result (λ b. b
        ≡ record { first = length choices.old.all; end = length choices.new.all }) }
{
    let first = choices.count();
    if find_only(terms, table.type_list(), buffer)? {
        choices.push(buffer)?;
    } else {
        let own = choices_of(alloc, terms, table.type_list())?;
        choices.append(&own)?;
    }
    let end = choices.count();
    Ok(Block { first, end })
}

/// The choices of the tables in these slots, each of which has one.
pub fn blocks_of(
    alloc: Global,
    tables: &Tables,
    slots: &[TableSlot],
    terms: &[Slot],
) -> Result<Blocks, AllocError>
    requires some { 0 < length terms.now }
    requires there { All (λ n. IsSome (slot_of tables.now n)) slots.now }
    ensures blocks { IfOk result (λ b. AreBlocks tables.now slots.now (asks terms.now) b) }
    ensures width { IfOk result (λ b. b.choices.width ≡ length terms.now) }
{
    // Each has a choice at least.
    let mut choices = Choices::with_room(alloc, terms.len(), slots.len())?;
    let mut list = Vec::with_capacity(alloc, slots.len())?;
    let mut buffer = Vec::new(alloc);
    for slot in slots {
        let table = tables.get(*slot).unwrap();
        list.push(add_block(alloc, table, terms, &mut choices, &mut buffer)?)?;
    }
    Ok(Blocks { choices, list })
}

/// A row for each choice of each who stands somewhere, where the place of each is that of its block.
pub fn rows_of(
    alloc: Global,
    standings: &Ranked,
    blocks: &[Block],
) -> Result<Vec<Standing>, AllocError>
    ensures { IfOk result (λ rows. rows.items ≡ standings_of blocks.now standings.now) }
{
    let mut rows = Vec::with_capacity(alloc, standings.len())?;
    for stands in standings.iter() {
        if let Some(block) = blocks.get(stands.place) {
            add_rows(&mut rows, stands.entity, *block)?;
        }
    }
    Ok(rows)
}

// A row for each choice of a block.
fn add_rows(rows: &mut Vec<Standing>, entity: Entity, block: Block) -> Result<(), AllocError>
    ensures { OnOk result (rows.new.items ≡ rows.old.items ++ standings_in block entity) }
{
    for place in block.first..block.end {
        put(Standing { entity, place }, rows, block.end - place)?;
    }
    Ok(())
}

// Puts a row behind others. Where there is no room, room for so many is asked for at once.
#[inline(always)]
fn put(row: Standing, rows: &mut Vec<Standing>, left: usize) -> Result<(), AllocError>
    requires { 0 < left }
    ensures { OnOk result (rows.new.items ≡ rows.old.items ++ row ∷ []) }
{
    if rows.len() == rows.capacity() {
        rows.reserve(left)?;
    }
    rows.push_reserved(row);
    Ok(())
}
