//! The columns of one id.
ghost use Rattle.std.specs.Prelude.{◌≡◌, All, length, map};
ghost use Rattle.std.specs.Iterator.{at_most};
ghost use Rattle.std.specs.Map.Iter.{TakesFirst};
ghost use Rattle.std.specs.Slice.Iter.{iter_rest};
ghost use Rattle.eco_world.specs.Columns.{AreLeft, column_at, column_of, KeepsFields, KeepsColumn, lent_column, with_ahead};

use eco_ids::{Entity, Id, TableSlot};
use eco_store::{Table, Tables};
use eco_tables::Values;
use std::marker::Model;
use std::slice;

/// The entities of one type, and the values that they have of one id: each value stands in the row of its entity.
#[derive(Clone, Copy)]
pub struct Column<'a> {
    /// Who has the type, each once, in any order.
    pub entities: &'a [Entity],
    /// One value for each of the entities, in their order. A slice has so many fields of each value as are kept of the id:
    /// those past them are 0.
    pub values: Values<'a>,
}

/// The columns of one id that are left. A contract sees the list of them.
///
/// One is found ahead: so the way to its values is walked while whoever asks still reads those of the one before it.
#[derive(Drop)]
pub struct Columns<'a> {
    id: Id,
    ahead: Option<Column<'a>>,
    slots: slice::Iter<'a, TableSlot>,
    tables: &'a Tables,
}

impl<'a> Model for Columns<'a> {
    ghost use Rattle.std.specs.Prelude.{List, map};
    ghost use Rattle.std.specs.Slice.Iter.{iter_rest};
    ghost use Rattle.eco_world.specs.Columns.{AreLeft, column_at, ListedColumn, with_ahead};

    ghost Value = { List ListedColumn };

    ghost view = { λ c. with_ahead c.ahead (map (column_at c.tables.now c.id) (iter_rest c.slots)) };

    ghost invariant = { λ c. AreLeft c.tables.now c.id c.ahead (iter_rest c.slots) };
}

impl<'a> Columns<'a> {
    // Of the tables in these slots, each of which keeps fields of the id.
    pub(crate) fn of(id: Id, slots: &'a [TableSlot], tables: &'a Tables) -> Columns<'a>
        requires { All (KeepsColumn tables.now id) slots.now }
        ensures { result ≡ map (column_at tables.now id) slots.now }
    {
        let mut slots = slots.iter();
        let ahead = next_column(id, &mut slots, tables);
        Columns {
            id,
            ahead,
            slots,
            tables,
        }
    }
}

impl<'a> Iterator for Columns<'a> {
    type Item = Column<'a>;

    ghost next_gives = { TakesFirst lent_column };

    ghost remaining = { λ s. at_most (length s) };

    #[inline(always)]
    fn next(&mut self) -> Option<Column<'a>> {
        let column = self.ahead?;
        self.ahead = next_column(self.id, &mut self.slots, self.tables);
        Some(column)
    }
}

// The column of the first of these slots, which is gone from them then.
#[inline(always)]
fn next_column<'a>(
    id: Id,
    slots: &mut slice::Iter<'a, TableSlot>,
    tables: &'a Tables,
) -> Option<Column<'a>>
    requires { All (KeepsColumn tables.now id) (iter_rest slots.old) }
    ensures taken { with_ahead result (map (column_at tables.now id) (iter_rest slots.new))
        ≡ map (column_at tables.now id) (iter_rest slots.old) }
    ensures kept { AreLeft tables.now id result (iter_rest slots.new) }
{
    let slot = slots.next()?;
    Some(lend_column(id, tables.table(*slot)))
}

// The column of a table that keeps fields of the id.
#[inline(always)]
fn lend_column(id: Id, table: &Table) -> Column<'_>
    requires { KeepsFields table.now id }
    ensures { lent_column result ≡ column_of table.now id }
{
    // So it has a width for this id, of one field at least, and lends its values.
    table.ids_have_widths();
    Column {
        entities: table.rows(),
        values: table.values(id).unwrap(),
    }
}
