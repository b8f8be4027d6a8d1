//! A column that a slot of a query shows.
ghost use Rattle.std.specs.Prelude.{◌≡◌, ◌≤◌, ◌+◌, ◌++◌, ◌^◌, ℕ, None, length, map, option_map, option_to_list};
ghost use Rattle.std.specs.Prelude.{OnErr, OnOk, slice_get};
ghost use Rattle.eco_ids.specs.Run.{Set};
ghost use Rattle.eco_ids.specs.World.{padded};
ghost use Rattle.eco_bodies.specs.RowSums.{set_sums_from};
ghost use Rattle.eco_bodies.specs.Sums.{sum_of_both};
ghost use Rattle.eco_systems.specs.Rows.{entry_value};
ghost use Rattle.eco_tables.specs.Values.{whole_values};
ghost use Rattle.eco_frame.specs.Rows.{lent_in, lent_value, shown_in};

use eco_bodies::{set_sum_in_row, set_sums_in_rows, shows_values, sum_of};
use eco_ids::value::FIELD_COUNT;
use eco_ids::{Entity, Id, Value};
use eco_query::Slot;
use eco_stages::{Command, Stage};
use eco_tables::Values;
use eco_world::TableRows;
use std::alloc::AllocError;

// Does the one with the values of two columns that keep as many fields of each, of which most keep few, and else the other.
macro_rules! at_equal_few {
    ($values:expr, $others:expr, |$rows:ident, $more:ident| $done:expr, $else:expr) => {
        match ($values, $others) {
            (Values::One($rows), Values::One($more)) => $done,
            (Values::Two($rows), Values::Two($more)) => $done,
            (Values::Three($rows), Values::Three($more)) => $done,
            (Values::Four($rows), Values::Four($more)) => $done,
            _ => $else,
        }
    };
}

/// The values that a slot shows in the rows of a table; none, where it shows none there.
#[derive(Clone, Copy)]
pub(crate) struct Column<'a> {
    values: Values<'a>,
}

// The value in a row, if there is one.
#[inline(always)]
fn value_at<const N: usize>(rows: &[[i64; N]], row: usize) -> Option<Value>
    requires { N ≤ FIELD_COUNT }
    ensures { result ≡ slice_get (map padded rows.now) row }
{
    match rows.get(row) {
        Some(fields) => Some(Value::of(*fields)),
        None => None,
    }
}

impl<'a> Column<'a> {
    // Of a slot that shows no values.
    #[inline(always)]
    fn empty() -> Column<'a>
        ensures { (row : ℕ) → shown_in row result ≡ None }
    {
        Column {
            values: Values::One(&[]),
        }
    }

    // The table's values of an id, if it lends any.
    #[inline(always)]
    fn lent_by(table: &TableRows<'a>, id: Id) -> Column<'a>
        ensures { (row : ℕ) → shown_in row result ≡ lent_value table.now row id }
    {
        match table.values(id) {
            Some(values) => Column { values },
            None => Column::empty(),
        }
    }

    // The same of the table that was found.
    #[inline(always)]
    fn lent(found: &Option<(TableRows<'a>, usize)>, id: Id) -> Column<'a>
        ensures { (row : ℕ) → shown_in row result ≡ lent_in found.now row id }
    {
        match found {
            Some((table, _)) => Column::lent_by(table, id),
            None => Column::empty(),
        }
    }

    /// What a slot shows in the table that was found, where its entry is this one.
    #[inline(always)]
    pub(crate) fn of(
        found: &Option<(TableRows<'a>, usize)>,
        slot: &Slot,
        entry: &Option<Id>,
    ) -> Column<'a>
        ensures { (row : ℕ) → shown_in row result
            ≡ entry_value (lent_in found.now row) slot.now.access entry.now }
    {
        match entry {
            Some(id) if shows_values(slot.access) => Column::lent(found, *id),
            _ => Column::empty(),
        }
    }

    /// The value in a row.
    #[inline(always)]
    pub(crate) fn value(&self, row: usize) -> Option<Value>
        ensures { result ≡ shown_in row self.now }
    {
        match self.values {
            Values::One(rows) => value_at(rows, row),
            Values::Two(rows) => value_at(rows, row),
            Values::Three(rows) => value_at(rows, row),
            Values::Four(rows) => value_at(rows, row),
            Values::Five(rows) => value_at(rows, row),
            Values::Six(rows) => value_at(rows, row),
            Values::Seven(rows) => value_at(rows, row),
            Values::Eight(rows) => value_at(rows, row),
        }
    }

    // The sum of the value in a row and that of another column.
    fn sum(&self, other: &Column<'_>, row: usize) -> Option<Value>
        ensures { result ≡ sum_of_both (shown_in row self.now) (shown_in row other.now) }
    {
        let value = self.value(row)?;
        let others = other.value(row)?;
        Some(sum_of(value, others))
    }

    // Records that an id is set to that sum, where there is one. An `Err` leaves the stage as it was.
    #[cold]
    fn set_any_sum(
        &self,
        other: &Column<'_>,
        row: usize,
        entity: Entity,
        id: Id,
        stage: &mut Stage,
    ) -> Result<(), AllocError>
        ensures ok { OnOk result (stage.new ≡ stage.old ++ option_to_list (option_map
            (λ sum. Set entity id sum) (sum_of_both (shown_in row self.now) (shown_in row other.now)))) }
        ensures err { OnErr result (stage.new ≡ stage.old) }
    {
        let Some(sum) = self.sum(other, row) else {
            return Ok(());
        };
        match stage.record(Command::Set(entity, id, sum)) {
            Ok(()) => Ok(()),
            Err(_) => Err(AllocError),
        }
    }

    /// Records that an id is set to the sum of the value in a row and that of another column, where there are both. Columns of
    /// as many fields, of which most have few, add just these, and record the sum where they have it: handed on, it would be
    /// copied through memory. An `Err` leaves the stage as it was.
    #[inline(always)]
    pub(crate) fn set_sum(
        &self,
        other: &Column<'_>,
        row: usize,
        entity: Entity,
        id: Id,
        stage: &mut Stage,
    ) -> Result<(), AllocError>
        ensures ok { OnOk result (stage.new ≡ stage.old ++ option_to_list (option_map
            (λ sum. Set entity id sum) (sum_of_both (shown_in row self.now) (shown_in row other.now)))) }
        ensures err { OnErr result (stage.new ≡ stage.old) }
    {
        at_equal_few!(
            self.values,
            other.values,
            |rows, others| set_sum_in_row(rows, others, row, entity, id, stage),
            self.set_any_sum(other, row, entity, id, stage)
        )
    }

    // Records that sum for each of some entities, each row by itself.
    #[inline(never)]
    fn set_any_sums(
        &self,
        other: &Column<'_>,
        first: usize,
        entities: &[Entity],
        id: Id,
        stage: &mut Stage,
    ) -> Result<(), AllocError>
        requires { first + length entities.now ≤ 2 ^ 64 }
        ensures { OnOk result (stage.new ≡ stage.old ++ set_sums_from
            (whole_values self.now.values) (whole_values other.now.values) id first entities.now) }
    {
        for k in 0..entities.len() {
            self.set_any_sum(other, first + k, entities[k], id, stage)?;
        }
        Ok(())
    }

    /// Records the same for each of some entities in turn, of which the first stands in this row, and the others in those
    /// behind it. An `Err` comes where there is no memory.
    #[inline(always)]
    pub(crate) fn set_sums(
        &self,
        other: &Column<'_>,
        first: usize,
        entities: &[Entity],
        id: Id,
        stage: &mut Stage,
    ) -> Result<(), AllocError>
        requires { first + length entities.now ≤ 2 ^ 64 }
        ensures { OnOk result (stage.new ≡ stage.old ++ set_sums_from
            (whole_values self.now.values) (whole_values other.now.values) id first entities.now) }
    {
        at_equal_few!(
            self.values,
            other.values,
            |rows, others| set_sums_in_rows(rows, others, first, entities, id, stage),
            self.set_any_sums(other, first, entities, id, stage)
        )
    }
}
