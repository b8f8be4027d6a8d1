//! A table: the entities of one type, and a column of values for each id that is data.
ghost use Rattle.std.specs.Prelude.{◌≡◌, ℕ, ◌<◌, ◌≤◌, ◌+◌, ◌-◌, ◌^◌, ◌++◌, [], ◌∷◌, length, map, slice_index_or};
ghost use Rattle.std.specs.Prelude.{slice_set, is_some, unwrap_or, OnOk, OnErr, IsOk, IfOk, IfSome, IsSome, IsTrue};
ghost use Rattle.std.specs.Prelude.{slice_get, IsFalse, MatchOption, nat_lt, Some};
ghost use Rattle.eco_ids.specs.declared.id.Id.{Id as Ids};
ghost use Rattle.std.specs.List.{swap_remove, All};
ghost use Rattle.std.specs.FinMap.Entries.{find};
ghost use Rattle.eco_ids.specs.Order.{id_cmp, has_item};
ghost use Rattle.eco_ids.specs.declared.value.TheConstants.{FIELD_COUNT};
ghost use Rattle.eco_ids.specs.Data.{is_zero_past};
ghost use Rattle.eco_ids.specs.World.{zeros};
ghost use Rattle.eco_tables.specs.Column.{value_in, with_held, retyped};
ghost use Rattle.eco_tables.specs.Table.{TableState, TableRow, entities_of, HasIds, Agree, FitsId, width_in, empty_table};
ghost use Rattle.eco_tables.specs.Table.{TypeAscends};
ghost use Rattle.eco_tables.specs.Kept.{IsUnkept};
ghost use Rattle.eco_tables.specs.Tables.{cleared, new_row, no_row, with_room, with_row, with_rows, with_written, without_row, without_rows};
ghost use Rattle.eco_tables.specs.Values.{fields_of, whole_values};

use crate::column::Column;
use crate::columns::{
    are_alike, clear, columns_of, copy_all, find_column, find_value, join_all, move_row,
    push_zeros, reserve, shrink, swap_out_row, write_value,
};
use crate::values::Values;
use eco_ids::{Entity, Id, TypeList, Value};
use std::alloc::{AllocError, Global};
use std::marker::Model;
use std::mem;

mod runs;
mod turning;

/// The entities of one type (Flecs manual, "Component Traits": an archetype table). Rows have no order of their own: a
/// removal puts the last row in the place of the one that goes.
///
/// A contract sees a type, how wide the values of each id are, a list of rows, each an entity and every id of the type with
/// its value, and `room`: so many more rows fit with no allocation.
pub struct Table {
    // What the move of a row touches stands first, and so in one line of the cache.
    entities: Vec<Entity>,
    columns: Vec<Column>,
    room: usize,
    type_list: TypeList,
}

// By hand, so that dropping it is one call: a derived drop is proved anew at each early return of whoever holds it.
impl Drop for Table {
    fn drop(self) {
        let Table {
            type_list: _,
            entities: _,
            columns: _,
            room: _,
        } = self;
    }
}

impl Model for Table {
    ghost use Rattle.std.specs.Prelude.{vec_capacity};
    ghost use Rattle.eco_tables.specs.Table.{TableState, table_of, HasShape};

    ghost Value = { TableState };

    ghost view = { λ t. table_of t.type_list t.columns.items t.entities.items t.room };

    ghost invariant = { λ t.
        HasShape t.type_list t.entities.items (vec_capacity t.entities) t.columns.items t.room };
}

impl Table {
    /// A table without rows, with a column for each id of the type that has a width. An `Err` comes where memory for it is
    /// refused.
    pub fn new(alloc: Global, type_list: TypeList, widths: &[u8]) -> Result<Table, AllocError>
        requires lengths { length type_list ≡ length widths.now }
        requires widths { All (λ w. w ≤ FIELD_COUNT) widths.now }
        ensures is { IfOk result (λ t. t ≡ empty_table type_list widths.now) }
        ensures ascends { IfOk result TypeAscends }
    {
        let columns = columns_of(alloc, type_list.as_slice(), widths)?;
        Ok(Table {
            type_list,
            entities: Vec::new(alloc),
            columns,
            room: 0,
        })
    }

    /// The same rows once more, without room. An `Err` comes where memory is refused.
    pub fn try_copy(&self) -> Result<Table, AllocError>
        ensures { IfOk result (λ t. t ≡ with_room self.now 0) }
    {
        let type_list = self.type_list.try_copy()?;
        let entities = Vec::from_slice(*self.entities.allocator(), self.entities.as_slice())?;
        let columns = copy_all(*self.columns.allocator(), self.columns.as_slice())?;
        Ok(Table {
            type_list,
            entities,
            columns,
            room: 0,
        })
    }

    /// The ids that each row has a value for.
    pub fn type_list(&self) -> &TypeList
        ensures ids { result.now ≡ self.now.ids }
        ensures rows { All (HasIds self.now.ids) self.now.rows }
    {
        &self.type_list
    }

    /// How many fields the values of an id may use, if the type has the id.
    pub fn width(&self, id: Id) -> Option<u8>
        ensures width { result ≡ width_in self.now id }
        ensures few { IfSome result (λ fields. fields ≤ FIELD_COUNT) }
    {
        match find_column(self.columns.as_slice(), id) {
            Some(place) => Some(self.columns[place].width()),
            None if self.type_list.has(id) => Some(0),
            None => None,
        }
    }

    /// Does nothing, and its contract says that each id of the type has a width.
    pub fn ids_have_widths(&self)
        ensures { (i : Ids) → IsTrue (has_item id_cmp self.now.ids i) → IsSome (width_in self.now i) }
    {
        let _columns = &self.columns;
    }

    /// The entities of the rows, in their order.
    pub fn rows(&self) -> &[Entity]
        ensures { result.now ≡ entities_of self.now.rows }
    {
        self.entities.as_slice()
    }

    /// How many rows there are.
    pub fn row_count(&self) -> usize
        ensures { result ≡ length self.now.rows }
    {
        self.entities.len()
    }

    /// So many more rows fit without memory.
    #[inline]
    pub fn room(&self) -> usize
        ensures { result ≡ self.now.room }
    {
        self.room
    }

    /// The values of an id, row by row, in as many fields as the id is wide. None where the id has no column: then its value is
    /// zeros in each row whose type has the id.
    #[inline(always)]
    pub fn values(&self, id: Id) -> Option<Values<'_>>
        ensures shown { IfSome result (λ v. whole_values v ≡ map (λ r. value_in r.held id) self.now.rows) }
        ensures fields { IfSome result (λ v. width_in self.now id ≡ Some (fields_of v)) }
        ensures kept { is_some result ≡ nat_lt 0 (unwrap_or (width_in self.now id) 0) }
    {
        let place = find_column(self.columns.as_slice(), id)?;
        Some(self.columns[place].values())
    }

    /// The value of an id in a row, zeros where the type lacks the id.
    pub fn value(&self, row: usize, id: Id) -> Value
        requires { row < length self.now.rows }
        ensures { (r : TableRow) → result ≡ value_in (slice_index_or self.now.rows row r).held id }
    {
        find_value(self.columns.as_slice(), row, id).unwrap_or(Value::ZERO)
    }

    /// The value of an id in a row, if the type has the id.
    pub fn find_value(&self, row: usize, id: Id) -> Option<Value>
        requires { row < length self.now.rows }
        ensures { (r : TableRow) → result ≡ find id_cmp id (slice_index_or self.now.rows row r).held }
    {
        match find_value(self.columns.as_slice(), row, id) {
            Some(value) => Some(value),
            None if self.type_list.has(id) => Some(Value::ZERO),
            None => None,
        }
    }

    /// The value of an id in a row, where fields of it are kept, and whether it is zeros: none where the type lacks the id, or
    /// where each value of it is zeros, as it has no column.
    #[inline(always)]
    pub fn kept_value(&self, row: usize, id: Id) -> Option<(Value, bool)>
        requires { row < length self.now.rows }
        ensures kept { MatchOption result (IsUnkept self.now row id)
            (λ v. (r : TableRow) → find id_cmp id (slice_index_or self.now.rows row r).held ≡ Some v.0) }
        ensures zero { IfSome result (λ v. v.1 ≡ is_zero_past 0 v.0) }
    {
        let place = find_column(self.columns.as_slice(), id)?;
        Some(self.columns[place].told_value(row))
    }

    /// Writes that one value, which is no wider than the id's, and takes no memory. The answer is whether the type has the
    /// id; where it lacks it nothing is written. The id's column is looked for at the place `near` first, where it is
    /// remembered.
    #[inline(always)]
    pub fn set_value(&mut self, row: usize, id: Id, value: Value, near: &mut usize) -> bool
        requires row { row < length self.old.rows }
        requires fits { FitsId self.old id value }
        ensures written { self.new ≡ with_written self.old row id value }
        ensures had { result ≡ is_some (find id_cmp id (slice_index_or self.old.rows row no_row).held) }
    {
        // An id without a column has zeros, and gets none but those.
        write_value(self.columns.as_mut_slice(), row, id, value, near) || self.type_list.has(id)
    }

    /// Room for more rows. An `Err` keeps all rows and the room that was there.
    pub fn reserve(&mut self, more: usize) -> Result<(), AllocError>
        ensures same { self.new ≡ with_room self.old self.new.room }
        ensures kept { self.old.room ≤ self.new.room }
        ensures room { OnOk result (more ≤ self.new.room) }
        ensures err { OnErr result (self.new ≡ self.old) }
        ensures ready { more ≤ self.old.room → IsOk result }
        ensures bounded { self.new.room < 2 ^ 63 }
    {
        if more <= self.room {
            return Ok(());
        }
        self.grow(more)
    }

    // What `reserve` does where there is less room.
    #[cold]
    #[inline(never)]
    fn grow(&mut self, more: usize) -> Result<(), AllocError>
        requires { self.old.room < more }
        ensures same { self.new ≡ with_room self.old self.new.room }
        ensures kept { self.old.room ≤ self.new.room }
        ensures room { OnOk result (more ≤ self.new.room) }
        ensures err { OnErr result (self.new ≡ self.old) }
        ensures bounded { self.new.room < 2 ^ 63 }
    {
        self.entities.reserve(more)?;
        // The columns follow as far as the list of entities grew, so that the next rows find their room taken.
        let room = self.entities.capacity() - self.entities.len();
        reserve(self.columns.as_mut_slice(), room)?;
        self.room = room;
        Ok(())
    }

    /// Room for so many rows more than there was room for, and for no more than that. An `Err` keeps all rows and the room
    /// that was there.
    pub fn reserve_more(&mut self, more: usize) -> Result<(), AllocError>
        ensures same { self.new ≡ with_room self.old self.new.room }
        ensures kept { self.old.room ≤ self.new.room }
        ensures room { OnOk result (self.new.room ≡ self.old.room + more) }
        ensures err { OnErr result (self.new ≡ self.old) }
        ensures ready { more ≡ 0 → IsOk result }
    {
        // A sum that is too large for a number is more than memory can hold, and refused like any other.
        let wanted = self.room.saturating_add(more);
        self.reserve(wanted)?;
        self.promise(wanted);
        Ok(())
    }

    // Only so much room is promised: if all that the memory grew by were, each promise would double what the one before took.
    fn promise(&mut self, room: usize)
        requires { room ≤ self.old.room }
        ensures { self.new ≡ with_room self.old room }
    {
        self.room = room;
    }

    /// Takes the promise of room back. The memory stays the table's, and the next rows go there.
    pub fn waive(&mut self)
        ensures { self.new ≡ with_room self.old 0 }
    {
        self.room = 0;
    }

    /// Gives up the room but for so many more rows. The memory of the rest goes back, where the allocator takes it.
    pub fn shrink(&mut self, room: usize)
        requires { room ≤ self.old.room }
        ensures { self.new ≡ with_room self.old room }
    {
        let wanted = self.entities.len() + room;
        self.entities.shrink_to(wanted);
        shrink(self.columns.as_mut_slice(), room);
        self.room = room;
    }

    /// A row of another table goes to the end of this one, with the values of ids that both types have, which are as wide in both;
    /// new ids hold zeros. Into its place there the last row goes, and the room of one row is won there. It takes no memory. The
    /// answer is the entity that stands in the row's place now: none where the row was the last.
    #[inline(always)]
    pub fn take_row(&mut self, source: &mut Table, row: usize) -> Option<Entity>
        requires room { 0 < self.old.room }
        requires row { row < length source.old.rows }
        requires widths { Agree self.old source.old }
        ensures taken { self.new ≡ with_row self.old (slice_index_or source.old.rows row no_row) }
        ensures left { source.new ≡ without_row source.old row }
        ensures moved { result ≡ slice_get (entities_of source.new.rows) row }
    {
        let entity = source.entities.swap_remove(row);
        self.entities.push_reserved(entity);
        move_row(
            self.columns.as_mut_slice(),
            source.columns.as_mut_slice(),
            row,
        );
        self.room -= 1;
        source.room += 1;
        entity_at(source.entities.as_slice(), row)
    }

    /// All rows of another table go to the end of this one, with the values of ids that both types have, which are as wide in
    /// both; new ids hold zeros. It takes no memory. The other table promises no room any more.
    pub fn take_rows(&mut self, source: &mut Table)
        requires room { length source.old.rows ≤ self.old.room }
        requires widths { Agree self.old source.old }
        ensures taken { self.new ≡ with_rows self.old source.old.rows }
        ensures left { source.new ≡ without_rows source.old }
    {
        if !self.swap_rows(source) {
            self.join(source);
            source.empty();
        }
    }

    // Where there is no row here, and the columns are alike, what is kept of the rows changes hands and is not copied, unless
    // that had less room than is promised here. The answer is whether it did; if not, nothing has changed.
    fn swap_rows(&mut self, source: &mut Table) -> bool
        requires { length source.old.rows ≤ self.old.room }
        ensures taken { IsTrue result → self.new ≡ with_rows self.old source.old.rows }
        ensures left { IsTrue result → source.new ≡ without_rows source.old }
        ensures same { IsFalse result → self.new ≡ self.old }
        ensures kept { IsFalse result → source.new ≡ source.old }
    {
        let count = source.entities.len();
        if !self.entities.is_empty()
            || source.room + count < self.room
            || !are_alike(self.columns.as_slice(), source.columns.as_slice())
        {
            return false;
        }
        mem::swap(&mut self.entities, &mut source.entities);
        mem::swap(&mut self.columns, &mut source.columns);
        self.room -= count;
        source.room = 0;
        true
    }

    // The rows of another table once more, at the end of this one.
    fn join(&mut self, source: &Table)
        requires room { length source.now.rows ≤ self.old.room }
        requires widths { Agree self.old source.now }
        ensures { self.new ≡ with_rows self.old source.now.rows }
    {
        let entities = source.entities.as_slice();
        let _room = self.entities.extend_from_slice(entities);
        join_all(
            self.columns.as_mut_slice(),
            source.columns.as_slice(),
            entities,
        );
        self.room -= entities.len();
    }

    // All rows go. Their memory stays the table's, and the next ones go there.
    fn empty(&mut self)
        ensures { self.new ≡ without_rows self.old }
    {
        self.room = 0;
        self.entities.clear();
        clear(self.columns.as_mut_slice());
    }

    /// All rows go, and their room is won: the memory stays the table's, and the next rows go there. It takes no memory.
    pub fn clear(&mut self)
        ensures { self.new ≡ cleared self.old }
    {
        self.room += self.entities.len();
        self.entities.clear();
        clear(self.columns.as_mut_slice());
    }

    /// A row for a new entity, with zeros, in reserved room.
    pub fn push_row(&mut self, entity: Entity)
        requires { 0 < self.old.room }
        ensures { self.new ≡ with_row self.old (new_row entity) }
    {
        self.entities.push_reserved(entity);
        self.room -= 1;
        push_zeros(self.columns.as_mut_slice());
    }

    /// Takes a row out, into whose place the last row goes; the room of one row is won. The answer is the entity that
    /// stands in the row's place now: none where the row was the last.
    #[inline(always)]
    pub fn swap_out(&mut self, row: usize) -> Option<Entity>
        requires { row < length self.old.rows }
        ensures rows { self.new ≡ without_row self.old row }
        ensures moved { result ≡ slice_get (entities_of self.new.rows) row }
    {
        self.entities.swap_remove(row);
        swap_out_row(self.columns.as_mut_slice(), row);
        self.room += 1;
        entity_at(self.entities.as_slice(), row)
    }

    /// The table's type, which outlives the table.
    pub fn into_type_list(self) -> TypeList
        ensures { result ≡ self.ids }
    {
        let Table {
            type_list,
            entities: _,
            columns: _,
            room: _,
        } = self;
        type_list
    }
}

// The entity that stands in a row.
fn entity_at(entities: &[Entity], row: usize) -> Option<Entity>
    ensures { result ≡ slice_get entities.now row }
{
    entities.get(row).copied()
}
