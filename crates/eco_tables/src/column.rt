//! The values of one id, a place for each row, in as many fields as the id has.
ghost use Rattle.std.specs.Prelude.{◌≡◌, ◌<◌, ◌≤◌, ◌+◌, ◌^◌, [], length, replicate, slice_index_or};
ghost use Rattle.std.specs.Prelude.{OnOk, IfOk, ◌↔◌, IsTrue};
ghost use Rattle.eco_ids.specs.Data.{is_zero_past};
ghost use Rattle.eco_ids.specs.World.{zeros};
ghost use Rattle.eco_tables.specs.Column.{Fits, kind_of, pushed, lengthened, with_removed, column_with_value, emptied, contents};
ghost use Rattle.eco_tables.specs.Values.{fields_of, whole_values};
ghost use Rattle.eco_tables.specs.Fields.{width_of, values_of};

use crate::values::Values;
use eco_ids::value::FIELD_COUNT;
use eco_ids::{Id, Value};
use std::alloc::{AllocError, Global};
use std::marker::Model;

/// What is kept of values: so many fields of each. Narrow and wide ones are told apart first: so a value of few fields is found
/// by three comparisons, where all eight widths at once would take a jump that is looked up.
#[derive(Drop)]
pub enum Cells {
    Narrow(Narrow),
    Wide(Wide),
}

// Does the same with the fields, however many are kept of each value.
macro_rules! at_each_width {
    ($fields:expr, |$rows:ident| $done:expr) => {
        match $fields {
            Cells::Narrow(fields) => match fields {
                Narrow::One($rows) => $done,
                Narrow::Two($rows) => $done,
                Narrow::Three($rows) => $done,
            },
            Cells::Wide(fields) => match fields {
                Wide::Four($rows) => $done,
                Wide::Five($rows) => $done,
                Wide::Six($rows) => $done,
                Wide::Seven($rows) => $done,
                Wide::Eight($rows) => $done,
            },
        }
    };
}

// Does the same with the fields of two columns that keep as many of each value: narrow and wide ones are told apart here, and how
// many they are there, since all eight widths of two columns at once are dear to prove.
macro_rules! at_equal_widths {
    ($fields:expr, $others:expr, |$rows:ident, $source:ident| $done:expr) => {
        match ($fields, $others) {
            (Cells::Narrow($rows), Cells::Narrow($source)) => $done,
            (Cells::Wide($rows), Cells::Wide($source)) => $done,
            _ => unreachable!(),
        }
    };
}

mod fields;
mod narrow;
mod runs;
mod wide;

use fields::{copied, empty, join_zeros, push_zeros, put, read, read_told, shrink, take_out};
use narrow::Narrow;
use wide::Wide;

/// A contract sees the id, how many fields are kept (`width`), the whole values, and how many more fit with no allocation
/// (`room`).
pub struct Column {
    id: Id,
    fields: Cells,
}

// By hand, so that dropping it is one call: a derived drop is proved anew at each early return of whoever holds it.
impl Drop for Column {
    fn drop(self) {
        let Column { id: _, fields: _ } = self;
    }
}

impl Model for Column {
    ghost use Rattle.eco_tables.specs.Column.{ColumnState};
    ghost use Rattle.eco_tables.specs.Fields.{width_of, values_of, room_of};

    ghost Value = { ColumnState };

    ghost view = { λ c. record {
      id = c.id;
      width = width_of c.fields;
      values = values_of c.fields;
      room = room_of c.fields;
    } };
}

impl Cells {
    // The same fields once more. An `Err` comes where memory is refused.
    fn try_copy(&self) -> Result<Cells, AllocError>
        ensures width { IfOk result (λ f. width_of f ≡ width_of self.now) }
        ensures values { IfOk result (λ f. values_of f ≡ values_of self.now) }
    {
        Ok(match self {
            Cells::Narrow(fields) => Cells::Narrow(match fields {
                Narrow::One(rows) => Narrow::One(copied(rows)?),
                Narrow::Two(rows) => Narrow::Two(copied(rows)?),
                Narrow::Three(rows) => Narrow::Three(copied(rows)?),
            }),
            Cells::Wide(fields) => Cells::Wide(match fields {
                Wide::Four(rows) => Wide::Four(copied(rows)?),
                Wide::Five(rows) => Wide::Five(copied(rows)?),
                Wide::Six(rows) => Wide::Six(copied(rows)?),
                Wide::Seven(rows) => Wide::Seven(copied(rows)?),
                Wide::Eight(rows) => Wide::Eight(copied(rows)?),
            }),
        })
    }
}

impl Column {
    /// A column without values, of 1 to 8 fields each.
    pub fn new(alloc: Global, id: Id, width: u8) -> Column
        requires at_least { 1 ≤ width }
        requires at_most { width ≤ FIELD_COUNT }
        ensures id { result.id ≡ id }
        ensures width { result.width ≡ width }
        ensures empty { result.values ≡ [] }
    {
        let fields = match width {
            1 => Cells::Narrow(Narrow::One(Vec::new(alloc))),
            2 => Cells::Narrow(Narrow::Two(Vec::new(alloc))),
            3 => Cells::Narrow(Narrow::Three(Vec::new(alloc))),
            4 => Cells::Wide(Wide::Four(Vec::new(alloc))),
            5 => Cells::Wide(Wide::Five(Vec::new(alloc))),
            6 => Cells::Wide(Wide::Six(Vec::new(alloc))),
            7 => Cells::Wide(Wide::Seven(Vec::new(alloc))),
            _ => Cells::Wide(Wide::Eight(Vec::new(alloc))),
        };
        Column { id, fields }
    }

    /// A column with zeros for so many rows, and room for more. An `Err` comes where memory is refused.
    pub fn zeros(
        alloc: Global,
        id: Id,
        width: u8,
        count: usize,
        room: usize,
    ) -> Result<Column, AllocError>
        requires at_least { 1 ≤ width }
        requires at_most { width ≤ FIELD_COUNT }
        requires fits { count + room < 2 ^ 64 }
        ensures id { IfOk result (λ c. c.id ≡ id) }
        ensures width { IfOk result (λ c. c.width ≡ width) }
        ensures values { IfOk result (λ c. c.values ≡ replicate count zeros) }
        ensures room { IfOk result (λ c. room ≤ c.room) }
    {
        let mut column = Column::new(alloc, id, width);
        column.reserve(count + room)?;
        column.join_zeros(count);
        Ok(column)
    }

    /// The same values once more, under the same id. An `Err` comes where memory is refused.
    pub fn try_copy(&self) -> Result<Column, AllocError>
        ensures { IfOk result (λ c. contents c ≡ contents self.now) }
    {
        let fields = self.fields.try_copy()?;
        Ok(Column {
            id: self.id,
            fields,
        })
    }

    /// Whose values these are.
    pub fn id(&self) -> Id
        ensures { result ≡ self.now.id }
    {
        self.id
    }

    /// How many fields are kept of each value.
    pub fn width(&self) -> u8
        ensures width { result ≡ self.now.width }
        ensures few { result ≤ FIELD_COUNT }
    {
        match &self.fields {
            Cells::Narrow(fields) => match fields {
                Narrow::One(_) => 1,
                Narrow::Two(_) => 2,
                Narrow::Three(_) => 3,
            },
            Cells::Wide(fields) => match fields {
                Wide::Four(_) => 4,
                Wide::Five(_) => 5,
                Wide::Six(_) => 6,
                Wide::Seven(_) => 7,
                Wide::Eight(_) => 8,
            },
        }
    }

    /// Whether these are the values of the same id, in as many fields.
    pub fn is_alike(&self, other: &Column) -> bool
        ensures { IsTrue result ↔ (kind_of self.now ≡ kind_of other.now) }
    {
        self.id.is(other.id) && self.width() == other.width()
    }

    /// The values, to read in a row, in as many fields as are kept.
    #[inline(always)]
    pub fn values(&self) -> Values<'_>
        ensures fields { fields_of result ≡ self.now.width }
        ensures values { whole_values result ≡ self.now.values }
    {
        match &self.fields {
            Cells::Narrow(fields) => match fields {
                Narrow::One(rows) => Values::One(rows.as_slice()),
                Narrow::Two(rows) => Values::Two(rows.as_slice()),
                Narrow::Three(rows) => Values::Three(rows.as_slice()),
            },
            Cells::Wide(fields) => match fields {
                Wide::Four(rows) => Values::Four(rows.as_slice()),
                Wide::Five(rows) => Values::Five(rows.as_slice()),
                Wide::Six(rows) => Values::Six(rows.as_slice()),
                Wide::Seven(rows) => Values::Seven(rows.as_slice()),
                Wide::Eight(rows) => Values::Eight(rows.as_slice()),
            },
        }
    }

    /// Room for more values. An `Err` keeps what is there.
    pub fn reserve(&mut self, more: usize) -> Result<(), AllocError>
        ensures same { self.new ≡ record self.old { room = self.new.room } }
        ensures kept { self.old.room ≤ self.new.room }
        ensures room { OnOk result (more ≤ self.new.room) }
    {
        at_each_width!(&mut self.fields, |rows| rows.reserve(more))
    }

    /// Gives memory back, but for that of the values and of so many more. Where the allocator takes none, it stays.
    pub fn shrink(&mut self, room: usize)
        requires { room ≤ self.old.room }
        ensures same { self.new ≡ record self.old { room = self.new.room } }
        ensures room { room ≤ self.new.room }
    {
        at_each_width!(&mut self.fields, |rows| shrink(rows, room))
    }

    /// Zeros for one more row, in reserved room.
    pub fn push_zeros(&mut self)
        requires { 0 < self.old.room }
        ensures { self.new ≡ pushed self.old zeros }
    {
        at_each_width!(&mut self.fields, |rows| push_zeros(rows))
    }

    /// A value for one more row, in reserved room: that of a row of another column of as many fields.
    pub fn push_from(&mut self, source: &Column, row: usize)
        requires room { 0 < self.old.room }
        requires row { row < length source.now.values }
        requires width { self.old.width ≡ source.now.width }
        ensures { self.new ≡ pushed self.old (slice_index_or source.now.values row zeros) }
    {
        at_equal_widths!(
            &mut self.fields,
            &source.fields,
            |fields, others| fields.push_from(others, row)
        )
    }

    /// A value for one more row, in reserved room: that of a row of another column of as many fields, where it goes, and the last
    /// one takes its place.
    #[inline(always)]
    pub fn take_from(&mut self, source: &mut Column, row: usize)
        requires room { 0 < self.old.room }
        requires row { row < length source.old.values }
        requires width { self.old.width ≡ source.old.width }
        ensures taken { self.new ≡ pushed self.old (slice_index_or source.old.values row zeros) }
        ensures left { source.new ≡ with_removed source.old row }
    {
        at_equal_widths!(
            &mut self.fields,
            &mut source.fields,
            |fields, others| fields.take_from(others, row)
        )
    }

    /// Zeros for more rows, in reserved room.
    pub fn join_zeros(&mut self, count: usize)
        requires { count ≤ self.old.room }
        ensures values { self.new ≡
            record (lengthened self.old (replicate count zeros)) { room = self.new.room } }
        ensures room { self.old.room ≤ self.new.room + count }
    {
        at_each_width!(&mut self.fields, |rows| join_zeros(rows, count))
    }

    /// All values of another column of as many fields, for more rows, in reserved room.
    pub fn join(&mut self, source: &Column)
        requires room { length source.now.values ≤ self.old.room }
        requires width { self.old.width ≡ source.now.width }
        ensures values { self.new ≡ record (lengthened self.old source.now.values) { room = self.new.room } }
        ensures room { self.old.room ≤ self.new.room + length source.now.values }
    {
        at_equal_widths!(
            &mut self.fields,
            &source.fields,
            |fields, others| fields.join(others)
        )
    }

    /// The value in a row.
    #[inline(always)]
    pub fn value(&self, row: usize) -> Value
        requires { row < length self.now.values }
        ensures value { result ≡ slice_index_or self.now.values row zeros }
        ensures fits { Fits self.now.width result }
    {
        at_each_width!(&self.fields, |rows| read(rows, row))
    }

    /// The value in a row, and whether it is zeros: of a value only the fields that are kept are looked at.
    #[inline(always)]
    pub fn told_value(&self, row: usize) -> (Value, bool)
        requires { row < length self.now.values }
        ensures value { result.0 ≡ slice_index_or self.now.values row zeros }
        ensures zero { result.1 ≡ is_zero_past 0 result.0 }
    {
        at_each_width!(&self.fields, |rows| read_told(rows, row))
    }

    /// Writes the value in a row.
    #[inline(always)]
    pub fn write(&mut self, row: usize, value: Value)
        requires row { row < length self.old.values }
        requires fits { Fits self.old.width value }
        ensures { self.new ≡ column_with_value self.old row value }
    {
        at_each_width!(&mut self.fields, |rows| put(rows, row, value))
    }

    /// The row's value goes, and the last one takes its place.
    pub fn swap_out(&mut self, row: usize)
        requires { row < length self.old.values }
        ensures { self.new ≡ with_removed self.old row }
    {
        at_each_width!(&mut self.fields, |rows| take_out(rows, row))
    }

    /// All values go; the memory stays.
    pub fn clear(&mut self)
        ensures { self.new ≡ emptied self.old }
    {
        at_each_width!(&mut self.fields, |rows| empty(rows))
    }
}
