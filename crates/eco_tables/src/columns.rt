//! What is done to all columns of a table. They ascend by their ids, and an id that is no data has none.
ghost use Rattle.std.specs.Prelude.{◌≡◌, ℕ, ◌<◌, ◌≤◌, ◌+◌, [], ◌∷◌, length, map, slice_get, slice_index_or, is_some};
ghost use Rattle.std.specs.Prelude.{IsTrue, None, Some, OnOk, IfOk, IfSome, IfNone, false, not, vec_len, vec_capacity};
ghost use Rattle.std.specs.Prelude.{◌↔◌, ◌++◌, drop, take};
ghost use Rattle.std.specs.List.{All, position_from};
ghost use Rattle.std.specs.FinMap.Entries.{find};
ghost use Rattle.std.specs.Ordering.{is_lt};
ghost use Rattle.eco_ids.specs.declared.value.TheConstants.{FIELD_COUNT};
ghost use Rattle.eco_ids.specs.World.{zeros};
ghost use Rattle.eco_ids.specs.Order.{id_cmp, id_eq, has_item, is_ascending};
ghost use Rattle.eco_tables.specs.Column.{Fits, pushed, lengthened, emptied, with_removed, written, held_in, value_in};
ghost use Rattle.eco_tables.specs.Column.{contents, kind_of, with_column, without_column};
ghost use Rattle.eco_tables.specs.Table.{ColumnsAgree, kinds_of, rows_from};

use crate::column::Column;
use eco_ids::{Entity, Id, Value};
use std::alloc::{AllocError, Global};
use std::cmp::Ordering;

// To ask so few columns one after another costs less than a search.
const FEW: usize = 8;

/// Where the column of an id is.
#[inline]
pub fn find_column(columns: &[Column], id: Id) -> Option<usize>
    requires { IsTrue (is_ascending id_cmp (map (λ c. c.id) columns.now)) }
    ensures found { IfSome result (λ i. slice_get (map (λ c. c.id) columns.now) i ≡ Some id) }
    ensures absent { IfNone result (has_item id_cmp (map (λ c. c.id) columns.now) id ≡ false) }
{
    // Each search is left where it finds nothing, so that whoever asks for the column need not look again whether it was found.
    let place = if columns.len() <= FEW {
        find_among(columns, id)?
    } else {
        // A copy of its own, since what is handed over stands in memory: so an id that is looked for among a few need not.
        let wanted = id;
        find_by_halves(columns, wanted)?
    };
    Some(place)
}

// Where the column of an id is among a few.
#[inline]
fn find_among(columns: &[Column], id: Id) -> Option<usize>
    ensures { result ≡ position_from (λ c. id_eq c.id id) 0 columns.now }
{
    columns.iter().position(|column| column.id().is(id))
}

// Where the column of an id is among many: by halves. Apart, so that a few columns cost no more than a look at each.
#[cold]
#[inline(never)]
fn find_by_halves(columns: &[Column], id: Id) -> Option<usize>
    requires { IsTrue (is_ascending id_cmp (map (λ c. c.id) columns.now)) }
    ensures found { IfSome result (λ i. slice_get (map (λ c. c.id) columns.now) i ≡ Some id) }
    ensures absent { IfNone result (has_item id_cmp (map (λ c. c.id) columns.now) id ≡ false) }
{
    let mut low = 0;
    let mut high = columns.len();
    while low < high {
        let middle = low + (high - low) / 2;
        match columns[middle].id().cmp(&id) {
            Ordering::Less => low = middle + 1,
            Ordering::Equal => return Some(middle),
            Ordering::Greater => high = middle,
        }
    }
    None
}

// Where the column of an id is. It is looked for at this place first.
#[inline(always)]
fn find_near(columns: &[Column], place: usize, id: Id) -> Option<usize>
    requires { IsTrue (is_ascending id_cmp (map (λ c. c.id) columns.now)) }
    ensures found { IfSome result (λ i. slice_get (map (λ c. c.id) columns.now) i ≡ Some id) }
    ensures absent { IfNone result (has_item id_cmp (map (λ c. c.id) columns.now) id ≡ false) }
{
    if place < columns.len() && columns[place].id().is(id) {
        return Some(place);
    }
    find_column(columns, id)
}

/// The value of an id in a row, if one of the columns has the id.
#[inline]
pub fn find_value(columns: &[Column], row: usize, id: Id) -> Option<Value>
    requires ascending { IsTrue (is_ascending id_cmp (map (λ c. c.id) columns.now)) }
    requires row { All (λ c. row < length c.values) columns.now }
    ensures { result ≡ find id_cmp id (held_in columns.now row) }
{
    let place = find_column(columns, id)?;
    Some(columns[place].value(row))
}

/// Writes the value of an id in a row. The answer is whether one of the columns has the id; where none has it nothing is
/// written. The column is looked for at the place `near` first, and where it is found stands there afterwards: so who writes
/// many values of one id looks for its column once.
#[inline(always)]
pub fn write_value(
    columns: &mut [Column],
    row: usize,
    id: Id,
    value: Value,
    near: &mut usize,
) -> bool
    requires ascending { IsTrue (is_ascending id_cmp (map (λ c. c.id) columns.old)) }
    requires row { All (λ c. row < length c.values) columns.old }
    requires fits { All (λ c. c.id ≡ id → Fits c.width value) columns.old }
    ensures written { columns.new ≡ map (λ c. written c row id value) columns.old }
    ensures had { result ≡ has_item id_cmp (map (λ c. c.id) columns.old) id }
{
    let Some(place) = find_near(columns, *near, id) else {
        return false;
    };
    *near = place;
    columns[place].write(row, value);
    true
}

/// One column for each id that has a width, without a row.
pub fn columns_of(alloc: Global, ids: &[Id], widths: &[u8]) -> Result<Vec<Column>, AllocError>
    requires lengths { length ids.now ≡ length widths.now }
    requires widths { All (λ w. w ≤ FIELD_COUNT) widths.now }
    ensures kinds { IfOk result (λ v. map kind_of v.items ≡ kinds_of ids.now widths.now) }
    ensures empty { IfOk result (λ v. All (λ c. c.values ≡ []) v.items) }
{
    let mut columns = Vec::new(alloc);
    for place in 0..ids.len() {
        if widths[place] > 0 {
            columns.push(Column::new(alloc, ids[place], widths[place]))?;
        }
    }
    Ok(columns)
}

/// Whether the columns are of the same ids, each as wide.
pub fn are_alike(columns: &[Column], others: &[Column]) -> bool
    ensures { IsTrue result ↔ (map kind_of columns.now ≡ map kind_of others.now) }
{
    if columns.len() != others.len() {
        return false;
    }
    for place in 0..columns.len() {
        if !columns[place].is_alike(&others[place]) {
            return false;
        }
    }
    true
}

/// The same columns once more. An `Err` comes where memory is refused.
pub fn copy_all(alloc: Global, columns: &[Column]) -> Result<Vec<Column>, AllocError>
    ensures { IfOk result (λ v. map contents v.items ≡ map contents columns.now) }
{
    let mut copies = Vec::with_capacity(alloc, columns.len())?;
    for column in columns {
        let copy = column.try_copy()?;
        copies.push(copy)?;
    }
    Ok(copies)
}

/// Room for more rows in each. An `Err` keeps what is there.
pub fn reserve(columns: &mut [Column], more: usize) -> Result<(), AllocError>
    ensures same { map contents columns.new ≡ map contents columns.old }
    ensures kept { (b : ℕ) → All (λ c. b ≤ c.room) columns.old → All (λ c. b ≤ c.room) columns.new }
    ensures room { OnOk result (All (λ c. more ≤ c.room) columns.new) }
{
    for column in columns.iter_mut() {
        column.reserve(more)?;
    }
    Ok(())
}

/// Each gives memory back, but for that of the rows and of so many more.
pub fn shrink(columns: &mut [Column], room: usize)
    requires { All (λ c. room ≤ c.room) columns.old }
    ensures same { map contents columns.new ≡ map contents columns.old }
    ensures room { All (λ c. room ≤ c.room) columns.new }
{
    for column in columns.iter_mut() {
        column.shrink(room);
    }
}

/// A place for one more row in each, with zeros.
#[inline(always)]
pub fn push_zeros(columns: &mut [Column])
    requires { All (λ c. 0 < c.room) columns.old }
    ensures { columns.new ≡ map (λ c. pushed c zeros) columns.old }
{
    if !columns.is_empty() {
        push_zeros_each(columns);
    }
}

// What `push_zeros` does where there are columns, apart, so that rows without values cost no more than a look at them.
#[inline(never)]
fn push_zeros_each(columns: &mut [Column])
    requires { All (λ c. 0 < c.room) columns.old }
    ensures { columns.new ≡ map (λ c. pushed c zeros) columns.old }
{
    for column in columns.iter_mut() {
        column.push_zeros();
    }
}

/// The row's values go, and the last row's take their place.
#[inline(always)]
pub fn swap_out_row(columns: &mut [Column], row: usize)
    requires { All (λ c. row < length c.values) columns.old }
    ensures { columns.new ≡ map (λ c. with_removed c row) columns.old }
{
    if !columns.is_empty() {
        swap_out_each(columns, row);
    }
}

// What `swap_out_row` does where there are columns, apart, so that rows without values cost no more than a look at them.
#[inline(never)]
fn swap_out_each(columns: &mut [Column], row: usize)
    requires { All (λ c. row < length c.values) columns.old }
    ensures { columns.new ≡ map (λ c. with_removed c row) columns.old }
{
    for column in columns.iter_mut() {
        column.swap_out(row);
    }
}

/// All values go. The memory stays.
pub fn clear(columns: &mut [Column])
    ensures { columns.new ≡ map emptied columns.old }
{
    for column in columns.iter_mut() {
        column.clear();
    }
}

/// A row's values go to other columns, where they are the last ones: zeros for an id that had no column. The last values take
/// their place.
#[inline(always)]
pub fn move_row(columns: &mut [Column], source: &mut [Column], row: usize)
    requires room { All (λ c. 0 < c.room) columns.old }
    requires sorted { IsTrue (is_ascending id_cmp (map (λ c. c.id) columns.old)) }
    requires ascending { IsTrue (is_ascending id_cmp (map (λ c. c.id) source.old)) }
    requires row { All (λ c. row < length c.values) source.old }
    requires widths { ColumnsAgree columns.old source.old }
    ensures taken { columns.new ≡ map (λ c. pushed c (value_in (held_in source.old row) c.id)) columns.old }
    ensures left { source.new ≡ map (λ c. with_removed c row) source.old }
{
    if columns.is_empty() {
        swap_out_row(source, row);
    } else if source.is_empty() {
        push_zeros(columns);
    } else {
        move_each(columns, source, row);
    }
}

// What `move_row` does where both have columns, apart, so that rows without values cost no more than a look at them.
//
// Mostly all ids that are data stay, and each value goes straight to the column of its place.
#[inline(never)]
fn move_each(columns: &mut [Column], source: &mut [Column], row: usize)
    requires room { All (λ c. 0 < c.room) columns.old }
    requires sorted { IsTrue (is_ascending id_cmp (map (λ c. c.id) columns.old)) }
    requires ascending { IsTrue (is_ascending id_cmp (map (λ c. c.id) source.old)) }
    requires row { All (λ c. row < length c.values) source.old }
    requires widths { ColumnsAgree columns.old source.old }
    ensures taken { columns.new ≡ map (λ c. pushed c (value_in (held_in source.old row) c.id)) columns.old }
    ensures left { source.new ≡ map (λ c. with_removed c row) source.old }
{
    let count = move_alike(columns, source, row);
    move_rest(&mut columns[count..], &mut source[count..], row);
}

// As long as the columns in one place after another have the same id, the row's values go from one to the other. The answer is
// how many do.
#[inline(always)]
fn move_alike(columns: &mut [Column], source: &mut [Column], row: usize) -> usize
    requires room { All (λ c. 0 < c.room) columns.old }
    requires ascending { IsTrue (is_ascending id_cmp (map (λ c. c.id) source.old)) }
    requires row { All (λ c. row < length c.values) source.old }
    requires widths { ColumnsAgree columns.old source.old }
    ensures here { result ≤ length columns.old }
    ensures there { result ≤ length source.old }
    ensures alike { take result (map (λ c. c.id) columns.old) ≡ take result (map (λ c. c.id) source.old) }
    ensures taken { columns.new ≡ map (λ c. pushed c (value_in (held_in source.old row) c.id))
        (take result columns.old) ++ drop result columns.old }
    ensures left { source.new ≡ map (λ c. with_removed c row) (take result source.old) ++ drop result source.old }
{
    let mut place = 0;
    while place < columns.len()
        && place < source.len()
        && columns[place].id().is(source[place].id())
    {
        columns[place].take_from(&mut source[place], row);
        place += 1;
    }
    place
}

// The same as `move_row`, for what `move_alike` leaves.
#[inline(always)]
fn move_rest(columns: &mut [Column], source: &mut [Column], row: usize)
    requires room { All (λ c. 0 < c.room) columns.old }
    requires ascending { IsTrue (is_ascending id_cmp (map (λ c. c.id) source.old)) }
    requires row { All (λ c. row < length c.values) source.old }
    requires widths { ColumnsAgree columns.old source.old }
    ensures taken { columns.new ≡ map (λ c. pushed c (value_in (held_in source.old row) c.id)) columns.old }
    ensures left { source.new ≡ map (λ c. with_removed c row) source.old }
{
    push_from(columns, source, row);
    swap_out_row(source, row);
}

// A place for one more row in each, with the values of a row elsewhere: zeros for an id that has no column there.
#[inline(always)]
fn push_from(columns: &mut [Column], source: &[Column], row: usize)
    requires room { All (λ c. 0 < c.room) columns.old }
    requires ascending { IsTrue (is_ascending id_cmp (map (λ c. c.id) source.now)) }
    requires row { All (λ c. row < length c.values) source.now }
    requires widths { ColumnsAgree columns.old source.now }
    ensures { columns.new ≡ map (λ c. pushed c (value_in (held_in source.now row) c.id)) columns.old }
{
    // Both lists ascend by their ids, so the next column is mostly found beside the last one.
    let mut near = 0;
    for column in columns.iter_mut() {
        match find_near(source, near, column.id()) {
            Some(place) => {
                column.push_from(&source[place], row);
                near = place + 1;
            }
            None => column.push_zeros(),
        }
    }
}

/// Places for the rows of all these entities, who stand elsewhere, with their values: zeros for an id that has no column
/// there.
pub fn join_all(columns: &mut [Column], source: &[Column], entities: &[Entity])
    requires room { All (λ c. length entities.now ≤ c.room) columns.old }
    requires ascending { IsTrue (is_ascending id_cmp (map (λ c. c.id) source.now)) }
    requires even { All (λ c. length c.values ≡ length entities.now) source.now }
    requires widths { ColumnsAgree columns.old source.now }
    ensures same { map contents columns.new ≡ map contents
        (map (λ c. lengthened c (map (λ r. value_in r.held c.id) (rows_from source.now 0 entities.now)))
        columns.old) }
    ensures kept { (b : ℕ) →
        All (λ c. b + length entities.now ≤ c.room) columns.old → All (λ c. b ≤ c.room) columns.new }
{
    for column in columns.iter_mut() {
        match find_column(source, column.id()) {
            Some(place) => column.join(&source[place]),
            None => column.join_zeros(entities.len()),
        }
    }
}

// Whether the column stands before one of this id.
fn is_before(column: &Column, id: Id) -> bool
    ensures { result ≡ is_lt (id_cmp column.now.id id) }
{
    column.id().cmp(&id) == Ordering::Less
}

// Where the first column stands that is not before one of this id.
fn find_end(columns: &[Column], id: Id) -> Option<usize>
    ensures { result ≡ position_from (λ c. not (is_lt (id_cmp c.id id))) 0 columns.now }
{
    columns.iter().position(|column| !is_before(column, id))
}

/// Puts one more column in its place, in room that was reserved.
pub fn insert_column(columns: &mut Vec<Column>, column: Column)
    requires { vec_len columns.old < vec_capacity columns.old }
    ensures { columns.new.items ≡ with_column columns.old.items column }
{
    let place = find_end(columns.as_slice(), column.id()).unwrap_or(columns.len());
    columns.insert(place, column).unwrap();
}

/// Drops the column of an id, if it has one.
pub fn remove_column(columns: &mut Vec<Column>, id: Id)
    requires { IsTrue (is_ascending id_cmp (map (λ c. c.id) columns.old.items)) }
    ensures { columns.new.items ≡ without_column columns.old.items id }
{
    if let Some(place) = find_column(columns.as_slice(), id) {
        let _dropped = columns.remove(place);
    }
}
