//! Values of one id are written in many rows at once.
ghost use Rattle.std.specs.Prelude.{◌≡◌, ◌<◌, ◌≤◌, IsTrue, drop, length, take};
ghost use Rattle.std.specs.List.{All};
ghost use Rattle.eco_ids.specs.Data.{is_zero_past};
ghost use Rattle.eco_ids.specs.Order.{has_item, id_cmp};
ghost use Rattle.eco_ids.specs.World.{padded};
ghost use Rattle.eco_ids.specs.declared.value.TheConstants.{FIELD_COUNT};
ghost use Rattle.eco_ids.specs.declared.value.Value.{Value as Values};
ghost use Rattle.eco_tables.specs.Runs.{IsLongestRun, IsRunOf, run_values, table_with_run};
ghost use Rattle.eco_tables.specs.Table.{FitsId, StoresFields, entities_of};

use crate::columns::find_column;
use crate::table::Table;
use eco_ids::{Entity, Id, are_zero};

// Whether the fields past so many are 0.
#[inline(always)]
fn has_few<const N: usize>(fields: &[i64; N], arity: u8) -> bool
    requires { N ≤ FIELD_COUNT }
    ensures told { result ≡ is_zero_past arity (padded fields.now) }
    ensures long { length fields.now ≡ N }
{
    let count = arity as usize;
    if count >= N {
        return true;
    }
    let whole = &fields[..];
    are_zero(&whole[count..])
}

// The entities from a row on.
#[inline(always)]
fn entities_from(entities: &[Entity], row: usize) -> &[Entity]
    requires { row ≤ length entities.now }
    ensures { result.now ≡ drop row entities.now }
{
    &entities[row..]
}

// How many of the sets, from the first on, are of the entities of these rows, at indices no lower than the least, and of
// values with zeros past so many fields.
fn count_rows<const N: usize>(
    entities: &[Entity],
    sets: &[(Entity, [i64; N])],
    arity: u8,
    least: u32,
) -> usize
    requires { N ≤ FIELD_COUNT }
    ensures run { IsRunOf entities.now arity least (take result sets.now) }
    ensures rows { result ≤ length entities.now }
    ensures sets { result ≤ length sets.now }
    ensures long { All (λ s. length s.1 ≡ N) (take result sets.now) }
    ensures longest { IsLongestRun entities.now arity least sets.now result }
{
    let most = if sets.len() < entities.len() {
        sets.len()
    } else {
        entities.len()
    };
    let mut count = 0;
    while count < most {
        let set = &sets[count];
        if !entities[count].is(set.0) || set.0.index < least || !has_few(&set.1, arity) {
            return count;
        }
        count += 1;
    }
    count
}

impl Table {
    /// Writes values of an id in rows one behind the other, from this one on: of the sets, each of an entity and the first
    /// fields of its value, as many as are of the entities of these rows, at indices no lower than the least, with zeros past
    /// so many fields. It takes no memory. The answer is how many are written; none where no fields of the id are kept.
    #[inline]
    pub fn set_rows<const N: usize>(
        &mut self,
        row: usize,
        id: Id,
        sets: &[(Entity, [i64; N])],
        arity: u8,
        least: u32,
    ) -> usize
        requires few { N ≤ FIELD_COUNT }
        requires row { row < length self.old.rows }
        requires fits { (v : Values) → length v.0 ≡ FIELD_COUNT → IsTrue (is_zero_past arity v)
            → FitsId self.old id v }
        ensures written { self.new ≡ table_with_run self.old row id (run_values (take result sets.now)) }
        ensures run { IsRunOf (drop row (entities_of self.old.rows)) arity least (take result sets.now) }
        ensures within { result ≤ length sets.now }
        ensures long { All (λ s. length s.1 ≡ N) (take result sets.now) }
        ensures had { 0 < result → IsTrue (has_item id_cmp self.old.ids id) }
        ensures longest { IsTrue (has_item id_cmp self.old.ids id) → StoresFields self.old id
            → IsLongestRun (drop row (entities_of self.old.rows)) arity least sets.now result }
    {
        let Some(place) = find_column(self.columns.as_slice(), id) else {
            return 0;
        };
        let entities = entities_from(self.entities.as_slice(), row);
        let count = count_rows(entities, sets, arity, least);
        self.columns[place].write_rows(row, &sets[..count]);
        count
    }
}
