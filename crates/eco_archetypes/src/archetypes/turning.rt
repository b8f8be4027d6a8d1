//! A table of one row takes the type of its next step where it stands: to make a table of that type, and to drop this one,
//! would cost as much as the type has ids.
ghost use Rattle.std.specs.Prelude.{◌≡◌, ◌≢◌, ◌<◌, ◌≤◌, ℕ, length, Some, IsSome, IsFalse, true, false, IfNone, IfOk, IfSome, OnOk, OnErr};
ghost use Rattle.eco_ids.specs.declared.value.TheConstants.{FIELD_COUNT};
ghost use Rattle.eco_ids.specs.Fingerprint.{fingerprint};
ghost use Rattle.eco_ids.specs.Order.{id_cmp, has_item, with_item, without_item};
ghost use Rattle.eco_tables.specs.Tables.{slot_of, table_in};
ghost use Rattle.eco_index.specs.Edges.{toggled};
ghost use Rattle.eco_index.specs.Contents.{lists_in};
ghost use Rattle.eco_archetypes.specs.Archetypes.{type_at, IsIdIndex, TakesType, MayTakeType, SameSlots, SomeHasType};
ghost use Rattle.eco_archetypes.specs.Widths.{AreAgreed, KeepsWidths, LetsGrow, StillCover, FitsAll};

use crate::archetypes::stepping::toggled;
use crate::archetypes::{Archetypes, type_in};
use eco_entities::EntityIndex;
use eco_ids::{Id, TableSlot, TypeList};
use eco_index::IdIndex;
use eco_tables::Tables;
use std::alloc::{AllocError, Global};

impl Archetypes {
    /// Where the table in a slot has one row, and there is no table of the type that has the id more, or less, it takes that
    /// type, and the answer is true; else nothing changes. An `Err` comes where memory is refused, and then nothing has
    /// changed.
    pub fn step_alone(
        &mut self,
        entities: &EntityIndex,
        slot: TableSlot,
        id: Id,
    ) -> Result<bool, AllocError>
        requires { IsSome (slot_of self.old slot) }
        ensures ok { IfOk result
            (MayTakeType self.old self.new slot (toggled (table_in self.old slot).ids id)) }
        ensures refused { IfOk result (λ takes. IsFalse takes → length (table_in self.old slot).rows ≡ 1
            → SomeHasType self.old (toggled (table_in self.old slot).ids id)) }
        ensures err { OnErr result (SameSlots self.old self.new) }
        ensures widths { StillCover entities.now self.old self.new }
    {
        if self.tables.row_count(slot) != 1 {
            return Ok(false);
        }
        self.step_only_row(entities, slot, id)
    }

    // What `step_alone` does where the table has one row. Rare beside steps from tables of many.
    #[cold]
    #[inline(never)]
    fn step_only_row(
        &mut self,
        entities: &EntityIndex,
        slot: TableSlot,
        id: Id,
    ) -> Result<bool, AllocError>
        requires there { IsSome (slot_of self.old slot) }
        requires alone { length (table_in self.old slot).rows ≡ 1 }
        ensures ok { IfOk result
            (MayTakeType self.old self.new slot (toggled (table_in self.old slot).ids id)) }
        ensures refused { IfOk result (λ takes. IsFalse takes
            → SomeHasType self.old (toggled (table_in self.old slot).ids id)) }
        ensures err { OnErr result (SameSlots self.old self.new) }
        ensures widths { StillCover entities.now self.old self.new }
    {
        if self.lead(slot, id).is_some() || self.find_toggled(slot, id)?.is_some() {
            return Ok(false);
        }
        if type_in(&self.tables, slot).has(id) {
            self.lose_alone(slot, id)?;
        } else {
            self.gain_alone(entities, slot, id)?;
        }
        Ok(true)
    }

    // The slot of the table whose type has the id more, or less. Where no type has the fingerprint of that one there is none,
    // and no list is made.
    fn find_toggled(&mut self, slot: TableSlot, id: Id) -> Result<Option<TableSlot>, AllocError>
        requires { IsSome (slot_of self.old slot) }
        ensures found { IfOk result (λ o. IfSome o
            (λ n. type_at self.old n ≡ Some (toggled (table_in self.old slot).ids id))) }
        ensures none { IfOk result (λ o. IfNone o ((n : ℕ)
            → type_at self.old n ≢ Some (toggled (table_in self.old slot).ids id))) }
        ensures same { self.new ≡ self.old }
    {
        let own = type_in(&self.tables, slot);
        if self.by_type.slots(toggled_mark(own, id)).is_empty() {
            return Ok(None);
        }
        let type_list = toggled(own, id)?;
        Ok(self.find(&type_list))
    }

    // What `step_only_row` does where the type lacks the id, and no table has the type with it.
    fn gain_alone(
        &mut self,
        entities: &EntityIndex,
        slot: TableSlot,
        id: Id,
    ) -> Result<(), AllocError>
        requires there { IsSome (slot_of self.old slot) }
        requires lacks { has_item id_cmp (table_in self.old slot).ids id ≡ false }
        requires absent { (n : ℕ)
            → type_at self.old n ≢ Some (with_item id_cmp (table_in self.old slot).ids id) }
        ensures ok { OnOk result
            (TakesType self.old self.new slot (with_item id_cmp (table_in self.old slot).ids id)) }
        ensures err { OnErr result (SameSlots self.old self.new) }
        ensures widths { StillCover entities.now self.old self.new }
    {
        let width = self.width_of(entities, id);
        self.caches.reserve_one()?;
        let old = type_in(&self.tables, slot);
        let (mark, grown) = (old.mark(), old.mark_with(id));
        self.by_type.add(self.alloc, grown, slot)?;
        let tables = &mut self.tables;
        if let Err(refused) = gain(tables, &mut self.by_id, self.alloc, slot, id, width) {
            self.by_type.leave(grown, mark, slot);
            return Err(refused);
        }
        self.by_type.leave(mark, grown, slot);
        self.caches.tell(slot, type_in(&self.tables, slot));
        self.edges.cut(slot);
        Ok(())
    }

    // What `step_only_row` does where the type has the id, and no table has the type without it.
    fn lose_alone(&mut self, slot: TableSlot, id: Id) -> Result<(), AllocError>
        requires there { IsSome (slot_of self.old slot) }
        requires has { has_item id_cmp (table_in self.old slot).ids id ≡ true }
        requires absent { (n : ℕ)
            → type_at self.old n ≢ Some (without_item id_cmp (table_in self.old slot).ids id) }
        ensures ok { OnOk result
            (TakesType self.old self.new slot (without_item id_cmp (table_in self.old slot).ids id)) }
        ensures err { OnErr result (SameSlots self.old self.new) }
        ensures widths { KeepsWidths self.old self.new }
    {
        self.caches.reserve_one()?;
        let old = type_in(&self.tables, slot);
        let (mark, left) = (old.mark(), old.mark_without(id));
        self.by_type.add(self.alloc, left, slot)?;
        self.by_type.leave(mark, left, slot);
        lose(&mut self.tables, &mut self.by_id, slot, id);
        self.caches.tell(slot, type_in(&self.tables, slot));
        self.edges.cut(slot);
        Ok(())
    }
}

// The fingerprint of the type with the id, or without it where it has it.
fn toggled_mark(type_list: &TypeList, id: Id) -> u64
    ensures { result ≡ fingerprint (toggled type_list.now id) }
{
    if type_list.has(id) {
        type_list.mark_without(id)
    } else {
        type_list.mark_with(id)
    }
}

fn gain(
    tables: &mut Tables,
    by_id: &mut IdIndex,
    alloc: Global,
    slot: TableSlot,
    id: Id,
    width: u8,
) -> Result<(), AllocError>
    requires there { IsSome (slot_of tables.old slot) }
    requires lacks { has_item id_cmp (table_in tables.old slot).ids id ≡ false }
    requires index { IsIdIndex (type_at tables.old) (lists_in by_id.old) }
    requires agreed { AreAgreed tables.old }
    requires few { width ≤ FIELD_COUNT }
    requires width { FitsAll tables.old id width }
    ensures ok { OnOk result
        (TakesType tables.old tables.new slot (with_item id_cmp (table_in tables.old slot).ids id)) }
    ensures err { OnErr result (SameSlots tables.old tables.new) }
    ensures index { IsIdIndex (type_at tables.new) (lists_in by_id.new) }
    ensures agreed { AreAgreed tables.new }
    ensures widths { LetsGrow tables.old tables.new id width }
{
    tables.get(slot).unwrap().ids_have_widths();
    by_id.join(alloc, id, slot)?;
    if let Err(refused) = tables.gain(slot, id, width) {
        by_id.leave(id, type_in(tables, slot), slot);
        return Err(refused);
    }
    Ok(())
}

fn lose(tables: &mut Tables, by_id: &mut IdIndex, slot: TableSlot, id: Id)
    requires there { IsSome (slot_of tables.old slot) }
    requires has { has_item id_cmp (table_in tables.old slot).ids id ≡ true }
    requires index { IsIdIndex (type_at tables.old) (lists_in by_id.old) }
    requires agreed { AreAgreed tables.old }
    ensures turned { TakesType tables.old tables.new slot
        (without_item id_cmp (table_in tables.old slot).ids id) }
    ensures index { IsIdIndex (type_at tables.new) (lists_in by_id.new) }
    ensures agreed { AreAgreed tables.new }
    ensures widths { KeepsWidths tables.old tables.new }
{
    tables.get(slot).unwrap().ids_have_widths();
    tables.lose(slot, id);
    by_id.leave(id, type_in(tables, slot), slot);
}
