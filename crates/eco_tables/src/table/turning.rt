//! A table takes another type where it stands.
ghost use Rattle.std.specs.Prelude.{◌≡◌, ◌≤◌, false, OnOk, OnErr};
ghost use Rattle.eco_ids.specs.Order.{id_cmp, has_item, with_item, without_item};
ghost use Rattle.eco_tables.specs.Tables.{turned};

use crate::column::Column;
use crate::columns::{insert_column, remove_column};
use crate::table::Table;
use eco_ids::Id;
use eco_ids::value::FIELD_COUNT;
use std::alloc::{AllocError, Global};

impl Table {
    /// The type gets an id that it lacks, of which each row holds zeros in so many fields. An `Err` comes where memory is
    /// refused, and then nothing has changed.
    pub fn gain(&mut self, alloc: Global, id: Id, width: u8) -> Result<(), AllocError>
        requires absent { has_item id_cmp self.old.ids id ≡ false }
        requires width { width ≤ FIELD_COUNT }
        ensures ok { OnOk result (self.new ≡ turned self.old (with_item id_cmp self.old.ids id) id width) }
        ensures err { OnErr result (self.new ≡ self.old) }
    {
        if width == 0 {
            return self.gain_bare(id);
        }
        // All memory first.
        let column = Column::zeros(alloc, id, width, self.entities.len(), self.room)?;
        self.columns.reserve(1)?;
        self.type_list.insert(id)?;
        insert_column(&mut self.columns, column);
        Ok(())
    }

    // The type gets an id without a column.
    fn gain_bare(&mut self, id: Id) -> Result<(), AllocError>
        requires { has_item id_cmp self.old.ids id ≡ false }
        ensures ok { OnOk result (self.new ≡ turned self.old (with_item id_cmp self.old.ids id) id 0) }
        ensures err { OnErr result (self.new ≡ self.old) }
    {
        self.type_list.insert(id)?;
        Ok(())
    }

    /// The type loses an id, if it has it, and each row the value. It takes no memory.
    pub fn lose(&mut self, id: Id)
        ensures { self.new ≡ turned self.old (without_item id_cmp self.old.ids id) id 0 }
    {
        remove_column(&mut self.columns, id);
        self.type_list.remove(id);
    }
}
