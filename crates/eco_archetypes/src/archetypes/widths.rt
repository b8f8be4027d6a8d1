//! How many fields a new table keeps of values.
ghost use Rattle.std.specs.Prelude.{◌≡◌, IfOk};
ghost use Rattle.eco_entities.specs.Needs.{need};
ghost use Rattle.eco_archetypes.specs.Widths.{AreWidths, IsWidth};

use crate::archetypes::Archetypes;
use eco_entities::EntityIndex;
use eco_ids::Id;
use smallvec::SmallVec;
use std::alloc::AllocError;

/// How many widths there is room for without memory.
const INLINE_WIDTHS: usize = 8;

impl Archetypes {
    /// How many fields a new table may keep of the values of each of these ids. They take memory only for more than
    /// [`INLINE_WIDTHS`] ids. An `Err` comes where memory is refused.
    pub(crate) fn widths_of(
        &self,
        entities: &EntityIndex,
        ids: &[Id],
    ) -> Result<SmallVec<u8, INLINE_WIDTHS>, AllocError>
        ensures { IfOk result (λ widths. AreWidths (need entities.now) self.now ids.now widths.items) }
    {
        let mut widths = SmallVec::new(self.alloc);
        for id in ids {
            widths.push(self.width_of(entities, *id))?;
        }
        Ok(widths)
    }

    /// As many fields as the tables keep that have the id; where none has it, as many as it may need.
    pub(crate) fn width_of(&self, entities: &EntityIndex, id: Id) -> u8
        ensures { IsWidth (need entities.now) self.now id result }
    {
        match self.by_id.any(id) {
            Some(slot) => {
                let table = self.tables.get(slot).unwrap();
                table.ids_have_widths();
                table.width(id).unwrap()
            }
            None => entities.need(id),
        }
    }
}
