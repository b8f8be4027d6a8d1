//! What leads from a name to who bears it.
ghost use Rattle.std.specs.Prelude.{◌≡◌, IfSome, IfNone, Some};
ghost use Rattle.eco_ids.specs.Renaming.{own_name};
ghost use Rattle.eco_entities.specs.Cells.{cell_to};
ghost use Rattle.eco_entities.specs.Registry.{HasNobody};
ghost use Rattle.eco_entities.specs.Registration.{given_name};

use crate::slots::Slots;
use eco_ids::Entity;

/// The index of a named entity, and the tag of its name, by which most others are told apart from it.
#[derive(Clone, Copy, Default, PartialEq, Eq, Drop)]
pub(crate) struct Cell {
    pub(crate) tag: u32,
    pub(crate) index: u32,
}

impl Cell {
    /// Who bears the name, of this tag, and is the one that the cell leads to.
    #[inline]
    pub(crate) fn bearer(self, slots: &Slots, name: &str, tag: u32) -> Option<Entity>
        ensures bears { IfSome result (λ e. own_name given_name slots.now e ≡ Some name.now) }
        ensures none { IfNone result (HasNobody (own_name given_name slots.now) name.now
            (λ e. self ≡ cell_to tag e)) }
    {
        if self.tag != tag {
            return None;
        }
        slots.bearer(self.index, name)
    }
}
