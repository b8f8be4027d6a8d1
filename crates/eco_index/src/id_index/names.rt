//! Whether some type names an entity.
ghost use Rattle.std.specs.Prelude.{◌≡◌, ◌↔◌, is_some, IsTrue};
ghost use Rattle.std.specs.HashMap.{get};
ghost use Rattle.eco_index.specs.IdIndex.{same_key};
ghost use Rattle.eco_index.specs.Naming.{keeps_name, ListsSome};
ghost use Rattle.eco_index.specs.TypeTests.{naming};

use crate::id_index::IdIndex;
use crate::id_index::key::Key;
use eco_ids::Entity;

impl IdIndex {
    ghost use Rattle.eco_index.specs.Contents.{lists_in};

    /// Whether a slot is listed under a pattern of the ids that name the entity. Most entities are in no type, which the marks
    /// tell. It takes no memory.
    #[inline(always)]
    pub fn names(&self, entity: Entity) -> bool
        ensures { IsTrue result ↔ ListsSome (lists_in self.now) (naming entity) }
    {
        self.keeps_name(entity)
    }

    // Whether a key is kept of the entity alone, as a relationship or as a target.
    #[inline(always)]
    fn keeps_name(&self, entity: Entity) -> bool
        ensures { result ≡ keeps_name self.now.slots entity }
    {
        self.keeps(Key::Single(entity))
            || self.keeps(Key::Relationship(entity))
            || self.keeps(Key::Target(entity))
    }

    // Whether a slot is listed under the key.
    #[inline(always)]
    fn keeps(&self, key: Key) -> bool
        ensures { result ≡ is_some (get same_key self.now.slots key) }
    {
        self.kept(key).is_some()
    }
}
