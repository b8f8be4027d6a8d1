//! The names that texts are read with.
ghost use Rattle.std.specs.Prelude.{◌≡◌, ℕ, List, Option};
ghost use Rattle.eco_ids.specs.declared.entity.Entity.{Entity};

use eco_ids::Entity;

/// What knows entities by name, as a world does.
pub trait Names {
    ghost entity_named: { Self → List ℕ → Option Entity };

    /// The living entity of this name.
    fn lookup(&self, name: &str) -> Option<Entity>
        ensures { result ≡ entity_named self.now name.now };
}
