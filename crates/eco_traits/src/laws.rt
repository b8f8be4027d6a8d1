//! Laws of deletes: each function does nothing, and its contract is the law.
ghost use Rattle.eco_ids.specs.declared.entity.Entity.{Entity};
ghost use Rattle.eco_ids.specs.declared.id.Id.{Id};
ghost use Rattle.eco_ids.specs.Delete.{DeletesOne, DeletesWith};
ghost use Rattle.eco_traits.specs.Laws.{KeepsMirrored};

/// A delete keeps the mirrors: a pair of a symmetric relationship still stands on both of its entities, or on neither.
pub fn deletes_keep_mirrors()
    ensures one { (e : Entity) → KeepsMirrored (λ w. DeletesOne w e) }
    ensures with { (i : Id) → KeepsMirrored (λ w. DeletesWith w i) }
{
    eco_ids::laws::steps_keep_lawful();
}
