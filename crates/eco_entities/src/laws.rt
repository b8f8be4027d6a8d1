//! Laws of the index: each function does nothing, and its contract is the law.
ghost use Rattle.std.specs.Prelude.{◌≡◌, ℕ, Some, None, IsTrue};
ghost use Rattle.eco_ids.specs.declared.entity.Entity.{Entity};
ghost use Rattle.eco_ids.specs.Indices.{Indexed, admitted, changed, is_alive, is_free_at, next_entity, record_of, with_death, with_new, with_record};
ghost use Rattle.eco_entities.specs.Changes.{ChangesAt, KeepsAnswers};
ghost use Rattle.eco_entities.specs.Needs.{NeedsNeverGrow};
ghost use Rattle.eco_entities.specs.Registration.{Registration};
ghost use Rattle.eco_entities.specs.Runs.{NobodyLivesTwice};

/// No handle lives twice: who was killed never lives again and is never made again, whatever is called then.
pub fn nobody_lives_twice()
    ensures { NobodyLivesTwice }
{}

/// Each change is one of what is kept of one entity, and of no other.
pub fn changes_touch_one_entity()
    ensures new { (w : Indexed Registration) (e : Entity) (r : Registration) → next_entity w ≡ Some e
        → ChangesAt (record_of w) (record_of (with_new w e r)) e (Some r) }
    ensures made_alive { (w : Indexed Registration) (e : Entity) (r : Registration)
        → IsTrue (is_free_at w e) → ChangesAt (record_of w) (record_of (with_record w e r)) e (Some r) }
    ensures changed { (w : Indexed Registration) (e : Entity) (r : Registration)
        (change : Registration → Registration) → record_of w e ≡ Some r
        → ChangesAt (record_of w) (record_of (changed w e change)) e (Some (change r)) }
    ensures dead { (w : Indexed Registration) (e : Entity) → IsTrue (is_alive w e)
        → ChangesAt (record_of w) (record_of (with_death w e)) e None }
    ensures admitted { (w : Indexed Registration) (n : ℕ)
        → KeepsAnswers (record_of w) (record_of (admitted n w)) }
{}

/// Who is made next, or is free, doesn't live.
pub fn the_free_are_dead()
    ensures next { (w : Indexed Registration) (e : Entity) → next_entity w ≡ Some e → record_of w e ≡ None }
    ensures free { (w : Indexed Registration) (e : Entity) → IsTrue (is_free_at w e) → record_of w e ≡ None }
{}

/// What a value of an id may need never grows: a table that keeps so many fields will do for it.
pub fn needs_never_grow()
    ensures { NeedsNeverGrow }
{}
