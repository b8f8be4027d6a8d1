//! Laws of the grammar: each function does nothing, and its contract is the law.
ghost use Rattle.eco_scan.specs.Faults.{SpellsOnce, SpellsOrFails};
ghost use Rattle.eco_scan.specs.Grammar.{SpellsId, SpellsQuery, SpellsRef};

/// A text spells one thing at most.
pub fn texts_spell_once()
    ensures reference { SpellsOnce SpellsRef }
    ensures id { SpellsOnce SpellsId }
    ensures query { SpellsOnce SpellsQuery }
{}

/// A text that spells nothing has a first fault.
pub fn texts_spell_or_fail()
    ensures reference { SpellsOrFails SpellsRef }
    ensures id { SpellsOrFails SpellsId }
    ensures query { SpellsOrFails SpellsQuery }
{}
