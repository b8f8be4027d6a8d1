//! The slots whose tables stay though they may be without rows.
ghost use Rattle.std.specs.Prelude.{◌≡◌, length, nat_eq, not, IfOk, IsTrue, IsFalse, OnOk, OnErr};
ghost use Rattle.std.specs.List.{list_any};
ghost use Rattle.eco_store.specs.Staying.{only_idle, with_gathered, with_target, Rests};

use eco_ids::TableSlot;
use indexmap::IndexSet;
use std::alloc::{AllocError, Global};
use std::marker::Model;

// How many tables that lost their last row stay. An entity that gets some ids one by one goes through as many tables, and where
// it is alone in them, each loses its last row.
const IDLE_COUNT: usize = 8;

// From so many tables on, those that lose all rows go together.
const MANY_TABLES: usize = 16;

/// A contract sees the slots whose tables stay though they may be without rows: within a call that changes many entities the
/// targets, to which or from which rows go, and those that go together once it ends; and ever the idle ones, whose tables
/// lost their last row and are likely to get one soon again.
#[derive(Drop)]
pub struct Staying {
    alloc: Global,
    targets: IndexSet<TableSlot>,
    // A plain list: a table that lost all rows gets none before the list is cleared, so it comes once.
    gathered: Vec<TableSlot>,
    // Any slots, before tables have lost their last row.
    idle: [TableSlot; IDLE_COUNT],
    // Which of them goes next, counted round.
    turn: usize,
    // Tables that lose all rows are gathered.
    gathers: bool,
}

impl Model for Staying {
    ghost use Rattle.eco_store.specs.Staying.{StayingState};

    ghost Value = { StayingState };

    ghost view = { λ p.
        record {
          targets = p.targets.keys;
          gathered = p.gathered.items;
          idle = p.idle;
        } };
}

impl Staying {
    /// No call is under way.
    pub fn new(alloc: Global) -> Staying
        ensures { result ≡ only_idle result.idle }
    {
        Staying {
            alloc,
            targets: IndexSet::new(alloc),
            gathered: Vec::new(alloc),
            idle: [0; IDLE_COUNT],
            turn: 0,
            gathers: false,
        }
    }

    /// The same idle slots, and no call under way.
    pub fn emptied(&self) -> Staying
        ensures { result ≡ only_idle self.now.idle }
    {
        Staying {
            alloc: self.alloc,
            targets: IndexSet::new(self.alloc),
            gathered: Vec::new(self.alloc),
            idle: self.idle,
            turn: self.turn,
            gathers: false,
        }
    }

    /// Whether the slot is one of the targets.
    pub fn is_target(&self, slot: TableSlot) -> bool
        ensures { result ≡ list_any (nat_eq slot) self.now.targets }
    {
        self.targets.contains(&slot)
    }

    /// The targets, each once.
    pub fn targets(&self) -> &[TableSlot]
        ensures { result.now ≡ self.now.targets }
    {
        self.targets.as_slice()
    }

    /// The slots whose tables go together.
    pub fn gathered(&self) -> &[TableSlot]
        ensures { result.now ≡ self.now.gathered }
    {
        self.gathered.as_slice()
    }

    /// The table in this slot stays. The answer says whether it was none of the targets before. An `Err` comes where memory
    /// is refused, and changes nothing.
    pub fn add_target(&mut self, slot: TableSlot) -> Result<bool, AllocError>
        ensures added { IfOk result (λ new. new ≡ not (list_any (nat_eq slot) self.old.targets)) }
        ensures ok { OnOk result (self.new ≡ with_target self.old slot) }
        ensures err { OnErr result (self.new ≡ self.old) }
    {
        let added = self.targets.insert(slot)?;
        Ok(added)
    }

    /// So many tables may lose all rows: if they are many, they go together once the call ends. Where there is no memory for
    /// that, they go one by one.
    pub fn expect(&mut self, count: usize)
        ensures { self.new ≡ self.old }
    {
        self.gathers = count >= MANY_TABLES && self.gathered.reserve(count).is_ok();
    }

    /// The table in this slot lost all rows. The answer says whether it goes with others.
    pub fn gather(&mut self, slot: TableSlot) -> bool
        ensures gathered { IsTrue result → self.new ≡ with_gathered self.old slot }
        ensures same { IsFalse result → self.new ≡ self.old }
    {
        if self.gathers && self.gathered.len() < self.gathered.capacity() {
            self.gathered.push_reserved(slot);
            return true;
        }
        false
    }

    /// Whether the slot is one of the idle ones, of which there are eight.
    pub fn is_resting(&self, slot: TableSlot) -> bool
        ensures resting { result ≡ list_any (nat_eq slot) self.now.idle }
        ensures few { length self.now.idle ≡ 8 }
    {
        self.idle.contains(&slot)
    }

    /// The table in this slot lost its last row: it is one of the idle ones from then on, in place of the one that is answered.
    pub fn set_idle(&mut self, slot: TableSlot) -> TableSlot
        ensures { Rests self.old self.new slot result }
    {
        let place = self.turn % IDLE_COUNT;
        let before = self.idle[place];
        self.idle[place] = slot;
        self.turn = place + 1;
        before
    }

    /// The call ends: no target is left, and nothing is gathered.
    pub fn clear(&mut self)
        ensures { self.new ≡ only_idle self.old.idle }
    {
        self.targets.clear();
        self.gathered.clear();
        self.gathers = false;
    }
}
