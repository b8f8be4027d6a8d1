//! Laws of bodies: each function does nothing, and its contract is the law.
ghost use Rattle.std.specs.Prelude.{ℕ, List};
ghost use Rattle.eco_ids.specs.declared.entity.Entity.{Entity as EntityData};
ghost use Rattle.eco_ids.specs.Run.{Command};
ghost use Rattle.eco_systems.specs.Rows.{ValuedRow};
ghost use Rattle.eco_systems.specs.Systems.{IsLawfulSystem};
ghost use Rattle.eco_bodies.specs.Bodies.{system_with};
ghost use Rattle.eco_bodies.specs.Laws.{OwnEntriesAreSet, ScriptsTakeOne};
ghost use Rattle.eco_bodies.specs.Taking.{BreaksAll, TakesNext};

use crate::body::SystemBody;
use eco_query::Query;
use eco_systems::Phase;

/// A system of a query and a body keeps the law of systems: its query asks for something that is there, and it records what
/// it declares.
pub fn systems_are_lawful<B: SystemBody>(phase: Phase, query: &Query, body: &B)
    ensures { IsLawfulSystem (system_with phase query.now (B.reads_of body.now) (B.writes_of body.now)
        (B.kills_of body.now) (B.taken body.now) (B.commands body.now)) }
{
    let _phase = phase;
    let _body = body;
    query.is_positive();
}

/// Whatever records a row with the handles that are there to draw records many rows one by one: each draws behind those before
/// it and records behind them, and where one stops all do.
pub fn rows_are_recorded_one_by_one()
    ensures next { (commands : ValuedRow → List EntityData → List Command)
        (taken : ValuedRow → List EntityData → ℕ) (rows : List ValuedRow) → TakesNext commands taken rows }
    ensures breaks { (commands : ValuedRow → List EntityData → List Command)
        (taken : ValuedRow → List EntityData → ℕ) (rows : List ValuedRow) → BreaksAll commands taken rows }
{}

/// In the rows of its own query a script passes over no entry that it sets.
pub fn scripts_set_their_own_entries()
    ensures { OwnEntriesAreSet }
{
    eco_systems::laws::entries_are_read();
}

/// How many handles a script takes is settled by its actions alone, so that draws decide what a frame of scripts leads to
/// (`eco_systems::laws::draws_decide_frames`).
pub fn scripts_take_one_beginning()
    ensures { ScriptsTakeOne }
{}
