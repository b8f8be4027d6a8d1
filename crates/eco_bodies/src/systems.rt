//! The systems of a frame.
ghost use Rattle.std.specs.Prelude.{◌≡◌, ◌<◌, ◌||◌, [], ℕ, List, IfErr, IfOk, MatchOption, MatchResult, OnErr, OnOk};
ghost use Rattle.std.specs.Prelude.{string_bytes, vec_capacity, vec_len};
ghost use Rattle.std.specs.BTreeSet.{contains_text};
ghost use Rattle.eco_ids.specs.declared.refusal.Refusal.TheVariants.{OutOfMemory};
ghost use Rattle.eco_ids.specs.Names.{is_text};
ghost use Rattle.eco_query.specs.Queries.{HasPositive, reads};

use crate::script::Script;
use eco_ids::{Pattern, Refusal, is_name};
use eco_query::Query;
use eco_systems::Phase;
use std::alloc::{AllocError, Global};
use std::collections::BTreeSet;
use std::marker::Model;

/// A system (Flecs manual, Systems): its name, when it runs, what it asks for, and what it does with each row.
#[derive(Debug)]
pub struct System<B> {
    /// Its name, which no other system of its list has.
    pub name: String,
    /// When it runs.
    pub phase: Phase,
    /// What it asks for.
    pub query: Query,
    /// The patterns of its query, listed once: each frame asks for them.
    pub query_reads: Vec<Pattern>,
    /// What it does with each row.
    pub body: B,
    ghost listed: { query_reads.items ≡ reads query },
    ghost positive: { HasPositive query },
}

// By hand, so that dropping it is one call: a derived drop is proved anew at each early return of whoever holds it.
impl<B: Drop> Drop for System<B> {
    fn drop(self) {
        let System {
            name: _,
            phase: _,
            query: _,
            query_reads: _,
            body: _,
        } = self;
    }
}

/// A system that was not added: why, and what was to be its query and its body.
#[derive(Debug)]
pub struct NotAdded<B> {
    /// Why it was not.
    pub refusal: Refusal,
    /// The query, handed back.
    pub query: Query,
    /// The body, handed back.
    pub body: B,
}

// By hand, so that dropping it is one call: a derived drop is proved anew at each early return of whoever holds it.
impl<B: Drop> Drop for NotAdded<B> {
    fn drop(self) {
        let NotAdded {
            refusal: _,
            query: _,
            body: _,
        } = self;
    }
}

impl<B> NotAdded<B> {
    // Memory was refused.
    fn for_memory(query: Query, body: B) -> NotAdded<B>
        ensures { (result.refusal ≡ OutOfMemory) × (result.query ≡ query) × (result.body ≡ body) }
    {
        NotAdded {
            refusal: Refusal::OutOfMemory,
            query,
            body,
        }
    }
}

/// The systems of a frame, in the order of declaration. Those of a list have bodies of one type: scripts, or an enum of all
/// bodies that a program has.
#[derive(Debug)]
pub struct Systems<B = Script> {
    alloc: Global,
    list: Vec<System<B>>,
    // The names of those on the list: a new one is looked for among them.
    names: BTreeSet<String>,
}

// By hand, so that dropping it is one call: a derived drop is proved anew at each early return of whoever holds it.
impl<B: Drop> Drop for Systems<B> {
    fn drop(self) {
        let Systems {
            alloc: _,
            list: _,
            names: _,
        } = self;
    }
}

// The name stands among the names. An `Err` comes where memory is refused, and leaves them.
fn add_name(alloc: Global, names: &mut BTreeSet<String>, name: &str) -> Result<(), AllocError>
    ensures ok { OnOk result ((other : List ℕ)
        → contains_text names.new other ≡ (contains_text names.old other || is_text name.now other)) }
    ensures err { OnErr result ((other : List ℕ)
        → contains_text names.new other ≡ contains_text names.old other) }
{
    let own = String::from_str(alloc, name)?;
    names.insert(own)?;
    Ok(())
}

// Room for one more system, its name among the names, and what it is to own: its name, and the patterns of its query. An `Err`
// comes where memory is refused, and leaves the systems and the names.
fn prepare<B: Drop>(
    alloc: Global,
    list: &mut Vec<System<B>>,
    names: &mut BTreeSet<String>,
    name: &str,
    query: &Query,
) -> Result<(String, Vec<Pattern>), AllocError>
    ensures items { list.new.items ≡ list.old.items }
    ensures room { OnOk result (vec_len list.new < vec_capacity list.new) }
    ensures own { IfOk result (λ r. (string_bytes r.0 ≡ name.now) × (r.1.items ≡ reads query.now)) }
    ensures ok { OnOk result ((other : List ℕ)
        → contains_text names.new other ≡ (contains_text names.old other || is_text name.now other)) }
    ensures err { OnErr result ((other : List ℕ)
        → contains_text names.new other ≡ contains_text names.old other) }
{
    list.reserve(1)?;
    let own = String::from_str(alloc, name)?;
    let patterns = query.reads(alloc)?;
    add_name(alloc, names, name)?;
    Ok((own, patterns))
}

impl<B> Model for Systems<B> {
    ghost use Rattle.std.specs.Prelude.{◌≡◌, ℕ, List};
    ghost use Rattle.std.specs.BTreeSet.{contains_text};
    ghost use Rattle.eco_bodies.specs.Added.{has_system_named};
    ghost use Rattle.eco_bodies.specs.declared.systems.System.{System};

    ghost Value = { List (System B) };

    ghost view = { λ s. s.list.items };

    ghost invariant = { λ s. (name : List ℕ)
        → contains_text s.names name ≡ has_system_named s.list.items name };
}

impl<B: Drop> Systems<B> {
    ghost use Rattle.eco_bodies.specs.Added.{IsAdded, add_refusal, has_system_named};

    /// No system. What is added takes its memory from `alloc`.
    pub fn new(alloc: Global) -> Systems<B>
        ensures { result ≡ [] }
    {
        Systems {
            alloc,
            list: Vec::new(alloc),
            names: BTreeSet::new(alloc),
        }
    }

    /// The systems, in the order of declaration.
    pub fn as_slice(&self) -> &[System<B>]
        ensures { result.now ≡ self.now }
    {
        self.list.as_slice()
    }

    // Whether one of them has the name.
    fn has_name(&self, name: &str) -> bool
        ensures { result ≡ has_system_named self.now name.now }
    {
        self.names.contains(name)
    }

    // Why a system of the name can't be added.
    fn refusal_of(&self, name: &str) -> Option<Refusal>
        ensures { result ≡ add_refusal self.now name.now }
    {
        if !is_name(name) {
            return Some(Refusal::BadName);
        }
        if self.has_name(name) {
            return Some(Refusal::SystemNameTaken);
        }
        None
    }

    /// Adds a system, behind those that were added before. Refused with `BadName` where the text is not a name, then with
    /// `SystemNameTaken` where a system of the list has it, then with `OutOfMemory`. What is refused hands query and body
    /// back, and the list is as it was.
    pub fn add(
        &mut self,
        name: &str,
        phase: Phase,
        query: Query,
        body: B,
    ) -> Result<(), NotAdded<B>>
        ensures refused { MatchOption (add_refusal self.old name.now)
            (IfErr result (λ r. r.refusal ≡ OutOfMemory))
            (λ why. MatchResult result (λ _. ⊥) (λ r. r.refusal ≡ why)) }
        ensures back { IfErr result (λ r. (r.query ≡ query) × (r.body ≡ body)) }
        ensures kept { OnErr result (self.new ≡ self.old) }
        ensures added { OnOk result (IsAdded self.old name.now phase query body self.new) }
    {
        if let Some(refusal) = self.refusal_of(name) {
            return Err(NotAdded {
                refusal,
                query,
                body,
            });
        }
        let Ok((own, query_reads)) = prepare(
            self.alloc,
            &mut self.list,
            &mut self.names,
            name,
            &query,
        ) else {
            return Err(NotAdded::for_memory(query, body));
        };
        query.is_positive();
        self.list.push_reserved(System {
            name: own,
            phase,
            query,
            query_reads,
            body,
        });
        Ok(())
    }
}
