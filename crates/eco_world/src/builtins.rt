//! The entities that live from the start.
ghost use Rattle.std.specs.Prelude.{◌≡◌, ◌≤◌, ◌<◌, ◌∷◌, [], Some, IfOk, IfErr};
ghost use Rattle.eco_ids.specs.declared.entity.TheConstants.{ACYCLIC, EXCLUSIVE};
ghost use Rattle.eco_ids.specs.declared.id.Id.TheVariants.{One};
ghost use Rattle.eco_ids.specs.declared.refusal.Refusal.TheVariants.{OutOfMemory};
ghost use Rattle.eco_world.specs.Builtins.{first_entities, builtin_name, builtin_type};

use eco_ids::entity::{ACYCLIC, DELETE, EXCLUSIVE, ON_DELETE_TARGET};
use eco_ids::{Id, Refusal, TypeList};
use eco_store::{Seed, Store};
use std::alloc::{AllocError, Global};

// The name of the built-in at this index.
fn builtin_name(number: u32) -> &'static str
    requires { number < 10 }
    ensures { Some result.now ≡ builtin_name number }
{
    match number {
        0 => "ChildOf",
        1 => "Exclusive",
        2 => "Acyclic",
        3 => "With",
        4 => "OnDelete",
        5 => "OnDeleteTarget",
        6 => "Remove",
        7 => "Delete",
        8 => "Panic",
        _ => "Symmetric",
    }
}

// The ids of a relationship that is exclusive.
fn exclusive_type(alloc: Global) -> Result<TypeList, AllocError>
    ensures { IfOk result (λ type_list. type_list ≡ One EXCLUSIVE ∷ []) }
{
    TypeList::empty(alloc).with(Id::One(EXCLUSIVE))
}

// The ids of a relationship that is exclusive and acyclic.
fn exclusive_acyclic_type(alloc: Global) -> Result<TypeList, AllocError>
    ensures { IfOk result (λ type_list. type_list ≡ One EXCLUSIVE ∷ One ACYCLIC ∷ []) }
{
    exclusive_type(alloc)?.with(Id::One(ACYCLIC))
}

// The ids of ChildOf.
fn child_of_type(alloc: Global) -> Result<TypeList, AllocError>
    ensures { IfOk result (λ type_list. type_list ≡ builtin_type 0) }
{
    exclusive_acyclic_type(alloc)?.with(Id::Two(ON_DELETE_TARGET, DELETE))
}

// The ids of the built-in at this index.
fn builtin_type(alloc: Global, number: u32) -> Result<TypeList, AllocError>
    requires { number < 10 }
    ensures { IfOk result (λ type_list. type_list ≡ builtin_type number) }
{
    match number {
        0 => child_of_type(alloc),
        4 | 5 => exclusive_type(alloc),
        _ => Ok(TypeList::empty(alloc)),
    }
}

/// A store in which the first built-ins live with their names and ids, so many of them, and nobody else.
pub(crate) fn builtin_store(
    alloc: Global,
    count: u32,
    limit: u32,
    seed: Seed,
) -> Result<Store, Refusal>
    requires few { count ≤ 10 }
    requires at_least { count ≤ limit }
    requires at_most { limit ≤ 1048576 }
    ensures ok { IfOk result (λ store. store.entities ≡ first_entities limit count) }
    ensures err { IfErr result (λ why. why ≡ OutOfMemory) }
{
    let mut store = Store::new(alloc, limit, seed);
    for number in 0..count {
        let type_list = builtin_type(alloc, number)?;
        store.create(Some(builtin_name(number)), None, &type_list)?;
    }
    Ok(store)
}
