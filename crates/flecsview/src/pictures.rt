//! The pictures that are asked for.

use crate::arguments::Request;
use crate::stopped::Stopped;
use eco_bodies::{Script, System, Systems};
use eco_frame::declaration;
use eco_script::NamedSystems;
use eco_world::World;
use std::alloc::{AllocError, Global};
use std::fs;

// Writes a picture to a file.
fn write(rt: &HostRuntime, file: &str, picture: Result<String, AllocError>) -> Result<(), Stopped> {
    let Ok(picture) = picture else {
        return Err(Stopped);
    };
    if fs::write(rt, file, picture.as_str()).is_err() {
        let _ = eprintln!(rt; "flecsview: the file {file} cannot be written");
        return Err(Stopped);
    }
    Ok(())
}

// The names of systems.
fn names(alloc: Global, systems: &[System<Script>]) -> Result<Vec<&str>, AllocError> {
    let mut names = Vec::with_capacity(alloc, systems.len())?;
    for system in systems {
        names.push(system.name.as_str())?;
    }
    Ok(names)
}

// A picture of the batches of systems.
fn draw_batches(alloc: Global, world: &World, systems: &Systems) -> Result<String, AllocError> {
    let names = names(alloc, systems.as_slice())?;
    let mut declared = Vec::with_capacity(alloc, names.len())?;
    for system in systems.as_slice() {
        declared.push(declaration(system))?;
    }
    let systems = NamedSystems {
        names: names.as_slice(),
        declared: declared.as_slice(),
    };
    eco_script::batches_svg(alloc, world, systems)
}

/// Draws what is asked for of a world and systems.
pub fn draw(
    rt: &HostRuntime,
    request: &Request<'_>,
    world: &World,
    systems: &Systems,
) -> Result<(), Stopped> {
    if let Some(file) = request.tables {
        write(rt, file, eco_script::tables_svg(rt.alloc(), world))?;
    }
    if let Some(file) = request.graph {
        write(rt, file, eco_script::graph_svg(rt.alloc(), world))?;
    }
    if let Some(file) = request.batches {
        write(rt, file, draw_batches(rt.alloc(), world, systems))?;
    }
    Ok(())
}
