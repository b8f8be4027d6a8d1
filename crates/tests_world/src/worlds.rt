//! The world that a run ends with.
use eco_script::{Counted, Status, run_world};
use eco_world::World;
use std::alloc::Global;
use std::thread::Threads;

// Whether so many live there, of whom the last has the name.
fn is_last(world: &World, name: &str, count: usize) -> bool {
    match world.living() {
        Ok(living) => match living.last() {
            Some(entity) => living.len() == count && world.name_of(*entity) == Some(name),
            None => false,
        },
        Err(_) => false,
    }
}

// Whether a run of the script ends with a world where it is so.
fn ends_with<R: Threads + Sync>(
    rt: &R,
    alloc: Global,
    script: &str,
    name: &str,
    count: usize,
) -> bool {
    let mut reader = Counted::new(script.as_bytes());
    let mut writer = Counted::new(Vec::new(alloc));
    match run_world(rt, alloc, &mut reader, &mut writer, 1) {
        (Status::Ran, Some(world)) => is_last(&world, name, count),
        _ => false,
    }
}

// Whether a text that is no script gives no world.
fn gives_none<R: Threads + Sync>(rt: &R, alloc: Global, script: &str) -> bool {
    let mut reader = Counted::new(script.as_bytes());
    let mut writer = Counted::new(Vec::new(alloc));
    match run_world(rt, alloc, &mut reader, &mut writer, 1) {
        (Status::NotRead, None) => true,
        _ => false,
    }
}

#[test]
fn a_run_gives_its_world(rt: HostRuntime) {
    let script = r#"[1, 64, [["create", "a"], ["create", "b"]]]"#;
    assert!(rt; ends_with(&rt, rt.alloc(), script, "b", 11));
}

#[test]
fn a_script_that_is_not_read_gives_none(rt: HostRuntime) {
    let script = r#"[1, 64, [["create", "a"], ["fly"]]]"#;
    assert!(rt; gives_none(&rt, rt.alloc(), script));
}
