//! What a refusal means: which of a step's texts, and why.

use crate::refusals::reason;
use crate::texts::{Texts, texts_of_action, texts_of_command, texts_of_step};
use eco_grammar::{Names, read_id, read_query, read_ref};
use eco_ids::{Edition, Refusal};
use eco_steps::{Actions, Commands, Stages, WrittenStep};
use std::alloc::{AllocError, Global};

// The first of some texts that is refused where it is read.
fn unread<'a, N: Names>(alloc: Global, names: &N, texts: Texts<'a>) -> Option<&'a str> {
    if let Some(text) = texts.entity
        && read_ref(text, names).is_err()
    {
        return Some(text);
    }
    if let Some(text) = texts.query
        && read_query(alloc, text, names).is_err()
    {
        return Some(text);
    }
    if let Some(text) = texts.id
        && read_id(text, names).is_err()
    {
        return Some(text);
    }
    None
}

// The same of the commands of a stage.
fn unread_of_commands<'a, N: Names>(
    alloc: Global,
    names: &N,
    commands: Commands<'a>,
) -> Option<&'a str> {
    for place in 0..commands.len() {
        if let Some(command) = commands.get(place)
            && let Some(text) = unread(alloc, names, texts_of_command(command))
        {
            return Some(text);
        }
    }
    None
}

// The same of stages.
fn unread_of_stages<'a, N: Names>(alloc: Global, names: &N, stages: Stages<'a>) -> Option<&'a str> {
    for place in 0..stages.len() {
        if let Some(commands) = stages.get(place)
            && let Some(text) = unread_of_commands(alloc, names, commands)
        {
            return Some(text);
        }
    }
    None
}

// The same of the actions of a system.
fn unread_of_actions<'a, N: Names>(
    alloc: Global,
    names: &N,
    actions: Actions<'a>,
) -> Option<&'a str> {
    for place in 0..actions.len() {
        if let Some(action) = actions.get(place)
            && let Some(text) = unread(alloc, names, texts_of_action(action))
        {
            return Some(text);
        }
    }
    None
}

// The first text of a step that is refused where it is read.
fn unread_of_step<'a, N: Names>(
    alloc: Global,
    names: &N,
    step: &WrittenStep<'a>,
) -> Option<&'a str> {
    match *step {
        WrittenStep::Merge { stages, .. } => unread_of_stages(alloc, names, stages),
        WrittenStep::System { actions, .. } => match unread(alloc, names, texts_of_step(step)) {
            Some(text) => Some(text),
            None => unread_of_actions(alloc, names, actions),
        },
        _ => unread(alloc, names, texts_of_step(step)),
    }
}

// Whether a text names a built-in of the second edition, among which are those of the first.
fn names_builtin<N: Names>(names: &N, text: &str) -> bool {
    match read_ref(text, names) {
        Ok(entity) => entity.is_among_first(Edition::Second.builtin_count()),
        Err(_) => false,
    }
}

// The text of what a built-in would be changed by: the entity, where it is a built-in itself, or else the id.
fn reserved<'a, N: Names>(names: &N, texts: Texts<'a>) -> Option<&'a str> {
    match texts.entity {
        Some(entity) if names_builtin(names, entity) => Some(entity),
        _ => texts.id,
    }
}

// The text that a refusal means, where it means one.
fn meant<'a, N: Names>(
    alloc: Global,
    names: &N,
    step: &WrittenStep<'a>,
    refusal: &Refusal,
) -> Option<&'a str> {
    let texts = texts_of_step(step);
    match refusal.number() {
        1 | 7 => texts.entity.or(texts.id),
        2 | 4..=6 | 8 | 33 => texts.id,
        3 => reserved(names, texts),
        10 | 11 | 32 => texts.name,
        20..=24 => unread_of_step(alloc, names, step),
        _ => None,
    }
}

// Where in its text a refusal points to.
fn place_of(refusal: &Refusal) -> Option<usize> {
    match *refusal {
        Refusal::Syntax { at } | Refusal::UnknownName { at } => Some(at),
        _ => None,
    }
}

// Adds where in a text a refusal points to.
fn push_place(text: &mut String, meant: &str, at: usize) -> Result<(), AllocError> {
    match meant.get(at..) {
        Some("") | None => text.push_str(", at its end"),
        Some(_) if at == 0 => Ok(()),
        Some(rest) => write!(text, ", at {rest:?}"),
    }
}

/// Adds what a refusal of a step means: which of its texts, from which place of it on, and why, on one line without its end. The
/// names are those of the world that the step has left as it was.
pub fn push_meaning<N: Names>(
    alloc: Global,
    text: &mut String,
    names: &N,
    step: &WrittenStep<'_>,
    refusal: &Refusal,
) -> Result<(), AllocError> {
    if let Some(meant) = meant(alloc, names, step, refusal) {
        write!(text, "{meant:?}")?;
        if let Some(at) = place_of(refusal) {
            push_place(text, meant, at)?;
        }
        text.push_str(": ")?;
    }
    text.push_str(reason(refusal))
}
