//! The texts of steps.

use eco_steps::{WrittenAction, WrittenChange, WrittenCommand, WrittenStep};

/// The texts of a step: what is read as a reference, as an id and as a query, and a name.
#[derive(Clone, Copy)]
pub struct Texts<'a> {
    pub entity: Option<&'a str>,
    pub id: Option<&'a str>,
    pub query: Option<&'a str>,
    pub name: Option<&'a str>,
}

impl<'a> Texts<'a> {
    // A step without texts.
    fn none() -> Texts<'a> {
        Texts {
            entity: None,
            id: None,
            query: None,
            name: None,
        }
    }

    fn of_entity(entity: &'a str) -> Texts<'a> {
        Texts {
            entity: Some(entity),
            ..Texts::none()
        }
    }

    fn of_id(id: &'a str) -> Texts<'a> {
        Texts {
            id: Some(id),
            ..Texts::none()
        }
    }

    fn of_both(entity: &'a str, id: &'a str) -> Texts<'a> {
        Texts {
            entity: Some(entity),
            id: Some(id),
            ..Texts::none()
        }
    }

    fn of_query(query: &'a str) -> Texts<'a> {
        Texts {
            query: Some(query),
            ..Texts::none()
        }
    }

    // The same, with a name.
    fn with_name(self, name: Option<&'a str>) -> Texts<'a> {
        Texts { name, ..self }
    }
}

/// The texts of a step that stand in it alone, and not in its stages or actions.
pub fn texts_of_step<'a>(step: &WrittenStep<'a>) -> Texts<'a> {
    match *step {
        WrittenStep::Create(name) => Texts::none().with_name(name),
        WrittenStep::Component { name, .. } => Texts::none().with_name(Some(name)),
        WrittenStep::Change(change) => texts_of_change(change),
        WrittenStep::Has { entity, id } | WrittenStep::Get { entity, id } => {
            Texts::of_both(entity, id)
        }
        WrittenStep::Show { entity } => Texts::of_entity(entity),
        WrittenStep::Query { text } | WrittenStep::Cache { text } => Texts::of_query(text),
        WrittenStep::System { name, query, .. } => Texts::of_query(query).with_name(Some(name)),
        WrittenStep::List
        | WrittenStep::Cached { .. }
        | WrittenStep::Merge { .. }
        | WrittenStep::Frame => Texts::none(),
    }
}

// The texts of a change.
fn texts_of_change<'a>(change: WrittenChange<'a>) -> Texts<'a> {
    match change {
        WrittenChange::Add { entity, id }
        | WrittenChange::Remove { entity, id }
        | WrittenChange::Set { entity, id, .. } => Texts::of_both(entity, id),
        WrittenChange::Clear { entity } | WrittenChange::Delete { entity } => {
            Texts::of_entity(entity)
        }
        WrittenChange::Rename { entity, name } => Texts::of_entity(entity).with_name(name),
        WrittenChange::DeleteWith { id } | WrittenChange::RemoveAll { id } => Texts::of_id(id),
    }
}

/// The texts of a command.
pub fn texts_of_command<'a>(command: WrittenCommand<'a>) -> Texts<'a> {
    match command {
        WrittenCommand::Create { handle } => Texts::of_entity(handle),
        WrittenCommand::Change(change) => texts_of_change(change),
    }
}

/// The texts of an action.
pub fn texts_of_action<'a>(action: WrittenAction<'a>) -> Texts<'a> {
    match action {
        WrittenAction::Add { id }
        | WrittenAction::Remove { id }
        | WrittenAction::Spawn { id: Some(id) } => { Texts::of_id(id) }
        _ => Texts::none(),
    }
}
