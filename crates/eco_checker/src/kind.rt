//! What an argument has to be.

use eco_ids::Edition;
use eco_steps::{
    read_arity, read_limit, read_name, read_number, read_phase, read_value, read_version,
};
use serde_json::Value;
use std::alloc::AllocError;

/// What an argument has to be.
#[derive(Clone, Copy)]
pub(crate) enum Kind {
    Text,
    TextOrNull,
    FieldValues,
    Arity,
    QueryNumber,
    Admitted,
    Phase,
    Slot,
    Stages,
    Actions,
    Version,
    Limit,
    Steps,
}

impl Kind {
    /// Whether a value is of this kind in a script of an edition. A list of stages, actions or steps is one whatever its items
    /// are.
    pub(crate) fn fits(self, edition: Edition, value: &Value) -> bool {
        match self {
            Kind::Text => value.as_str().is_some(),
            Kind::TextOrNull => read_name(value).is_some(),
            Kind::FieldValues => read_value(edition, value).is_some(),
            Kind::Arity => read_arity(edition, value).is_some(),
            Kind::QueryNumber => read_number(value, 0, u32::MAX).is_some(),
            Kind::Admitted => read_number(value, 0, 1_048_576).is_some(),
            Kind::Phase => read_phase(value).is_some(),
            Kind::Slot => read_number(value, 0, 31).is_some(),
            Kind::Stages | Kind::Actions | Kind::Steps => value.as_array().is_some(),
            Kind::Version => read_version(value).is_some(),
            Kind::Limit => read_limit(edition, value).is_some(),
        }
    }

    // What is told of a value that is not of this kind, where every edition has the same.
    fn expected(self) -> &'static str {
        match self {
            Kind::Text => "a text",
            Kind::TextOrNull => "a text or null",
            Kind::FieldValues => "a list of whole numbers",
            Kind::Arity | Kind::Limit => "a whole number",
            Kind::QueryNumber => "a whole number from 0 to 4,294,967,295",
            Kind::Admitted => "a whole number from 0 to 1,048,576",
            Kind::Phase => "the name of a phase",
            Kind::Slot => "a whole number from 0 to 31",
            Kind::Stages => "a list of stages",
            Kind::Actions => "a list of actions",
            Kind::Version => "1 or 2",
            Kind::Steps => "a list of steps",
        }
    }

    /// Adds what is told of a value that is not of this kind in a script of an edition.
    pub(crate) fn push_expected(
        self,
        text: &mut String,
        edition: Edition,
    ) -> Result<(), AllocError> {
        let (least, most) = (edition.builtin_count(), edition.largest_arity());
        match self {
            Kind::FieldValues => write!(text, "a list of 1 to {most} whole numbers of 64 bits"),
            Kind::Arity => write!(text, "a whole number from 1 to {most}"),
            Kind::Limit => write!(text, "a whole number from {least} to 1,048,576"),
            _ => text.push_str(self.expected()),
        }
    }
}
