//! The arguments that the words of a script take.

use crate::kind::Kind;
use eco_ids::Edition;
use serde_json::Value;

/// An argument, by the word for what it stands for, and what it has to be.
#[derive(Clone, Copy)]
pub(crate) struct Argument {
    pub(crate) role: &'static str,
    pub(crate) kind: Kind,
}

const ENTITY: Argument = Argument {
    role: "entity",
    kind: Kind::Text,
};

const HANDLE: Argument = Argument {
    role: "handle",
    kind: Kind::Text,
};

const ID: Argument = Argument {
    role: "id",
    kind: Kind::Text,
};

const NAME: Argument = Argument {
    role: "name",
    kind: Kind::Text,
};

const QUERY: Argument = Argument {
    role: "query",
    kind: Kind::Text,
};

const NAME_OR_NULL: Argument = Argument {
    role: "name",
    kind: Kind::TextOrNull,
};

const VALUE: Argument = Argument {
    role: "value",
    kind: Kind::FieldValues,
};

const ARITY: Argument = Argument {
    role: "arity",
    kind: Kind::Arity,
};

const NUMBER: Argument = Argument {
    role: "number",
    kind: Kind::QueryNumber,
};

const ADMITTED: Argument = Argument {
    role: "admitted",
    kind: Kind::Admitted,
};

const STAGES: Argument = Argument {
    role: "stages",
    kind: Kind::Stages,
};

const PHASE: Argument = Argument {
    role: "phase",
    kind: Kind::Phase,
};

const ACTIONS: Argument = Argument {
    role: "actions",
    kind: Kind::Actions,
};

const SLOT: Argument = Argument {
    role: "slot",
    kind: Kind::Slot,
};

const INTO: Argument = Argument {
    role: "into",
    kind: Kind::Slot,
};

const FROM: Argument = Argument {
    role: "from",
    kind: Kind::Slot,
};

const VERSION: Argument = Argument {
    role: "version",
    kind: Kind::Version,
};

const LIMIT: Argument = Argument {
    role: "limit",
    kind: Kind::Limit,
};

const STEPS: Argument = Argument {
    role: "steps",
    kind: Kind::Steps,
};

static ONE_ENTITY: [Argument; 1] = [ENTITY];

static ONE_HANDLE: [Argument; 1] = [HANDLE];

static ONE_ID: [Argument; 1] = [ID];

static ONE_NAME: [Argument; 1] = [NAME];

static ONE_QUERY: [Argument; 1] = [QUERY];

static ONE_NUMBER: [Argument; 1] = [NUMBER];

static ENTITY_AND_ID: [Argument; 2] = [ENTITY, ID];

static RENAMED: [Argument; 2] = [ENTITY, NAME_OR_NULL];

static COMPONENT: [Argument; 2] = [NAME, ARITY];

static MERGE: [Argument; 2] = [ADMITTED, STAGES];

static PUT: [Argument; 2] = [SLOT, VALUE];

static SUM: [Argument; 2] = [INTO, FROM];

static SET: [Argument; 3] = [ENTITY, ID, VALUE];

static SYSTEM: [Argument; 4] = [NAME, PHASE, QUERY, ACTIONS];

static SCRIPT: [Argument; 3] = [VERSION, LIMIT, STEPS];

/// The arguments that a word takes.
#[derive(Clone, Copy)]
pub(crate) struct Form {
    pub(crate) arguments: &'static [Argument],
    /// Whether it may also take none.
    pub(crate) may_take_none: bool,
}

// The form of a word that takes these arguments.
fn taking(arguments: &'static [Argument]) -> Form {
    Form {
        arguments,
        may_take_none: false,
    }
}

// The form of a word that takes these arguments, or none.
fn taking_or_none(arguments: &'static [Argument]) -> Form {
    Form {
        arguments,
        may_take_none: true,
    }
}

impl Form {
    /// Whether so many arguments are as many as it takes.
    pub(crate) fn counts(self, given: usize) -> bool {
        given == self.arguments.len() || (given == 0 && self.may_take_none)
    }

    /// Whether these arguments are as many as it takes, and each is what it has to be in a script of an edition.
    pub(crate) fn fits(self, edition: Edition, given: &[Value]) -> bool {
        let mut pairs = given.iter().zip(self.arguments);
        self.counts(given.len())
            && pairs.all(|(value, argument)| argument.kind.fits(edition, value))
    }
}

/// The form of a whole script, whose parts are told as arguments are.
pub(crate) fn script_form() -> Form {
    taking(&SCRIPT)
}

// The form of what a script and a stage may both hold.
fn change_form(word: &str) -> Option<Form> {
    let found = match word {
        "add" | "remove" => taking(&ENTITY_AND_ID),
        "set" => taking(&SET),
        "clear" | "delete" => taking(&ONE_ENTITY),
        "delete_with" | "remove_all" => taking(&ONE_ID),
        "rename" => taking(&RENAMED),
        _ => return None,
    };
    Some(found)
}

/// The form of the step that a word names, if it names one.
pub(crate) fn step_form(word: &str) -> Option<Form> {
    let found = match word {
        "create" => taking_or_none(&ONE_NAME),
        "component" => taking(&COMPONENT),
        "has" | "get" => taking(&ENTITY_AND_ID),
        "show" => taking(&ONE_ENTITY),
        "list" | "frame" => taking(&[]),
        "query" | "cache" => taking(&ONE_QUERY),
        "cached" => taking(&ONE_NUMBER),
        "merge" => taking(&MERGE),
        "system" => taking(&SYSTEM),
        _ => return change_form(word),
    };
    Some(found)
}

/// The form of the command of a stage that a word names, if it names one.
pub(crate) fn command_form(word: &str) -> Option<Form> {
    match word {
        "create" => Some(taking(&ONE_HANDLE)),
        _ => change_form(word),
    }
}

/// The form of the action of a system that a word names, if it names one.
pub(crate) fn action_form(word: &str) -> Option<Form> {
    let found = match word {
        "add" | "remove" => taking(&ONE_ID),
        "put" => taking(&PUT),
        "sum" => taking(&SUM),
        "kill" => taking(&[]),
        "spawn" => taking_or_none(&ONE_ID),
        _ => return None,
    };
    Some(found)
}
