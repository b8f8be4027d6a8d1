//! The words that a script knows, by where they stand.

use crate::form::{Form, action_form, command_form, step_form};
use std::alloc::{AllocError, Global};
use strsim::levenshtein;

// A longer word is no slip of the pen, and is compared with none.
const LONGEST_COMPARED: usize = 40;

static STEPS: [&str; 20] = [
    "create",
    "component",
    "add",
    "remove",
    "set",
    "clear",
    "remove_all",
    "delete",
    "delete_with",
    "rename",
    "has",
    "get",
    "show",
    "list",
    "query",
    "cache",
    "cached",
    "merge",
    "system",
    "frame",
];

static COMMANDS: [&str; 9] = [
    "create",
    "add",
    "remove",
    "set",
    "clear",
    "rename",
    "delete",
    "delete_with",
    "remove_all",
];

static ACTIONS: [&str; 6] = ["add", "remove", "put", "sum", "kill", "spawn"];

static PHASES: [&str; 8] = [
    "OnLoad",
    "PostLoad",
    "PreUpdate",
    "OnUpdate",
    "OnValidate",
    "PostUpdate",
    "PreStore",
    "OnStore",
];

// The word without capitals.
fn without_capitals(alloc: Global, word: &str) -> Result<String, AllocError> {
    let mut plain = String::new(alloc);
    for character in word.chars() {
        plain.push(character.to_ascii_lowercase())?;
    }
    Ok(plain)
}

// How many edits lead from a word, or from the word without capitals, to another.
fn edits(alloc: Global, word: &str, plain: &str, known: &str) -> Result<usize, AllocError> {
    let edits = levenshtein(alloc, word, known)?;
    Ok(edits.min(levenshtein(alloc, plain, known)?))
}

// The word of some that is nearest to another, or to that without capitals, if one is near enough.
fn nearest_of(
    alloc: Global,
    words: &'static [&'static str],
    word: &str,
    plain: &str,
) -> Result<Option<&'static str>, AllocError> {
    let mut nearest = None;
    let mut least = usize::MAX;
    for known in words {
        let count = edits(alloc, word, plain, known)?;
        if count < least && count <= 1 + known.len() / 4 {
            nearest = Some(*known);
            least = count;
        }
    }
    Ok(nearest)
}

/// Where a word stands, which says the words that there are.
#[derive(Clone, Copy)]
pub(crate) enum Vocabulary {
    Steps,
    Commands,
    Actions,
    Phases,
}

impl Vocabulary {
    // All its words.
    fn words(self) -> &'static [&'static str] {
        match self {
            Vocabulary::Steps => &STEPS,
            Vocabulary::Commands => &COMMANDS,
            Vocabulary::Actions => &ACTIONS,
            Vocabulary::Phases => &PHASES,
        }
    }

    /// What one of its words names.
    pub(crate) fn noun(self) -> &'static str {
        match self {
            Vocabulary::Steps => "step",
            Vocabulary::Commands => "command",
            Vocabulary::Actions => "action",
            Vocabulary::Phases => "phase",
        }
    }

    /// The arguments that a word takes, if it is one that takes some.
    pub(crate) fn form(self, word: &str) -> Option<Form> {
        match self {
            Vocabulary::Steps => step_form(word),
            Vocabulary::Commands => command_form(word),
            Vocabulary::Actions => action_form(word),
            Vocabulary::Phases => None,
        }
    }

    /// What a word that it does not know names elsewhere, if it names something.
    pub(crate) fn elsewhere(self, word: &str) -> Option<&'static str> {
        if matches!(self, Vocabulary::Phases) {
            None
        } else if step_form(word).is_some() {
            Some("a step")
        } else if action_form(word).is_some() {
            Some("an action of a system")
        } else {
            None
        }
    }

    /// The word that is nearest to one that it does not know, if one is near enough: an edit for a short word, and one more for
    /// each four letters.
    pub(crate) fn nearest(
        self,
        alloc: Global,
        word: &str,
    ) -> Result<Option<&'static str>, AllocError> {
        if word.len() > LONGEST_COMPARED {
            return Ok(None);
        }
        let plain = without_capitals(alloc, word)?;
        nearest_of(alloc, self.words(), word, plain.as_str())
    }
}
