//! Why a value is no step, command or action, in words.

use crate::form::{Argument, Form, script_form};
use crate::kind::Kind;
use crate::shown::{ARGUMENT_WIDTH, plural, push_value};
use crate::vocabulary::Vocabulary;
use eco_ids::Edition;
use eco_steps::{read_list, read_version, read_words};
use serde_json::Value;
use std::alloc::{AllocError, Global};

// Adds the word that was meant, if one is near.
fn push_meant(
    alloc: Global,
    text: &mut String,
    vocabulary: Vocabulary,
    word: &str,
) -> Result<(), AllocError> {
    match vocabulary.nearest(alloc, word)? {
        Some(known) => write!(text, "; did you mean \"{known}\"?"),
        None => Ok(()),
    }
}

// Adds that there is no such word, and where there is one, or the word that was meant.
fn push_unknown(
    alloc: Global,
    text: &mut String,
    vocabulary: Vocabulary,
    first: &Value,
    word: &str,
) -> Result<(), AllocError> {
    let noun = vocabulary.noun();
    write!(text, "no {noun} is called ")?;
    push_value(alloc, text, first, ARGUMENT_WIDTH)?;
    match vocabulary.elsewhere(word) {
        Some(what) => write!(text, "; {what} is"),
        None => push_meant(alloc, text, vocabulary, word),
    }
}

// Adds the words for the arguments, in brackets, if there are some.
fn push_roles(text: &mut String, arguments: &[Argument]) -> Result<(), AllocError> {
    let Some((first, others)) = arguments.split_first() else {
        return Ok(());
    };
    let role = first.role;
    write!(text, " ({role}")?;
    for argument in others {
        let role = argument.role;
        write!(text, ", {role}")?;
    }
    text.push_str(")")
}

// Adds that there are not as many arguments as the word takes.
fn push_count(text: &mut String, word: &str, form: Form, given: usize) -> Result<(), AllocError> {
    let count = form.arguments.len();
    let none = if form.may_take_none { "0 or " } else { "" };
    let plural = plural(count);
    write!(text, "\"{word}\" takes {none}{count} argument{plural}")?;
    push_roles(text, form.arguments)?;
    write!(text, ", not {given}")
}

// Adds what an argument has to be, and what it is, behind a semicolon where something stands in front.
fn push_argument(
    alloc: Global,
    text: &mut String,
    edition: Edition,
    is_behind: bool,
    argument: Argument,
    value: &Value,
) -> Result<(), AllocError> {
    let separator = if is_behind { "; " } else { "" };
    let role = argument.role;
    write!(text, "{separator}{role}: expected ")?;
    argument.kind.push_expected(text, edition)?;
    text.push_str(", not ")?;
    push_value(alloc, text, value, ARGUMENT_WIDTH)?;
    match (argument.kind, value.as_str()) {
        (Kind::Phase, Some(word)) => push_meant(alloc, text, Vocabulary::Phases, word),
        _ => Ok(()),
    }
}

// Adds each argument that is not what it has to be, with semicolons between, and in front where something stands there.
fn push_arguments(
    alloc: Global,
    text: &mut String,
    edition: Edition,
    form: Form,
    given: &[Value],
    mut is_behind: bool,
) -> Result<(), AllocError> {
    for (place, argument) in form.arguments.iter().enumerate() {
        if let Some(value) = given.get(place) {
            if !argument.kind.fits(edition, value) {
                push_argument(alloc, text, edition, is_behind, *argument, value)?;
                is_behind = true;
            }
        }
    }
    Ok(())
}

// Adds what is wrong with the arguments of a word.
fn push_form(
    alloc: Global,
    text: &mut String,
    edition: Edition,
    word: &str,
    form: Form,
    given: &[Value],
) -> Result<(), AllocError> {
    if form.counts(given.len()) {
        push_arguments(alloc, text, edition, form, given, false)
    } else {
        push_count(text, word, form, given.len())?;
        push_arguments(alloc, text, edition, form, given, true)
    }
}

/// Adds why a value is no step, command or action of a script of an edition: all that is wrong with it, joined by semicolons.
pub(crate) fn push_reasons(
    alloc: Global,
    text: &mut String,
    edition: Edition,
    vocabulary: Vocabulary,
    value: &Value,
) -> Result<(), AllocError> {
    let noun = vocabulary.noun();
    let Some(items) = read_list(value) else {
        return write!(
            text,
            "expected a list that begins with the name of a {noun}"
        );
    };
    let Some((first, given)) = items.split_first() else {
        return write!(text, "expected the name of a {noun}");
    };
    let Some(word) = first.as_str() else {
        write!(text, "expected the name of a {noun}, not ")?;
        return push_value(alloc, text, first, ARGUMENT_WIDTH);
    };
    match vocabulary.form(word) {
        Some(form) => push_form(alloc, text, edition, word, form, given),
        None => push_unknown(alloc, text, vocabulary, first, word),
    }
}

/// Adds what keeps a value from having the three parts of a script.
pub(crate) fn push_head_reasons(
    alloc: Global,
    text: &mut String,
    value: &Value,
) -> Result<(), AllocError> {
    let Some(items) = read_list(value) else {
        text.push_str("; expected a list, not ")?;
        return push_value(alloc, text, value, ARGUMENT_WIDTH);
    };
    let [version, _, _] = items else {
        let given = items.len();
        return write!(text, "; expected a list of 3 items, not {given}");
    };
    // Without a version the limit is judged by the first edition, which allows more of them.
    let edition = read_version(version).unwrap_or(Edition::First);
    push_arguments(alloc, text, edition, script_form(), items, true)
}

/// Whether a value is written as one of these words asks in a script of an edition, whatever the items of its lists are.
pub(crate) fn is_well_formed(edition: Edition, vocabulary: Vocabulary, value: &Value) -> bool {
    match read_words(value) {
        Some((word, given)) => match vocabulary.form(word) {
            Some(form) => form.fits(edition, given),
            None => false,
        },
        None => false,
    }
}
