//! The lines that tell the faults of a script.

ghost use Rattle.std.specs.Prelude.{◌≡◌, ℕ, List, ◌++◌, [], ◌∷◌, ◌<◌, Some, OnOk, IfOk, All, codes, length, map};
ghost use Rattle.std.specs.Prelude.{flat_map, string_bytes};
ghost use Rattle.eco_checker.specs.Lines.{AreFaultLines, AreFaults, IsHeadLine, IsUnread, last_line};
ghost use Rattle.eco_checker.specs.Lines.{unread_text};
ghost use Rattle.eco_checker.specs.Places.{AddsLines, AddsSome, place_step, place_text};

use crate::faults::Faults;
use crate::reasons::{is_well_formed, push_head_reasons, push_reasons};
use crate::search::{actions_not_read, commands_not_read};
use crate::shown::{ARGUMENT_WIDTH, STEP_WIDTH, plural, push_value};
use crate::vocabulary::Vocabulary;
use eco_ids::Edition;
use eco_steps::{read_list, read_words};
use serde_json::Value;
use std::alloc::{AllocError, Global};
use std::fmt;

// Where a fault is, by numbers from 0.
#[derive(Clone, Copy)]
enum Place {
    Step(usize),
    Stage {
        step: usize,
        stage: usize,
    },
    Command {
        step: usize,
        stage: usize,
        command: usize,
    },
    Action {
        step: usize,
        action: usize,
    },
}

impl fmt::Display for Place {
    ghost output = { λ place. Some (place_text place) };

    fn fmt<W: fmt::Write>(&self, f: &mut fmt::Formatter<W>) -> fmt::Result {
        match *self {
            Place::Step(step) => write!(f, "step {step}"),
            Place::Stage { step, stage } => write!(f, "step {step}, stage {stage}"),
            Place::Command {
                step,
                stage,
                command,
            } => write!(f, "step {step}, stage {stage}, command {command}"),
            Place::Action { step, action } => write!(f, "step {step}, action {action}"),
        }
    }
}

// A line: where a fault is, and words for it.
fn line_of(alloc: Global, place: Place, words: &str) -> Result<String, AllocError>
    ensures { IfOk result (λ line. string_bytes line
        ≡ place_text place ++ codes ": " ++ words.now ++ codes "\n") }
{
    format!(in alloc; "{place}: {words}\n")
}

// The line of what has not the three parts of a script, of these words.
fn head_line(alloc: Global, words: &str) -> Result<String, AllocError>
    ensures { IfOk result (λ line. IsHeadLine (string_bytes line)) }
{
    format!(in alloc; "head: {words}\n")
}

// Adds which three parts a script has.
fn push_parts(text: &mut String) -> Result<(), AllocError> {
    let first = Edition::First.builtin_count();
    let second = Edition::Second.builtin_count();
    write!(
        text,
        "a script is [1, limit, steps] with a limit from {first} to 1,048,576, \
         or [2, limit, steps] with a limit from {second} to 1,048,576"
    )
}

// Adds a line to others.
fn push_to(lines: &mut Vec<String>, line: String) -> Result<(), AllocError>
    ensures { OnOk result (map string_bytes lines.new.items
        ≡ map string_bytes lines.old.items ++ string_bytes line ∷ []) }
{
    lines.push(line)?;
    Ok(())
}

// The lines that tell the faults, each with its end, and the edition that the steps are judged by.
#[derive(Drop)]
struct Lines {
    alloc: Global,
    edition: Edition,
    lines: Vec<String>,
}

impl Lines {
    // Adds a line: where a fault is, and words for it.
    fn push_line(&mut self, place: Place, words: &str) -> Result<(), AllocError>
        ensures { OnOk result (AddsSome (place_step place) (map string_bytes self.old.lines.items)
            (map string_bytes self.new.lines.items)) }
    {
        let line = line_of(self.alloc, place, words)?;
        push_to(&mut self.lines, line)
    }

    // Adds the line of a value that is none of what stands there.
    fn push_fault(
        &mut self,
        place: Place,
        vocabulary: Vocabulary,
        value: &Value,
    ) -> Result<(), AllocError>
        ensures { OnOk result (AddsSome (place_step place) (map string_bytes self.old.lines.items)
            (map string_bytes self.new.lines.items)) }
    {
        let mut words = String::new(self.alloc);
        push_value(self.alloc, &mut words, value, STEP_WIDTH)?;
        words.push_str(": ")?;
        push_reasons(self.alloc, &mut words, self.edition, vocabulary, value)?;
        self.push_line(place, words.as_str())
    }

    // Adds the line of a stage that is no list.
    fn push_no_stage(&mut self, step: usize, stage: usize, value: &Value) -> Result<(), AllocError>
        ensures { OnOk result (AddsLines step (map string_bytes self.old.lines.items)
            (map string_bytes self.new.lines.items)) }
    {
        let mut words = String::new(self.alloc);
        words.push_str("expected a list of commands, not ")?;
        push_value(self.alloc, &mut words, value, ARGUMENT_WIDTH)?;
        self.push_line(Place::Stage { step, stage }, words.as_str())
    }

    // Adds the lines of the commands of a stage that have these numbers.
    fn push_commands(
        &mut self,
        step: usize,
        stage: usize,
        items: &[Value],
        numbers: &[usize],
    ) -> Result<(), AllocError>
        ensures { OnOk result (AddsLines step (map string_bytes self.old.lines.items)
            (map string_bytes self.new.lines.items)) }
    {
        for number in numbers {
            let command = *number;
            let place = Place::Command {
                step,
                stage,
                command,
            };
            if let Some(value) = items.get(command) {
                self.push_fault(place, Vocabulary::Commands, value)?;
            }
        }
        Ok(())
    }

    // Adds the lines of a stage.
    fn push_stage(&mut self, step: usize, stage: usize, value: &Value) -> Result<(), AllocError>
        ensures { OnOk result (AddsLines step (map string_bytes self.old.lines.items)
            (map string_bytes self.new.lines.items)) }
    {
        match read_list(value) {
            Some(items) => {
                let numbers = commands_not_read(self.alloc, self.edition, items)?;
                self.push_commands(step, stage, items, numbers.as_slice())
            }
            None => self.push_no_stage(step, stage, value),
        }
    }

    // Adds the lines of the stages of a merge.
    fn push_stages(&mut self, step: usize, stages: &Value) -> Result<(), AllocError>
        ensures { OnOk result (AddsLines step (map string_bytes self.old.lines.items)
            (map string_bytes self.new.lines.items)) }
    {
        let items = read_list(stages).unwrap_or(&[]);
        for (stage, value) in items.iter().enumerate() {
            self.push_stage(step, stage, value)?;
        }
        Ok(())
    }

    // Adds the lines of the actions of a system that have these numbers.
    fn push_some_actions(
        &mut self,
        step: usize,
        items: &[Value],
        numbers: &[usize],
    ) -> Result<(), AllocError>
        ensures { OnOk result (AddsLines step (map string_bytes self.old.lines.items)
            (map string_bytes self.new.lines.items)) }
    {
        for number in numbers {
            let action = *number;
            let place = Place::Action { step, action };
            if let Some(value) = items.get(action) {
                self.push_fault(place, Vocabulary::Actions, value)?;
            }
        }
        Ok(())
    }

    // Adds the lines of the actions of a system.
    fn push_actions(&mut self, step: usize, actions: &Value) -> Result<(), AllocError>
        ensures { OnOk result (AddsLines step (map string_bytes self.old.lines.items)
            (map string_bytes self.new.lines.items)) }
    {
        let items = read_list(actions).unwrap_or(&[]);
        let numbers = actions_not_read(self.alloc, self.edition, items)?;
        self.push_some_actions(step, items, numbers.as_slice())
    }

    // Adds the lines of what a step holds.
    fn push_held(&mut self, step: usize, value: &Value) -> Result<(), AllocError>
        ensures { OnOk result (AddsLines step (map string_bytes self.old.lines.items)
            (map string_bytes self.new.lines.items)) }
    {
        let Some((word, given)) = read_words(value) else {
            return Ok(());
        };
        match (word, given) {
            ("merge", [_, stages]) => self.push_stages(step, stages),
            ("system", [_, _, _, actions]) => self.push_actions(step, actions),
            _ => Ok(()),
        }
    }

    // Adds the line of a step that is not written as its word asks.
    fn push_ill_formed(&mut self, step: usize, value: &Value) -> Result<(), AllocError>
        ensures { OnOk result (AddsLines step (map string_bytes self.old.lines.items)
            (map string_bytes self.new.lines.items)) }
    {
        if is_well_formed(self.edition, Vocabulary::Steps, value) {
            Ok(())
        } else {
            self.push_fault(Place::Step(step), Vocabulary::Steps, value)
        }
    }

    // Adds the lines of a step that is none, one at least.
    fn push_step(&mut self, step: usize, value: &Value) -> Result<(), AllocError>
        ensures { OnOk result (AddsSome step (map string_bytes self.old.lines.items)
            (map string_bytes self.new.lines.items)) }
    {
        let before = self.lines.len();
        self.push_ill_formed(step, value)?;
        self.push_held(step, value)?;
        if self.lines.len() == before {
            self.push_fault(Place::Step(step), Vocabulary::Steps, value)
        } else {
            Ok(())
        }
    }

    // Adds the line of what has not the three parts of a script.
    fn push_head(&mut self, value: &Value) -> Result<(), AllocError>
        ensures { OnOk result ((line : List ℕ) × IsHeadLine line × (map string_bytes self.new.lines.items
            ≡ map string_bytes self.old.lines.items ++ line ∷ [])) }
    {
        let mut words = String::new(self.alloc);
        push_parts(&mut words)?;
        push_head_reasons(self.alloc, &mut words, value)?;
        let line = head_line(self.alloc, words.as_str())?;
        push_to(&mut self.lines, line)
    }
}

// Adds lines, one by one.
fn push_lines(text: &mut String, lines: &[String]) -> Result<(), AllocError>
    ensures { OnOk result (string_bytes text.new
        ≡ string_bytes text.old ++ flat_map string_bytes lines.now) }
{
    for line in lines {
        text.push_str(line.as_str())?;
    }
    Ok(())
}

// Adds the last line.
fn push_end(text: &mut String, count: usize) -> Result<(), AllocError>
    ensures { OnOk result (string_bytes text.new ≡ string_bytes text.old ++ last_line count) }
{
    let plural = plural(count);
    write!(
        text,
        "not a script: {count} fault{plural} (counts begin at 0)\n"
    )
}

// The lines of the faults of a value.
fn lines_of(alloc: Global, value: &Value, faults: &Faults<'_>) -> Result<Vec<String>, AllocError>
    requires { All (λ n. n < length faults.now.items.now) faults.now.steps.items }
    ensures { IfOk result (λ lines.
        AreFaultLines faults.now.has_head faults.now.steps.items (map string_bytes lines.items)) }
{
    let mut lines = Lines {
        alloc,
        edition: faults.edition,
        lines: Vec::new(alloc),
    };
    if !faults.has_head {
        lines.push_head(value)?;
    }
    for step in &faults.steps {
        if let Some(value) = faults.items.get(*step) {
            lines.push_step(*step, value)?;
        }
    }
    Ok(lines.lines)
}

/// Adds a line for each fault of a value, and their number.
pub(crate) fn push_report(
    alloc: Global,
    text: &mut String,
    value: &Value,
    faults: &Faults<'_>,
) -> Result<(), AllocError>
    requires { All (λ n. n < length faults.now.items.now) faults.now.steps.items }
    ensures { OnOk result ((told : List ℕ) × AreFaults faults.now.has_head faults.now.steps.items told
        × (string_bytes text.new ≡ string_bytes text.old ++ told)) }
{
    let lines = lines_of(alloc, value, faults)?;
    push_lines(text, lines.as_slice())?;
    push_end(text, lines.len())
}

// Adds the line that says where a text is no JSON, and why, and the last line.
fn push_unread(text: &mut String, line: usize, column: usize, why: &str) -> Result<(), AllocError>
    ensures { OnOk result (string_bytes text.new
        ≡ string_bytes text.old ++ unread_text line column why.now) }
{
    write!(
        text,
        "line {line}, column {column}: {why}\nnot a script: 1 fault\n"
    )
}

/// Adds the line of bytes that are no JSON, and the last line.
pub(crate) fn push_json_fault(
    alloc: Global,
    text: &mut String,
    error: &serde_json::Error,
) -> Result<(), AllocError>
    ensures { OnOk result ((told : List ℕ) × IsUnread told
        × (string_bytes text.new ≡ string_bytes text.old ++ told)) }
{
    let (line, column) = (error.line(), error.column());
    let told = format!(in alloc; "{error}")?;
    let why = told
        .as_str()
        .split_once(" at line ")
        .map_or(told.as_str(), |parts| parts.0);
    push_unread(text, line, column, why)
}
