//! What is wrong with a script, in words. A checker finds each step that is none, and says what is wrong with it; of a
//! step that a world refuses, `push_meaning` says which of its texts the refusal means, and why.
//!
//! Which steps are listed as faulty is proved, and that each has lines of its own, one at least, which begin with its
//! number. The words behind, and those of `push_meaning`, are tested alone.
#![tactic(auto)]

mod check;
mod faults;
mod form;
mod kind;
pub mod laws;
mod meaning;
mod reasons;
mod refusals;
mod report;
mod run;
mod search;
mod shown;
mod texts;
mod verdict;
mod vocabulary;

pub use check::check_bytes;
pub use faults::Faults;
pub use meaning::push_meaning;
pub use run::check_script;
pub use search::{actions_not_read, commands_not_read, steps_not_read};
pub use verdict::Verdict;
