//! Scripts read: which script a JSON value is, with the steps that it asks for; and devices that count their calls: a whole input
//! read from one ([`read_all`]), and a whole text written to one ([`write_all`]).
#![tactic(auto)]

mod action;
mod actions;
mod arguments;
mod change;
mod command;
mod commands;
mod counted;
mod device;
pub mod laws;
mod phase;
mod read_error;
mod read_fault;
mod script;
mod stages;
mod step;
mod transfer;

pub use action::WrittenAction;
pub use actions::Actions;
pub use arguments::{
    read_arity, read_limit, read_list, read_name, read_number, read_value, read_version, read_words,
};
pub use change::WrittenChange;
pub use command::WrittenCommand;
pub use commands::Commands;
pub use counted::Counted;
pub use device::{DeviceFailed, ScriptReader, ScriptWriter};
pub use phase::read_phase;
pub use read_error::ReadError;
pub use read_fault::ReadFault;
pub use script::WrittenScript;
pub use stages::Stages;
pub use step::WrittenStep;
pub use transfer::{MOST_READS, read_all, write_all};
