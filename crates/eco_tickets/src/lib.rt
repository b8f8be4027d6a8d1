//! Numbers that threads draw side by side: a word that counts, and seats on it, each of which is given some of the numbers, none
//! that another is given.
#![tactic(auto)]

mod closing;
mod parts;
mod ticket;
mod word;

pub use closing::settle;
pub use parts::{join_hands, split_hand};
pub use ticket::Ticket;
pub use word::{Counted, Hand, OnePart, Share, Span, Taking, Word};
