//! What traits demand (Flecs manual, "Component Traits"): what an added id brings with it, and the type that an add leads to (Acyclic,
//! Exclusive and With); and deletes (cleanup): who dies is the least set that the policies demand, and the others lose the ids that
//! name the dead.
#![tactic(auto)]

mod brought;
mod deleting;
mod doomed;
mod few;
mod forbidding;
mod holdings;
mod implied;
pub mod laws;
mod node;
mod objection;
mod only_holder;
mod pair_traits;
mod plan;
mod policy;
mod prospect;
mod role;
mod target;
mod ties;
mod verdict;
mod walk;

pub use deleting::{carry_out, delete, delete_with};
pub use doomed::Doomed;
pub use holdings::Holdings;
pub use implied::closure;
pub use node::Node;
pub use objection::Objection;
pub use only_holder::OnlyHolder;
pub use prospect::{Prospect, comes_alone, foresee};
pub use target::{Target, closed_type, open_target, short_target, target_type};
pub use walk::{has, reached, reaches};
