//! Tests of what lies below a world: printed texts, and each call that may want memory, where there is enough of it.
mod batches;
mod entities;
mod in_turn;
mod names;
mod printed;
mod rounds;
mod rows;
mod stages;
mod types;
