//! Sets of a run.

use eco_ids::Entity;

/// A set of a run: whose value it sets, and the first fields of that, with zeros behind them. The run has the id. A plain pair, as
/// tables that write many of them know no stage.
pub type RunSet<const N: usize> = (Entity, [i64; N]);
