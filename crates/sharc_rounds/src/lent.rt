//! What is lent to all threads of a round.

use sharc_code::{Code, Shape};
use sharc_cpu::RowPlan;

/// What is lent to all threads of a round: a code with its plan, the shape of its words, what the threads share, the
/// gate that is asked before their steps, and how many events each may come to.
#[derive(Drop)]
pub struct Lent<'a, B, G> {
    pub code: &'a Code,
    pub plan: &'a RowPlan,
    pub shape: &'a Shape,
    pub shared: &'a B,
    pub gate: &'a G,
    pub limit: u64,
}
