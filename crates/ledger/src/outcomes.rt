//! The result of a shift.

use ledger_tables::Fault;
use office::Reply;

/// The result of a list of commands.
#[derive(Drop)]
pub struct Shift {
    /// The replies to the commands that were acknowledged, in order.
    pub replies: Vec<Reply>,
    /// The number of commands that were replied to.
    pub acknowledged: usize,
    /// The fault of the command after them, which ended the shift.
    pub fault: Option<Fault>,
}
