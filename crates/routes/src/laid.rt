// The laid taps, with the tables that say the rest of them.
use base::rows::WorkRow;

// The laid taps in order, with the facts of nodes, wires and pages, and the sums of groups.
#[derive(Clone, Copy)]
pub struct Laid<'a> {
    pub facts: &'a [WorkRow],
    pub groups: &'a [WorkRow],
    pub taps: &'a [WorkRow],
}
