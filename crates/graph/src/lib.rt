// What a walk meets, in the words of the definitions. No code stands here: the crates above do the work.
#![tactic(auto)]

use state::Side;

// Why a walk stops.
#[derive(Clone, Copy)]
pub enum StopReason {
    // The side that the walk would leave by retains no edge.
    NoEdge,
    // That side retains several.
    SeveralEdges,
    // The side that it would enter by retains several.
    BranchingAhead,
    // The vertex ahead is visited; true where the walk has closed a cycle.
    VisitedAhead(bool),
}

// What one step of a walk finds.
#[derive(Clone, Copy)]
pub enum Step {
    // The next vertex, the side that it is left by, and the base that led to it.
    Next { vertex: usize, side: Side, base: u8 },
    Stop(StopReason),
    // The vertex ahead is not stored.
    Missing,
}
