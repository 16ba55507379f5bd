// What a walk reads off the marks: an edge to leave by, the vertex ahead, whether a vertex is an anchor.
ghost use Rattle.std.specs.Prelude.{◌≡◌, not, ◌&&◌, ◌||◌, List, ℕ, ◌%◌, eqb};
ghost use Rattle.state.specs.Counted.{same_side};
ghost use Rattle.dna.specs.Calls.{code_in};
ghost use Rattle.graph.specs.Walks.{enter as entered, isolated, leaving, visited};
ghost use Rattle.marks.specs.Marks.{end_in, ends, visits};

use dna::Base;
use graph::{Step, StopReason};
use state::Side;

// The edge on a side, as a mark holds it.
pub fn edge_in(mark: u8, side: Side) -> u8
    ensures { result ≡ end_in mark side }
{
    match side {
        Side::Front => mark % 8,
        Side::Back => mark / 8 % 8,
    }
}

// The base that has this code. The remainder tells the compiler that there is no fifth.
pub fn base_of(code: u8) -> Base
    ensures { code_in result ≡ code % 4 }
{
    Base::from_bits(code % 4)
}

// The base that an edge appends: on Front it is complemented.
pub fn leaving_base(side: Side, edge: u8) -> Base
    ensures { code_in result ≡ leaving side (edge % 4) }
{
    let base = base_of(edge);
    match side {
        Side::Front => base.complement(),
        Side::Back => base,
    }
}

// Whether a visited vertex ahead closes the cycle: it is the anchor, come back to by the side opposite the start.
fn closes(anchor: usize, start: Side, vertex: usize, side: Side) -> bool
    ensures { result ≡ eqb vertex anchor && not (same_side side start) }
{
    vertex == anchor && side != start
}

// Vertex w would be entered by a side, come to by a base: the walk stops if that side retains several edges, or if the
// vertex is visited; else it goes on by the opposite side. A vertex past the marks has no edge and is not visited. K
// and the keys play no part.
#[tactic(auto, using(crate::proofs::Entering::enter_past, crate::proofs::Entering::enter_at))]
pub fn enter(marks: &[u8], anchor: usize, start: Side, w: usize, side: Side, base: u8) -> Step
    ensures { (K : ℕ) (ks : List ℕ) →
        result ≡ entered K ks (ends marks.now) anchor start (visits marks.now) w side base }
{
    if let Some(&mark) = marks.get(w) {
        if edge_in(mark, side) == 4 {
            return Step::Stop(StopReason::BranchingAhead);
        }
        if mark / 64 == 1 {
            return Step::Stop(StopReason::VisitedAhead(closes(anchor, start, w, side)));
        }
    }
    Step::Next {
        vertex: w,
        side: side.inverse(),
        base,
    }
}

// Whether vertex a is no anchor: visited or isolated, or past the marks.
#[tactic(auto, using(crate::proofs::Skipping::skipped_past, crate::proofs::Skipping::skipped_at))]
pub fn is_skipped(marks: &[u8], a: usize) -> bool
    ensures { result ≡ (visited (visits marks.now) a || isolated (ends marks.now) a) }
{
    let Some(&mark) = marks.get(a) else {
        return true;
    };
    mark / 64 == 1 || edge_in(mark, Side::Front) == 5 && edge_in(mark, Side::Back) == 5
}
