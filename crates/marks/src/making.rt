// Marks made of the counts, and unmade.
ghost use Rattle.std.specs.Prelude.{◌≡◌, map, length, take, replicate};
ghost use Rattle.dna.specs.Text.{over};
ghost use Rattle.state.specs.Says.{kind_of};
ghost use Rattle.marks.specs.Marks.{mark_of, visits};

use state::{EdgeKind, Side};

// A vertex's two edges in one byte.
fn mark_of(kind: EdgeKind, word: u32, cutoff: u32) -> u8
    ensures { result ≡ mark_of (kind_of kind) cutoff word }
{
    let front = state::edge_of(kind, word, Side::Front, cutoff);
    let back = state::edge_of(kind, word, Side::Back, cutoff);
    front.bits() + 8 * back.bits()
}

// The edges of as many vertices as there are marks and counts; a mark that has no counts stays. By place: after
// a zip of iter_mut nothing is known of the marks.
pub fn digest(kind: EdgeKind, counts: &[u32], cutoff: u32, marks: &mut [u8])
    ensures { marks.new ≡ over (map (mark_of (kind_of kind) cutoff) (take (length marks.old) counts.now)) marks.old }
{
    for i in 0..marks.len().min(counts.len()) {
        marks[i] = mark_of(kind, counts[i], cutoff);
    }
}

// Each mark without its edges: 1 for a visited vertex and 0 for the rest, where marks are below 128, as contraction
// makes them.
pub fn settle(marks: &mut [u8])
    ensures { marks.new ≡ visits marks.old }
{
    for mark in marks.iter_mut() {
        *mark /= 64;
    }
}

// All marks 0.
pub fn clear(marks: &mut [u8])
    ensures { marks.new ≡ replicate (length marks.old) 0 }
{
    marks.fill(0);
}
