// One step of a walk.
ghost use Rattle.std.specs.Prelude.{◌≡◌, true, ◌/◌, ◌<◌, length};
ghost use Rattle.dna.specs.Calls.{code_in};
ghost use Rattle.kmer.specs.Kmer.{ok_k, forward};
ghost use Rattle.kmer.specs.Says.{value_of};
ghost use Rattle.graph.specs.Walks.{seen};
ghost use Rattle.table.specs.Search.{key};
ghost use Rattle.marks.specs.Ready.{keys_for, Ready};
ghost use Rattle.contraction.specs.Over.{look_in, arrive_in, step_in};
ghost use Rattle.contraction.specs.Says.{Both, Stands, Advances};

use super::{Graph, Stand, Start, Strands};
use dna::Base;
use graph::{Step, StopReason};
use kmer::Kmer;
use state::Side;

// Vertex v's k-mer.
pub(crate) fn key_at(keys: &[u64], v: usize) -> Kmer
    requires { v < length keys.now / 2 }
    ensures { value_of result ≡ key keys.now v }
{
    Kmer {
        words: [keys[2 * v], keys[2 * v + 1]],
    }
}

impl Strands {
    // With a base appended: it enters the strand that is seen behind, and its complement the other in front.
    pub(crate) fn rolled(self, k: usize, base: Base) -> Strands
        requires { (ok_k k ≡ true) × (code_in base < 4) × Both k (value_of self.here) self }
        ensures { Both k (forward k (value_of self.here) (code_in base)) result }
    {
        Strands {
            here: self.here.roll_forward(k, base).unwrap(),
            other: self.other.roll_backward(k, base.complement()).unwrap(),
        }
    }
}

impl Graph<'_> {
    // Vertex v as a walk sees it that leaves by a side: canonical by Back, its reverse complement by Front.
    pub(crate) fn strands_of(&self, marks: &[u8], v: usize, side: Side) -> Strands
        requires { Ready self.now.k self.now.keys.now marks.now × (v < length marks.now) }
        ensures { Both self.now.k (seen self.now.k (keys_for marks.now self.now.keys.now) v side) result }
    {
        let x = key_at(self.keys, v);
        let y = x.reverse_complement(self.k).unwrap();
        match side {
            Side::Front => Strands { here: y, other: x },
            Side::Back => Strands { here: x, other: y },
        }
    }

    // The k-mer y, canonical, is looked up; it would be entered by a side, with a base.
    fn look(&self, marks: &[u8], start: Start, y: Kmer, side: Side, base: u8) -> Step
        requires { Ready self.now.k self.now.keys.now marks.now }
        ensures { result ≡ look_in self.now.k self.now.keys.now marks.now start.anchor start.side
            (value_of y) side base }
    {
        match directory::find(self.k, marks.len(), self.keys, self.directory, y) {
            Ok(w) => marks::enter(marks, start.anchor, start.side, w, side, base),
            Err(_) => Step::Missing,
        }
    }

    // A k-mer, come to by a base, is looked up and entered: by Front if it is seen canonical, else by Back.
    fn arrive(&self, marks: &[u8], start: Start, next: Strands, base: u8) -> Step
        requires { Ready self.now.k self.now.keys.now marks.now × Both self.now.k (value_of next.here) next }
        ensures { result ≡ arrive_in self.now.k self.now.keys.now marks.now start.anchor start.side
            (value_of next.here) base }
    {
        if next.other.is_less(next.here) {
            self.look(marks, start, next.other, Side::Back, base)
        } else {
            self.look(marks, start, next.here, Side::Front, base)
        }
    }

    // The vertex at which a walk stands is left: by its single retained edge, or the walk stops.
    fn leave(&self, marks: &[u8], start: Start, stand: Stand) -> Step
        requires { Ready self.now.k self.now.keys.now marks.now × Stands self.now.k self.now.keys.now marks.now stand }
        ensures { result ≡ step_in self.now.k self.now.keys.now marks.now start.anchor start.side
            stand.vertex stand.side }
    {
        match marks::edge_in(marks[stand.vertex], stand.side) {
            5 => Step::Stop(StopReason::NoEdge),
            4 => Step::Stop(StopReason::SeveralEdges),
            edge => {
                let base = marks::leaving_base(stand.side, edge);
                let next = stand.strands.rolled(self.k, base);
                self.arrive(marks, start, next, base.bits())
            }
        }
    }

    // That vertex is marked, and left.
    pub(crate) fn advance(&self, marks: &mut [u8], start: Start, stand: Stand) -> Step
        requires { Ready self.now.k self.now.keys.now marks.old × Stands self.now.k self.now.keys.now marks.old stand }
        ensures { Advances self.now.k self.now.keys.now marks.old start.anchor start.side stand.vertex stand.side
            result marks.new }
    {
        marks[stand.vertex] = marks[stand.vertex] % 64 + 64;
        self.leave(marks, start, stand)
    }
}
