// The walks from an anchor.
ghost use Rattle.std.specs.Prelude.{◌≡◌, ◌+◌, ◌≤◌, ◌<◌, length};
ghost use Rattle.graph.specs.Walks.{closed, missing};
ghost use Rattle.marks.specs.Ready.{Ready};
ghost use Rattle.contraction.specs.Over.{walk_in};
ghost use Rattle.contraction.specs.Says.{Spells};

use super::{Graph, Stand, Start, Walked};
use graph::{Step, StopReason};

// The walk closed a cycle.
pub(crate) fn is_closed(last: Step) -> bool
    ensures { result ≡ closed last }
{
    matches!(last, Step::Stop(StopReason::VisitedAhead(true)))
}

// The walk came to a vertex that is not stored.
pub(crate) fn is_missing(last: Step) -> bool
    ensures { result ≡ missing last }
{
    matches!(last, Step::Missing)
}

impl Graph<'_> {
    // The walk from a start, its letters written from a place of the buffer on.
    pub(crate) fn spell(
        &self,
        marks: &mut [u8],
        start: Start,
        buffer: &mut [u8],
        at: usize,
    ) -> Walked
        requires { Ready self.now.k self.now.keys.now marks.old × (start.anchor < length marks.old)
            × (at + length (walk_in self.now.k self.now.keys.now marks.old start.anchor start.side).bases
            ≤ length buffer.old) }
        ensures { Spells self.now.k self.now.keys.now marks.old start.anchor start.side result marks.new
            buffer.old at buffer.new }
    {
        let mut bases: usize = 0;
        let mut stand = Stand {
            vertex: start.anchor,
            side: start.side,
            strands: self.strands_of(marks, start.anchor, start.side),
        };
        loop {
            let last = self.advance(marks, start, stand);
            let Step::Next { vertex, side, base } = last else {
                return Walked { bases, last };
            };
            let letter = marks::base_of(base);
            // Rolled before the letter is written: the other way round a step takes a tenth longer.
            let strands = stand.strands.rolled(self.k, letter);
            buffer[at + bases] = letter.to_ascii();
            stand = Stand {
                vertex,
                side,
                strands,
            };
            bases += 1;
        }
    }
}
