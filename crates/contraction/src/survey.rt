// All walks, their letters in a trail: what there will be to write.
ghost use Rattle.std.specs.Prelude.{◌+◌, ◌*◌, ◌≤◌, ◌<◌, length, MatchResult};
ghost use Rattle.marks.specs.Ready.{Ready, Unvisited};
ghost use Rattle.contraction.specs.Says.{Extracts, Misses, Surveyed};
ghost use Rattle.contraction.specs.Trail.{piece_in};

use super::{CLOSED, ContractError, Graph, Label, SKIPPED, STOPPED, Start, Unitigs, walk};
use state::Side;

impl Graph<'_> {
    // An anchor's walks: the Back walk, then the Front walk unless the first has closed. Their letters stand in the
    // trail from a place on, each walk's with a byte behind them that is no letter.
    fn extract(
        &self,
        marks: &mut [u8],
        a: usize,
        trail: &mut [u8],
        at: usize,
    ) -> Result<Label, ContractError>
        requires { Ready self.now.k self.now.keys.now marks.old × (a < length marks.old)
            × (at + length (piece_in self.now.k self.now.keys.now marks.old a) ≤ length trail.old) }
        ensures { MatchResult result
            (λ l. Extracts self.now.k self.now.keys.now marks.old a l marks.new trail.old at trail.new)
            (λ e. Misses self.now.k self.now.keys.now marks.old a e) }
    {
        let start = Start {
            anchor: a,
            side: Side::Back,
        };
        let back = self.spell(marks, start, trail, at);
        if walk::is_missing(back.last) {
            return Err(ContractError::MissingVertex);
        }
        let half = at + back.bases;
        if walk::is_closed(back.last) {
            trail[half] = CLOSED;
            return Ok(Label {
                bases: self.k + back.bases,
                end: half + 1,
            });
        }
        trail[half] = STOPPED;
        let start = Start {
            anchor: a,
            side: Side::Front,
        };
        let front = self.spell(marks, start, trail, half + 1);
        if walk::is_missing(front.last) {
            return Err(ContractError::MissingVertex);
        }
        let end = half + 1 + front.bases;
        trail[end] = STOPPED;
        Ok(Label {
            bases: self.k + front.bases + back.bases,
            end: end + 1,
        })
    }

    // All anchors' walks: how many labels there are to write, and of how many bases.
    fn follow_all(&self, marks: &mut [u8], trail: &mut [u8]) -> Result<Unitigs, ContractError>
        requires { Ready self.now.k self.now.keys.now marks.old × Unvisited marks.old
            × (2 * length marks.old ≤ length trail.old) }
        ensures { Surveyed self.now.k self.now.keys.now marks.old result marks.new trail.old trail.new }
    {
        let mut all = Unitigs {
            labels: 0,
            bases: 0,
        };
        let mut at: usize = 0;
        for a in 0..marks.len() {
            if marks::is_skipped(marks, a) {
                trail[at] = SKIPPED;
                at += 1;
                continue;
            }
            let label = self.extract(marks, a, trail, at)?;
            all.labels += 1;
            all.bases += label.bases;
            at = label.end;
        }
        Ok(all)
    }
}

// Every anchor in ascending order, visited and isolated ones skipped, until a vertex is missing. The trail has what the
// labels are to be written from.
pub(crate) fn survey(
    k: usize,
    keys: &[u64],
    marks: &mut [u8],
    trail: &mut [u8],
) -> Result<Unitigs, ContractError>
    requires { Ready k keys.now marks.old × Unvisited marks.old × (2 * length marks.old ≤ length trail.old) }
    ensures { Surveyed k keys.now marks.old result marks.new trail.old trail.new }
{
    let mut cells = [0u32; 16385];
    let directory = &mut cells[..directory::cells_for(marks.len())];
    directory::make(k, marks.len(), keys, directory);
    let graph = Graph { k, keys, directory };
    graph.follow_all(marks, trail)
}
