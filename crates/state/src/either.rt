// The words of a table, of either kind.
ghost use Rattle.std.specs.Prelude.{◌≡◌};
ghost use Rattle.dna.specs.Calls.{code_in};
ghost use Rattle.state.specs.Counted.{answers_for, edge_at, update_call};
ghost use Rattle.state.specs.Says.{kind_of, word_answer};

use super::{EdgeKind, FOUR_BITS, NoBase, PRESENCE, Side};
use dna::Base;

// Both neighbours counted or marked; where one of them is N, neither. E is a missing one and adds nothing.
pub fn update_edges(kind: EdgeKind, word: u32, front: Base, back: Base) -> Result<u32, NoBase>
    ensures { word_answer result ≡ update_call (kind_of kind) word (code_in front) (code_in back) }
{
    match kind {
        EdgeKind::Counted => FOUR_BITS.update(word, front, back),
        EdgeKind::Presence => PRESENCE.update(word, front, back),
    }
}

// Counters answer for every cutoff, presence bits for 1 alone.
pub fn answers_for(kind: EdgeKind, cutoff: u32) -> bool
    ensures { result ≡ answers_for (kind_of kind) cutoff }
{
    match kind {
        EdgeKind::Counted => true,
        EdgeKind::Presence => cutoff == 1,
    }
}

// E for no edge whose count reaches the cutoff, the base for one, N for more. A presence bit counts 0 or 1, whatever
// the cutoff: who asks for another than 1 has been refused before.
pub fn edge_of(kind: EdgeKind, word: u32, side: Side, cutoff: u32) -> Base
    ensures { code_in result ≡ edge_at (kind_of kind) cutoff word side }
{
    match kind {
        EdgeKind::Counted => FOUR_BITS.edge_at(word, side, cutoff),
        EdgeKind::Presence => PRESENCE.edge_at(word, side, cutoff),
    }
}
