// The counters of a vertex's edges.
ghost use Rattle.std.specs.Prelude.{◌≡◌};
ghost use Rattle.dna.specs.Calls.{code_in};
ghost use Rattle.state.specs.Counted.{four_bits, edge_at, edge_count, is_branching, is_empty, is_isolated};
ghost use Rattle.state.specs.Counted.{frequency_call, add_edge_call, update_call};
ghost use Rattle.state.specs.Says.{counting_answer, frequency_answer};

use super::{EdgeFrequency, FOUR_BITS, NoBase, Side, packing};
use dna::Base;

impl EdgeFrequency {
    // One edge counted; N and E are refused.
    pub fn add_edge(self, side: Side, edge: Base) -> Result<EdgeFrequency, NoBase>
        ensures { counting_answer result ≡ add_edge_call four_bits self.packed side (code_in edge) }
    {
        let packed = FOUR_BITS.add_edge(self.packed, side, edge)?;
        Ok(EdgeFrequency { packed })
    }

    // Both neighbours counted; where one of them is N, neither. E is a missing one and adds nothing.
    pub fn update_edges(self, front: Base, back: Base) -> Result<EdgeFrequency, NoBase>
        ensures { counting_answer result ≡ update_call four_bits self.packed (code_in front) (code_in back) }
    {
        let packed = FOUR_BITS.update(self.packed, front, back)?;
        Ok(EdgeFrequency { packed })
    }

    // How many edges a side retains: those counted at least cutoff times.
    pub fn edge_count(self, side: Side, cutoff: u32) -> u32
        ensures { result ≡ edge_count four_bits cutoff self.packed side }
    {
        FOUR_BITS.tally(self.packed, side, cutoff).edges
    }

    // E for no retained edge, the base for one, N for more.
    pub fn edge_at(self, side: Side, cutoff: u32) -> Base
        ensures { code_in result ≡ edge_at four_bits cutoff self.packed side }
    {
        FOUR_BITS.edge_at(self.packed, side, cutoff)
    }

    // How often a base was counted on a side; bits above 3 are refused.
    pub fn frequency(self, side: Side, base_bits: u32) -> Result<u32, NoBase>
        ensures { frequency_answer result ≡ frequency_call four_bits self.packed side base_bits }
    {
        if base_bits > 3 {
            return Err(NoBase);
        }
        Ok(FOUR_BITS.read(self.packed, packing::slot(side, base_bits)))
    }

    pub fn is_branching_side(self, side: Side, cutoff: u32) -> bool
        ensures { result ≡ is_branching four_bits cutoff self.packed side }
    {
        self.edge_count(side, cutoff) > 1
    }

    pub fn is_empty_side(self, side: Side, cutoff: u32) -> bool
        ensures { result ≡ is_empty four_bits cutoff self.packed side }
    {
        self.edge_count(side, cutoff) == 0
    }

    pub fn is_isolated(self, cutoff: u32) -> bool
        ensures { result ≡ is_isolated four_bits cutoff self.packed }
    {
        self.is_empty_side(Side::Front, cutoff) && self.is_empty_side(Side::Back, cutoff)
    }
}
