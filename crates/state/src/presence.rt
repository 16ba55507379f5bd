// The presence bits of a vertex's edges. They answer for cutoff 1 alone.
ghost use Rattle.std.specs.Prelude.{◌≡◌};
ghost use Rattle.dna.specs.Calls.{code_in};
ghost use Rattle.state.specs.Counted.{presence, edge_at, edge_count, is_branching, is_empty, is_isolated};
ghost use Rattle.state.specs.Counted.{add_edge_call, update_call, at_cutoff};
ghost use Rattle.state.specs.Says.{marking_answer, edge_answer, number_answer, test_answer};

use super::{EdgePresence, NoBase, PRESENCE, Side, WrongCutoff};
use dna::Base;

impl EdgePresence {
    // One edge marked; N and E are refused.
    pub fn add_edge(self, side: Side, edge: Base) -> Result<EdgePresence, NoBase>
        ensures { marking_answer result ≡ add_edge_call presence self.flags side (code_in edge) }
    {
        let flags = PRESENCE.add_edge(self.flags, side, edge)?;
        Ok(EdgePresence { flags })
    }

    // Both neighbours marked; where one of them is N, neither. E is a missing one and adds nothing.
    pub fn update_edges(self, front: Base, back: Base) -> Result<EdgePresence, NoBase>
        ensures { marking_answer result ≡ update_call presence self.flags (code_in front) (code_in back) }
    {
        let flags = PRESENCE.update(self.flags, front, back)?;
        Ok(EdgePresence { flags })
    }

    // How many edges a side has.
    pub fn edge_count(self, side: Side, cutoff: u32) -> Result<u32, WrongCutoff>
        ensures { number_answer result ≡ at_cutoff presence cutoff (edge_count presence cutoff self.flags side) }
    {
        if cutoff != 1 {
            return Err(WrongCutoff);
        }
        Ok(PRESENCE.tally(self.flags, side, cutoff).edges)
    }

    // E for no edge, the base for one, N for more.
    pub fn edge_at(self, side: Side, cutoff: u32) -> Result<Base, WrongCutoff>
        ensures { edge_answer result ≡ at_cutoff presence cutoff (edge_at presence cutoff self.flags side) }
    {
        if cutoff != 1 {
            return Err(WrongCutoff);
        }
        Ok(PRESENCE.edge_at(self.flags, side, cutoff))
    }

    pub fn is_branching_side(self, side: Side, cutoff: u32) -> Result<bool, WrongCutoff>
        ensures { test_answer result ≡ at_cutoff presence cutoff (is_branching presence cutoff self.flags side) }
    {
        Ok(self.edge_count(side, cutoff)? > 1)
    }

    pub fn is_empty_side(self, side: Side, cutoff: u32) -> Result<bool, WrongCutoff>
        ensures { test_answer result ≡ at_cutoff presence cutoff (is_empty presence cutoff self.flags side) }
    {
        Ok(self.edge_count(side, cutoff)? == 0)
    }

    pub fn is_isolated(self, cutoff: u32) -> Result<bool, WrongCutoff>
        ensures { test_answer result ≡ at_cutoff presence cutoff (is_isolated presence cutoff self.flags) }
    {
        Ok(self.is_empty_side(Side::Front, cutoff)? && self.is_empty_side(Side::Back, cutoff)?)
    }
}
