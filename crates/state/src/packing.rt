// Eight counters in a word, of any width and from any bit on: one code for every kind.
ghost use Rattle.std.specs.Prelude.{◌≡◌, ◌+◌, ◌*◌, ◌<◌, leb};
ghost use Rattle.dna.specs.Calls.{code_in};
ghost use Rattle.state.specs.Counted.{slot_of, count, raise, edge_at, add_edge_call, update_call};
ghost use Rattle.state.specs.Parts.{kind_in, neighbour_call, Tallied};
ghost use Rattle.state.specs.Says.{word_answer};

use super::{Layout, NoBase, Side, Tally};
use dna::Base;

// The number of a counter, from 0 to 7.
pub(crate) fn slot(side: Side, bits: u32) -> u32
    requires { bits < 4 }
    ensures { (result ≡ slot_of side bits) × (result < 8) }
{
    match side {
        Side::Front => bits,
        Side::Back => 4 + bits,
    }
}

impl Layout {
    // The bit at which a counter starts.
    fn place(self, slot: u32) -> u32
        requires { slot < 8 }
        ensures { (result ≡ self.first + self.width * slot) × (result < 32) }
    {
        self.first + self.width * slot
    }

    // The count of a counter.
    pub(crate) fn read(self, word: u32, slot: u32) -> u32
        requires { slot < 8 }
        ensures { result ≡ count (kind_in self) word slot }
    {
        (word >> self.place(slot)) & self.top
    }

    // A counter one higher, unless it stands at its top.
    fn raised(self, word: u32, slot: u32) -> u32
        requires { slot < 8 }
        ensures { result ≡ raise (kind_in self) word slot }
    {
        let off = self.place(slot);
        let mask = self.top << off;
        let cur = (word & mask) >> off;
        if cur < self.top {
            return (word & !mask) | ((cur + 1) << off);
        }
        word
    }

    // One edge counted; N and E are refused.
    pub(crate) fn add_edge(self, word: u32, side: Side, edge: Base) -> Result<u32, NoBase>
        ensures { word_answer result ≡ add_edge_call (kind_in self) word side (code_in edge) }
    {
        let bits = u32::from(edge.bits());
        if bits > 3 {
            return Err(NoBase);
        }
        Ok(self.raised(word, slot(side, bits)))
    }

    // A neighbour counted on its side; a missing one, which is E, adds nothing, and N is refused.
    fn with_neighbour(self, word: u32, side: Side, edge: Base) -> Result<u32, NoBase>
        ensures { word_answer result ≡ neighbour_call (kind_in self) word side (code_in edge) }
    {
        match edge {
            Base::E => Ok(word),
            _ => self.add_edge(word, side, edge),
        }
    }

    // Both neighbours counted; where one of them is N, neither.
    pub(crate) fn update(self, word: u32, front: Base, back: Base) -> Result<u32, NoBase>
        ensures { word_answer result ≡ update_call (kind_in self) word (code_in front) (code_in back) }
    {
        let now = self.with_neighbour(word, Side::Front, front)?;
        self.with_neighbour(now, Side::Back, back)
    }

    // Whether a side retains a base's edge.
    fn retains(self, word: u32, side: Side, bits: u32, cutoff: u32) -> bool
        requires { bits < 4 }
        ensures { result ≡ leb cutoff (count (kind_in self) word (slot_of side bits)) }
    {
        cutoff <= self.read(word, slot(side, bits))
    }

    pub(crate) fn tally(self, word: u32, side: Side, cutoff: u32) -> Tally
        ensures { Tallied (kind_in self) cutoff word side result.edges result.codes }
    {
        let mut tally = Tally { edges: 0, codes: 0 };
        for bits in 0..4 {
            if self.retains(word, side, bits, cutoff) {
                tally.edges += 1;
                tally.codes += bits;
            }
        }
        tally
    }

    // E for no retained edge, the base for one, N for more.
    pub(crate) fn edge_at(self, word: u32, side: Side, cutoff: u32) -> Base
        ensures { code_in result ≡ edge_at (kind_in self) cutoff word side }
    {
        let tally = self.tally(word, side, cutoff);
        match tally.edges {
            0 => Base::E,
            1 => Base::from_bits(tally.codes as u8),
            _ => Base::N,
        }
    }
}
