// The edges of a vertex in one word: counted, or marked as present.
#![tactic(auto)]

ghost use Rattle.std.specs.Prelude.{◌≡◌, ◌+◌, ◌-◌, ◌*◌, ◌^◌, ◌≤◌};
ghost use Rattle.state.specs.Counted.{opposite};

mod counts;
mod either;
mod packing;
mod presence;

pub use either::{answers_for, edge_of, update_edges};

// Side of a canonical k-mer: Front before its first base, Back behind its last.
#[derive(Clone, Copy, PartialEq, Eq, Debug)]
pub enum Side {
    Front,
    Back,
}

// What the words of a table keep of edges: counts, or presence bits.
#[derive(Clone, Copy, PartialEq, Eq, Debug)]
pub enum EdgeKind {
    Counted,
    Presence,
}

// The counters of a vertex's edges: four bits each, A, C, G, T of Front from bit 0 and of Back from bit 16.
#[derive(Clone, Copy, PartialEq, Eq, Debug)]
pub struct EdgeFrequency {
    pub packed: u32,
}

// The presence bits of a vertex's edges: A, C, G, T of Front at bits 3 to 6 and of Back at bits 7 to 10.
#[derive(Clone, Copy, PartialEq, Eq, Debug)]
pub struct EdgePresence {
    pub flags: u32,
}

// A neighbour that is no base where a base is wanted.
#[derive(Clone, Copy, PartialEq, Eq, Debug)]
pub struct NoBase;

// A cutoff for which presence bits do not answer.
#[derive(Clone, Copy, PartialEq, Eq, Debug)]
pub struct WrongCutoff;

// How many bits a counter has, the bit at which the first starts, and the most that one counts: eight counters have
// room in a word of 32 bits, and the top is theirs.
#[derive(Clone, Copy)]
struct Layout {
    width: u32,
    first: u32,
    top: u32,
    ghost some: { 1 ≤ width },
    ghost room: { first + width * 8 ≤ 32 },
    ghost full: { top ≡ 2 ^ width - 1 },
}

// A side's four tests added up: how many bases are retained, and the sum of their codes, which is the base where
// there is one.
#[derive(Clone, Copy)]
struct Tally {
    edges: u32,
    codes: u32,
}

const FOUR_BITS: Layout = Layout {
    width: 4,
    first: 0,
    top: 15,
};

const PRESENCE: Layout = Layout {
    width: 1,
    first: 3,
    top: 1,
};

impl Side {
    pub fn inverse(self) -> Side
        ensures { result ≡ opposite self }
    {
        match self {
            Side::Front => Side::Back,
            Side::Back => Side::Front,
        }
    }
}
