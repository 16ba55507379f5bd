// Contraction: the unitigs of a lent table, written into lent slices.
#![tactic(auto)]

ghost use Rattle.std.specs.Prelude.{◌≡◌};
ghost use Rattle.contraction.specs.Says.{refused_fit};

use graph::Step;
use kmer::Kmer;
use state::Side;
use table::FitError;

mod step;
mod survey;
mod walk;
mod whole;
mod write;

pub use whole::contract;

// The number of labels written, and of their bases.
#[derive(Clone, Copy, PartialEq, Eq, Debug)]
pub struct Unitigs {
    pub labels: usize,
    pub bases: usize,
}

// Why a table was not contracted.
#[derive(Clone, Copy, PartialEq, Eq, Debug)]
pub enum ContractError {
    UnsupportedK(usize),
    Unfit,
    WrongCutoff,
    FewMarks,
    MissingVertex,
    NoRoom,
}

impl From<FitError> for ContractError {
    ghost from_gives = { λ e r. r ≡ refused_fit e };

    fn from(error: FitError) -> ContractError {
        match error {
            FitError::Unfit => ContractError::Unfit,
            FitError::UnsupportedK(k) => ContractError::UnsupportedK(k),
        }
    }
}

// The three bytes of a trail that are no letters. STOPPED stands behind a walk, but behind a Back walk that closed a
// cycle stands CLOSED; SKIPPED stands for a vertex that is no anchor.
const STOPPED: u8 = 0;

const CLOSED: u8 = 1;

const SKIPPED: u8 = 2;

// The keys of a graph as walks look them up: K, two words for each vertex, and a directory of whatever content. That
// they are fit is no ghost field: `Ready` says it of so many keys as there are marks, which are lent apart to be
// written.
#[derive(Clone, Copy)]
struct Graph<'a> {
    k: usize,
    keys: &'a [u64],
    directory: &'a [u32],
}

// Where a walk starts: an anchor, left by a side.
#[derive(Clone, Copy)]
struct Start {
    anchor: usize,
    side: Side,
}

// A walk: how many bases it appends, and the step at which it ends.
#[derive(Clone, Copy)]
struct Walked {
    bases: usize,
    last: Step,
}

// A k-mer as a walk sees it, and its reverse complement.
#[derive(Clone, Copy)]
struct Strands {
    here: Kmer,
    other: Kmer,
}

// Where a walk stands: at a vertex that it is to leave by a side, whose k-mer it sees as its strands say.
#[derive(Clone, Copy)]
struct Stand {
    vertex: usize,
    side: Side,
    strands: Strands,
}

// A label: its length, and where its walks end in the trail.
#[derive(Clone, Copy)]
struct Label {
    bases: usize,
    end: usize,
}
