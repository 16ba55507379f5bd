// The table as lent: keys, two words for each vertex, low word first, in ascending order, and counts, a word for each.
#![tactic(auto)]

ghost use Rattle.std.specs.Prelude.{◌≡◌};
ghost use Rattle.graph.specs.Table.{capacity as room};

mod fitting;
mod joining;
mod search;
mod words;

pub use fitting::fit;
pub use joining::join;
pub use search::{find, find_between};

// Why a table is not taken: it is not fit, or its K is not supported.
#[derive(Clone, Copy, PartialEq, Eq, Debug)]
pub enum FitError {
    Unfit,
    UnsupportedK(usize),
}

// Why nothing is put in: no room for so many; or there are fewer new ones than said, or places that fall or are past
// the end.
#[derive(Clone, Copy, PartialEq, Eq, Debug)]
pub enum JoinError {
    Full,
    Misplaced,
}

// How many vertices the slices have room for.
pub fn capacity(keys: &[u64], counts: &[u32]) -> usize
    ensures { result ≡ room keys.now counts.now }
{
    (keys.len() / 2).min(counts.len()).min(65536)
}
