// A list of labels, as FASTA, judged against a lent table.
#![tactic(auto)]

ghost use Rattle.std.specs.Prelude.{◌≡◌};
ghost use Rattle.judging.specs.Answers.{refused_fit};

use kmer::Kmer;
use table::FitError;

mod ending;
mod joining;
mod judgement;
mod order;
mod places;
mod seeing;
mod standing;

pub use judgement::judge;

// The first broken rule, from 1, and the lowest label concerned, from 0. The rule stays a number: the figure of the C
// interface and the program say it by that number.
#[derive(Clone, Copy, PartialEq, Eq, Debug)]
pub struct Broken {
    pub rule: u8,
    pub label: usize,
}

// Why a list was not judged.
#[derive(Clone, Copy, PartialEq, Eq, Debug)]
pub enum JudgeError {
    UnsupportedK(usize),
    Unfit,
    WrongCutoff,
    FewMarks,
    EvenK,
    NoList,
}

impl From<FitError> for JudgeError {
    ghost from_gives = { λ e r. r ≡ refused_fit e };

    fn from(e: FitError) -> JudgeError {
        match e {
            FitError::UnsupportedK(k) => JudgeError::UnsupportedK(k),
            FitError::Unfit => JudgeError::Unfit,
        }
    }
}

// The keys of a graph as they are looked up: K, two words for each vertex, and a directory of whatever content.
#[derive(Clone, Copy)]
struct Graph<'a> {
    k: usize,
    keys: &'a [u64],
    directory: &'a [u32],
}

// Where a label stands in a text.
#[derive(Clone, Copy)]
struct Span {
    start: usize,
    end: usize,
}

// What is found of a k-mer or of a label: one that may not stand or stands again, else a bad step, else nothing.
#[derive(Clone, Copy, PartialEq, Eq, Debug)]
enum Tested {
    Misplaced,
    BadStep,
    Fine,
}

// How many labels there are, whose k-mers all stand where they may, and the first of them with a bad step, if one has
// any.
#[derive(Clone, Copy, PartialEq, Eq, Debug)]
struct AllPlaced {
    labels: usize,
    bad: Option<usize>,
}

// A k-mer as it stands, its reverse complement, and its vertex's mark; that of no edge where it is not stored.
#[derive(Clone, Copy)]
struct Seen {
    here: Kmer,
    other: Kmer,
    mark: u8,
}
