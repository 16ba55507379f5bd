// Packed k-mers of up to 63 bases.
#![tactic(auto)]

ghost use Rattle.std.specs.Prelude.{◌≡◌};
ghost use Rattle.kmer.specs.Says.{kmer_of};

mod bases;
mod eights;
mod length;
mod letters;
mod order;
mod pack;
mod quads;
mod reverse;
mod roll;
mod verdict;
mod words;

pub use quads::ASCII_QUADS;

// The bases as a number in base 4, the first most significant, in two words, low word first.
#[derive(Clone, Copy, PartialEq, Eq, Debug)]
pub struct Kmer {
    pub words: [u64; 2],
}

impl Kmer {
    pub fn zero() -> Kmer
        ensures { result ≡ kmer_of 0 }
    {
        Kmer { words: [0, 0] }
    }

    pub fn words(self) -> [u64; 2]
        ensures { result ≡ self.words }
    {
        self.words
    }
}

// Why a call was refused; `refusal` of specs/Says.antt gives each its number.
#[derive(Clone, Copy, PartialEq, Eq, Debug)]
pub enum KmerError {
    UnsupportedK(usize),
    TooShort(usize),
    InvalidBase { place: usize, byte: u8 },
    NoRoom,
    OutOfRange,
    NotBelow,
}
