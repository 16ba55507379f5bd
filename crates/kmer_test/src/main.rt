// Prints what the calls on k-mers answer at the edges of K and of the two words. The file `stdout` beside this holds
// what oracle/kmer_test.py computes for the same questions with whole numbers.
#![tactic(auto)]

use dna::Base;
use kmer::{Kmer, KmerError};
use std::io;

fn error(rt: &impl Print, e: KmerError) -> io::Result<()> {
    match e {
        KmerError::UnsupportedK(k) => print!(rt; " R 1 {k}"),
        KmerError::TooShort(n) => print!(rt; " R 2 {n}"),
        KmerError::InvalidBase { place, byte } => print!(rt; " R 3 {place} {byte}"),
        KmerError::NoRoom => print!(rt; " R 9"),
        KmerError::OutOfRange => print!(rt; " R 10"),
        KmerError::NotBelow => print!(rt; " R 14"),
    }
}

// The high word, then the low word.
fn words(rt: &impl Print, x: Kmer) -> io::Result<()> {
    let [low, high] = x.words();
    print!(rt; " {high:016x}:{low:016x}")
}

// A refusal, and the k-mer: zero beside a refusal.
fn answered(rt: &impl Print, a: Result<Kmer, KmerError>) -> io::Result<()> {
    if let Err(e) = a {
        error(rt, e)?;
    }
    words(rt, a.unwrap_or(Kmer::zero()))
}

fn base(rt: &impl Print, b: Result<Base, KmerError>) -> io::Result<()> {
    match b {
        Ok(b) => rt.write_all(&[b' ', b.to_ascii()]),
        Err(e) => error(rt, e),
    }
}

fn test(rt: &impl Print, t: Result<bool, KmerError>) -> io::Result<()> {
    match t {
        Ok(true) => print!(rt; " yes"),
        Ok(false) => print!(rt; " no"),
        Err(e) => error(rt, e),
    }
}

fn written(rt: &impl Print, a: Result<usize, KmerError>) -> io::Result<()> {
    match a {
        Ok(n) => print!(rt; " {n}"),
        Err(e) => error(rt, e),
    }?;
    print!(rt; " ")
}

// The letters in a slice of 66 dots, and in one that may be too short.
fn letters(rt: &impl Print, k: usize, x: Kmer) -> io::Result<()> {
    let mut room = [b'.'; 66];
    written(rt, x.append_ascii(k, &mut room))?;
    rt.write_all(&room)?;
    let mut short = [b'.'; 32];
    written(rt, x.append_ascii(k, &mut short))?;
    rt.write_all(&short)
}

fn rolls(rt: &impl Print, k: usize, x: Kmer) -> io::Result<()> {
    print!(rt; "\n  forward")?;
    for next in [Base::A, Base::C, Base::G, Base::T, Base::N] {
        answered(rt, x.roll_forward(k, next))?;
    }
    print!(rt; "\n  backward")?;
    for prev in [Base::A, Base::C, Base::G, Base::T, Base::E] {
        answered(rt, x.roll_backward(k, prev))?;
    }
    Ok(())
}

fn places(rt: &impl Print, k: usize, x: Kmer) -> io::Result<()> {
    print!(rt; "\n  places")?;
    base(rt, x.front(k))?;
    base(rt, x.get(k, k / 2))?;
    base(rt, x.back(k))?;
    base(rt, x.get(k, k))
}

// All that is asked of one k-mer.
fn kmer_lines(rt: &impl Print, k: usize, x: Kmer) -> io::Result<()> {
    words(rt, x)?;
    print!(rt; "\n  letters")?;
    letters(rt, k, x)?;
    print!(rt; "\n  turned")?;
    answered(rt, x.reverse_complement(k))?;
    answered(rt, x.canonical(k))?;
    test(rt, x.is_canonical(k))?;
    rolls(rt, k, x)?;
    places(rt, k, x)?;
    println!(rt;)
}

fn from_text(rt: &impl Print, k: usize, s: &[u8]) -> io::Result<()> {
    print!(rt; "text {k}")?;
    let a = Kmer::from_ascii(k, s);
    answered(rt, a)?;
    kmer_lines(rt, k, a.unwrap_or(Kmer::zero()))
}

fn from_words(rt: &impl Print, k: usize, low: u64, high: u64) -> io::Result<()> {
    print!(rt; "words {k}")?;
    answered(rt, Kmer::from_words(k, low, high))?;
    let words = [low, high];
    kmer_lines(rt, k, Kmer { words })
}

// A k-mer against the number that fills the low word, either way round, against itself, and zero against it.
fn compare(rt: &impl Print, k: usize, low: u64, high: u64) -> io::Result<()> {
    let words = [low, high];
    let x = Kmer { words };
    let top = [0xffff_ffff_ffff_ffff, 0];
    let border = Kmer { words: top };
    print!(rt; "less {k}")?;
    test(rt, x.less(k, border))?;
    test(rt, border.less(k, x))?;
    test(rt, x.less(k, x))?;
    test(rt, Kmer::zero().less(k, x))?;
    println!(rt;)
}

// Some longer than the largest K, one with bad letters, one shorter.
const TEXTS: [&[u8]; 7] = [
    b"AAAAAAAAAAAAAAAAAAAAAAAAAAAAAAAAAAAAAAAAAAAAAAAAAAAAAAAAAAAAAAAA",
    b"TTTTTTTTTTTTTTTTTTTTTTTTTTTTTTTTTTTTTTTTTTTTTTTTTTTTTTTTTTTTTTTT",
    b"ATATATATATATATATATATATATATATATATATATATATATATATATATATATATATATATAT",
    b"ACGTACGTACGTACGTACGTACGTACGTACGTACGTACGTACGTACGTACGTACGTACGTACGT",
    b"gattacaUCGGCTAAGTCCATTGACGTTACCGGATATCGCAATGCTTGGACCTTAAGCGCTATGACC",
    b"ACGTACGTACGTACGTACGTACGTACGTACGNACGTACGTACGTACGTACGTACGTACGTACNT",
    b"TGCATGCATGCATGCATGCATGCATGCATG",
];

// Each side of the borders, of the low word and of 4 to the K: low words and high words.
const BORDERS: [(u64, u64); 11] = [
    (3, 0),
    (4, 0),
    (0x3fff_ffff_ffff_ffff, 0),
    (0x4000_0000_0000_0000, 0),
    (0x8000_0000_0000_0000, 0),
    (0xffff_ffff_ffff_ffff, 0),
    (0, 1),
    (0, 3),
    (0, 4),
    (0xffff_ffff_ffff_ffff, 0x3fff_ffff_ffff_ffff),
    (0, 0x4000_0000_0000_0000),
];

fn edges(rt: &impl Print, k: usize) -> io::Result<()> {
    for text in TEXTS {
        from_text(rt, k, text)?;
    }
    for (low, high) in BORDERS {
        from_words(rt, k, low, high)?;
    }
    for (low, high) in [
        (0, 1),
        (0x8000_0000_0000_0000, 0),
        (0xffff_ffff_ffff_fffe, 3),
    ] {
        compare(rt, k, low, high)?;
    }
    Ok(())
}

// A K that is refused.
fn outside(rt: &impl Print, k: usize) -> io::Result<()> {
    from_text(rt, k, b"ACGN")?;
    from_words(rt, k, 0, 0x4000_0000_0000_0000)?;
    compare(rt, k, 0, 1)
}

fn main(rt: HostRuntime) -> io::Result<()> {
    outside(&rt, 0)?;
    outside(&rt, 64)?;
    for k in [1, 2, 31, 32, 33, 62, 63] {
        edges(&rt, k)?;
    }
    Ok(())
}
