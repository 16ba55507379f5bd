// Adds labels to tables of each kind, in each mode. Prints what each call answers and then every cell of the lent
// slices, those past the table too. The file `stdout` beside this is written by oracle/adding_test.py, from the rules
// of document 01 and of Q-1 and Q-3 alone.
#![tactic(auto)]

use adding::{AddError, Addition, Mode};
use state::EdgeKind;
use std::io;

// What stands in a cell that nothing was stored in.
const FREE_KEY: u64 = 0xeeeeeeeeeeeeeeee;

const FREE_COUNT: u32 = 0xdddddddd;

// A label, or the length of one that is too long to be read.
fn name(rt: &impl Print, label: &[u8]) -> io::Result<()> {
    if label.len() < 100 {
        print!(rt; " ")?;
        rt.write_all(label)
    } else {
        print!(rt; " {}", label.len())
    }
}

fn show_answer(rt: &impl Print, answer: Result<Addition, AddError>) -> io::Result<()> {
    match answer {
        Ok(Addition { edges, stored }) => println!(rt; ": edges {edges} stored {stored}"),
        Err(AddError::UnsupportedK(k)) => println!(rt; ": R1 {k}"),
        Err(AddError::InvalidBase { place, byte }) => println!(rt; ": R3 {place} {byte}"),
        Err(AddError::TooLong(length)) => println!(rt; ": R4 {length}"),
        Err(AddError::Unfit) => println!(rt; ": R5"),
        Err(AddError::Full) => println!(rt; ": R6"),
    }
}

// Answers the number stored afterwards.
fn add(
    rt: &impl Print,
    kind: EdgeKind,
    mode: Mode,
    k: usize,
    n: usize,
    keys: &mut [u64],
    counts: &mut [u32],
    label: &[u8],
) -> io::Result<usize> {
    print!(rt; "K {k}")?;
    name(rt, label)?;
    let answer = adding::add_label(kind, mode, k, n, keys, counts, label);
    show_answer(rt, answer)?;
    Ok(answer.map_or(n, |added| added.stored))
}

fn show_keys(rt: &impl Print, keys: &[u64]) -> io::Result<()> {
    print!(rt; "keys")?;
    for key in keys {
        print!(rt; " {key:016x}")?;
    }
    println!(rt;)
}

fn show_counts(rt: &impl Print, counts: &[u32]) -> io::Result<()> {
    print!(rt; "counts")?;
    for count in counts {
        print!(rt; " {count:08x}")?;
    }
    println!(rt;)
}

fn show(rt: &impl Print, keys: &[u64], counts: &[u32]) -> io::Result<()> {
    show_keys(rt, keys)?;
    show_counts(rt, counts)
}

// Three labels added to a table with room for twelve vertices.
fn three(
    rt: &impl Print,
    kind: EdgeKind,
    mode: Mode,
    k: usize,
    first: &[u8],
    second: &[u8],
    third: &[u8],
) -> io::Result<()> {
    let mut keys = [FREE_KEY; 24];
    let mut counts = [FREE_COUNT; 12];
    let a = add(rt, kind, mode, k, 0, &mut keys, &mut counts, first)?;
    let b = add(rt, kind, mode, k, a, &mut keys, &mut counts, second)?;
    add(rt, kind, mode, k, b, &mut keys, &mut counts, third)?;
    show(rt, &keys, &counts)
}

// Two labels added where the keys have room for two vertices, with a word left over, and the counts for three.
fn few(
    rt: &impl Print,
    kind: EdgeKind,
    mode: Mode,
    k: usize,
    first: &[u8],
    second: &[u8],
) -> io::Result<()> {
    let mut keys = [FREE_KEY; 5];
    let mut counts = [FREE_COUNT; 3];
    let a = add(rt, kind, mode, k, 0, &mut keys, &mut counts, first)?;
    add(rt, kind, mode, k, a, &mut keys, &mut counts, second)?;
    show(rt, &keys, &counts)
}

// One label added many times: counts reach their top, and a bit stays.
fn often(
    rt: &impl Print,
    kind: EdgeKind,
    mode: Mode,
    k: usize,
    label: &[u8],
    times: usize,
) -> io::Result<()> {
    let mut keys = [FREE_KEY; 8];
    let mut counts = [FREE_COUNT; 4];
    let mut n = 0;
    for _ in 0..times {
        n = add(rt, kind, mode, k, n, &mut keys, &mut counts, label)?;
    }
    show(rt, &keys, &counts)
}

// A label added to a table of two vertices made by hand, their keys and their words, which may be unfit.
fn by_words(
    rt: &impl Print,
    kind: EdgeKind,
    mode: Mode,
    k: usize,
    n: usize,
    first: u64,
    second: u64,
    first_word: u32,
    second_word: u32,
    label: &[u8],
) -> io::Result<()> {
    let mut keys = [first, 0, second, 0, FREE_KEY, FREE_KEY];
    let mut counts = [first_word, second_word, FREE_COUNT];
    add(rt, kind, mode, k, n, &mut keys, &mut counts, label)?;
    show(rt, &keys, &counts)
}

// The same with words that are fit for the kind.
fn by_hand(
    rt: &impl Print,
    kind: EdgeKind,
    mode: Mode,
    k: usize,
    n: usize,
    first: u64,
    second: u64,
    label: &[u8],
) -> io::Result<()> {
    match kind {
        EdgeKind::Counted => by_words(rt, kind, mode, k, n, first, second, 1, 2, label),
        EdgeKind::Presence => by_words(rt, kind, mode, k, n, first, second, 0x8, 0x410, label),
    }
}

// One label, and then two empty ones.
fn one(rt: &impl Print, kind: EdgeKind, mode: Mode, k: usize, label: &[u8]) -> io::Result<()> {
    three(rt, kind, mode, k, label, b"", b"")
}

// Document 01's examples.
fn examples(rt: &impl Print, kind: EdgeKind, mode: Mode) -> io::Result<()> {
    one(rt, kind, mode, 3, b"ACCCC")?;
    one(rt, kind, mode, 3, b"GGGGT")?;
    often(rt, kind, mode, 3, b"ACGG", 16)?;
    one(rt, kind, mode, 3, b"ACCN")?;
    one(rt, kind, mode, 3, b"AN")?;
    one(rt, kind, mode, 1, b"AT")
}

fn no_ks(rt: &impl Print, kind: EdgeKind, mode: Mode) -> io::Result<()> {
    three(rt, kind, mode, 0, b"ACGT", b"", b"N")?;
    three(rt, kind, mode, 64, b"ACGT", b"", b"N")
}

fn ones_and_twos(rt: &impl Print, kind: EdgeKind, mode: Mode) -> io::Result<()> {
    three(rt, kind, mode, 1, b"ACGTTGCA", b"NA", b"acgu")?;
    three(rt, kind, mode, 2, b"CAT", b"ATG", b"AAAA")?;
    three(rt, kind, mode, 2, b"ATATAT", b"CGCG", b"GC")
}

fn threes_and_fours(rt: &impl Print, kind: EdgeKind, mode: Mode) -> io::Result<()> {
    three(rt, kind, mode, 3, b"ATCATC", b"GATGAT", b"ATATATA")?;
    three(rt, kind, mode, 3, b"CAAAA", b"TTTTG", b"UuTtacGg")?;
    three(rt, kind, mode, 3, b"ACGTACGTAAGGCC", b"TTTAGATTACA", b"ACG")?;
    three(rt, kind, mode, 4, b"ACGTACGT", b"AACCGGTTR", b"CCCCC")
}

fn one_word(rt: &impl Print, kind: EdgeKind, mode: Mode) -> io::Result<()> {
    three(
        rt,
        kind,
        mode,
        31,
        b"ACGTTGCAACGTACCAGTTGACCATGACCATGAC",
        b"GTCATGGTCATGGTCAACTGGTACGTTGCAACGT",
        b"TTTTTTTTTTTTTTTTTTTTTTTTTTTTTTTTTT",
    )?;
    three(
        rt,
        kind,
        mode,
        32,
        b"ACGTTGCAACGTACCAGTTGACCATGACCATGACA",
        b"ACGTACGTACGTACGTACGTACGTACGTACGTACG",
        b"GTCATGGTCATGGTCAACTGGTACGTTGCAACGT",
    )
}

fn two_words(rt: &impl Print, kind: EdgeKind, mode: Mode) -> io::Result<()> {
    three(
        rt,
        kind,
        mode,
        33,
        b"ACGTTGCAACGTACCAGTTGACCATGACCATGACAG",
        b"AAAAAAAAAAAAAAAAAAAAAAAAAAAAAAAAA",
        b"CTGTCATGGTCATGGTCAACTGGTACGTTGCAACGT",
    )?;
    three(
        rt,
        kind,
        mode,
        63,
        b"ACGTTGCAACGTACCAGTTGACCATGACCATGACAGACGTTGCAACGTACCAGTTGACCATGACC",
        b"TTTTTTTTTTTTTTTTTTTTTTTTTTTTTTTTTTTTTTTTTTTTTTTTTTTTTTTTTTTTTTTTTA",
        b"GGTCATGGTCAACTGGTACGTTGCAACGTCTGTCATGGTCATGGTCAACTGGTACGTTGCAACGT",
    )
}

fn little_room(rt: &impl Print, kind: EdgeKind, mode: Mode) -> io::Result<()> {
    few(rt, kind, mode, 2, b"ACC", b"ACCG")?;
    few(rt, kind, mode, 3, b"AACTT", b"AAC")?;
    few(rt, kind, mode, 3, b"ACGG", b"TTT")
}

fn fit_tables(rt: &impl Print, kind: EdgeKind, mode: Mode) -> io::Result<()> {
    by_hand(rt, kind, mode, 3, 0, 5, 3, b"ACG")?;
    by_hand(rt, kind, mode, 3, 1, 5, 3, b"ACG")?;
    by_hand(rt, kind, mode, 3, 2, 3, 5, b"AAT")?;
    by_hand(rt, kind, mode, 3, 2, 3, 5, b"ACC")
}

fn unfit_tables(rt: &impl Print, kind: EdgeKind, mode: Mode) -> io::Result<()> {
    by_hand(rt, kind, mode, 3, 2, 5, 3, b"ACG")?;
    by_hand(rt, kind, mode, 3, 2, 5, 5, b"ACG")?;
    by_hand(rt, kind, mode, 3, 1, 63, 0, b"ACG")?;
    by_hand(rt, kind, mode, 3, 1, 64, 0, b"ACG")?;
    by_hand(rt, kind, mode, 3, 4, 3, 5, b"ACG")
}

fn other_tables(rt: &impl Print, kind: EdgeKind, mode: Mode) -> io::Result<()> {
    by_hand(rt, kind, mode, 0, 2, 5, 3, b"ACG")?;
    by_hand(rt, kind, mode, 3, 2, 5, 3, b"")?;
    by_hand(rt, kind, mode, 3, 2, 3, 5, b"N")
}

fn long(rt: &impl Print, kind: EdgeKind, mode: Mode) -> io::Result<()> {
    let longest = [b'A'; 4096];
    let longer = [b'N'; 4097];
    three(rt, kind, mode, 5, &longest, b"AAAAA", &longer)?;
    by_hand(rt, kind, mode, 3, 2, 5, 3, &longer)
}

fn all(rt: &impl Print, kind: EdgeKind, mode: Mode) -> io::Result<()> {
    examples(rt, kind, mode)?;
    no_ks(rt, kind, mode)?;
    ones_and_twos(rt, kind, mode)?;
    threes_and_fours(rt, kind, mode)?;
    one_word(rt, kind, mode)?;
    two_words(rt, kind, mode)?;
    little_room(rt, kind, mode)?;
    fit_tables(rt, kind, mode)?;
    unfit_tables(rt, kind, mode)?;
    other_tables(rt, kind, mode)?;
    long(rt, kind, mode)
}

// A label added to AAT and ACC with these presence bits.
fn bits(
    rt: &impl Print,
    mode: Mode,
    k: usize,
    n: usize,
    aat: u32,
    acc: u32,
    label: &[u8],
) -> io::Result<()> {
    by_words(rt, EdgeKind::Presence, mode, k, n, 3, 5, aat, acc, label)
}

fn full_words(rt: &impl Print, mode: Mode) -> io::Result<()> {
    bits(rt, mode, 3, 2, 0x7f8, 0x7f8, b"AATT")?;
    bits(rt, mode, 3, 2, 0x7f8, 0x7f8, b"ACCG")?;
    bits(rt, mode, 3, 2, 0x7f8, 0, b"CGGT")
}

// A stray bit makes the table unfit.
fn stray_words(rt: &impl Print, mode: Mode) -> io::Result<()> {
    bits(rt, mode, 3, 2, 0x9, 0x8, b"ACG")?;
    bits(rt, mode, 3, 2, 0xa, 0x8, b"ACG")?;
    bits(rt, mode, 3, 2, 0xc, 0x8, b"ACG")?;
    bits(rt, mode, 3, 2, 0x808, 0x8, b"ACG")?;
    bits(rt, mode, 3, 2, 0x80000008, 0x8, b"ACG")?;
    bits(rt, mode, 3, 2, 0xfffff80f, 0x8, b"ACG")?;
    bits(rt, mode, 3, 2, 0x8, 0x409, b"ACC")?;
    bits(rt, mode, 3, 2, 0x8, 0xc08, b"")
}

// Only a wrong K is said before it.
fn stray_and_more(rt: &impl Print, mode: Mode) -> io::Result<()> {
    let longer = [b'N'; 4097];
    bits(rt, mode, 0, 2, 0x8, 0x409, b"ACG")?;
    bits(rt, mode, 3, 2, 0x8, 0x409, b"ACN")?;
    bits(rt, mode, 3, 2, 0x8, 0x409, &longer)
}

// Behind the first n words nobody reads it.
fn stray_behind(rt: &impl Print, mode: Mode) -> io::Result<()> {
    bits(rt, mode, 3, 1, 0x8, 0x409, b"AATT")?;
    bits(rt, mode, 3, 1, 0x8, 0xffffffff, b"ACGG")?;
    bits(rt, mode, 3, 0, 0x9, 0x800, b"ACC")
}

fn present(rt: &impl Print, mode: Mode) -> io::Result<()> {
    all(rt, EdgeKind::Presence, mode)?;
    full_words(rt, mode)?;
    stray_words(rt, mode)?;
    stray_and_more(rt, mode)?;
    stray_behind(rt, mode)
}

fn main(rt: HostRuntime) -> io::Result<()> {
    println!(rt; "mode same canonical")?;
    all(&rt, EdgeKind::Counted, Mode::SameCanonical)?;
    println!(rt; "mode reversed")?;
    all(&rt, EdgeKind::Counted, Mode::Reversed)?;
    println!(rt; "presence bits, mode same canonical")?;
    present(&rt, Mode::SameCanonical)?;
    println!(rt; "presence bits, mode reversed")?;
    present(&rt, Mode::Reversed)
}
