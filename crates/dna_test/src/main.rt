// Prints what the letters answer: for every byte, for every base, and for many labels. The file `stdout` beside this
// holds what the Rust original answers to the same questions (oracle/).
#![tactic(auto)]

use dna::{Base, NoRoom};
use std::fmt::Display;
use std::io;

fn number(rt: &impl Print, n: impl Display + Drop) -> io::Result<()> {
    print!(rt; " {n}")
}

fn test(rt: &impl Print, t: bool) -> io::Result<()> {
    number(rt, u8::from(t))
}

fn bits(rt: &impl Print, b: Option<u8>) -> io::Result<()> {
    match b {
        Some(x) => number(rt, x),
        None => print!(rt; " -"),
    }
}

fn byte_line(rt: &impl Print, b: u8) -> io::Result<()> {
    print!(rt; "byte {b}")?;
    number(rt, Base::from_ascii(b).bits())?;
    test(rt, dna::is_dna_ascii(b))?;
    number(rt, dna::complement_ascii(b))?;
    bits(rt, dna::ascii_base_bits(b))?;
    number(rt, dna::valid_ascii_base_bits(b))?;
    bits(rt, dna::ascii_complement_bits(b))?;
    println!(rt;)
}

fn base_line(rt: &impl Print, b: Base) -> io::Result<()> {
    print!(rt; "base")?;
    number(rt, b.bits())?;
    number(rt, b.to_ascii())?;
    number(rt, b.complement().bits())?;
    test(rt, b.is_dna())?;
    println!(rt;)
}

// The first n bytes of a text that has them.
fn first(s: &[u8], n: usize) -> &[u8] {
    s.get(..n).unwrap_or(s)
}

fn written(rt: &impl Print, w: Result<usize, NoRoom>, out: &[u8]) -> io::Result<()> {
    print!(rt; " ")?;
    match w {
        Ok(n) => rt.write_all(first(out, n)),
        Err(NoRoom) => print!(rt; "no room"),
    }
}

fn label_line(rt: &impl Print, label: &[u8]) -> io::Result<()> {
    let mut out = [0u8; 40];
    print!(rt; "label ")?;
    rt.write_all(label)?;
    let w = dna::reverse_complement_label(label, &mut out);
    written(rt, w, &out)?;
    number(rt, dna::least_rotation_start(label))?;
    let w = dna::minimal_rotation(label, &mut out);
    written(rt, w, &out)?;
    println!(rt;)
}

// The word of number w among those of five letters A, C, T; its first len letters are a label.
fn word(rt: &impl Print, w: usize, len: usize) -> io::Result<()> {
    let letters = b"ACT";
    let mut label = [0u8; 5];
    let mut rest = w;
    for place in &mut label {
        *place = letters[rest % 3];
        rest /= 3;
    }
    label_line(rt, first(&label, len))
}

// The first words, as labels of this length.
fn words(rt: &impl Print, len: usize, count: usize) -> io::Result<()> {
    for w in 0..count {
        word(rt, w, len)?;
    }
    Ok(())
}

fn bytes(rt: &impl Print) -> io::Result<()> {
    for b in 0..=255 {
        byte_line(rt, b)?;
    }
    Ok(())
}

fn bases(rt: &impl Print) -> io::Result<()> {
    for b in [Base::A, Base::C, Base::G, Base::T, Base::N, Base::E] {
        base_line(rt, b)?;
    }
    Ok(())
}

fn main(rt: HostRuntime) -> io::Result<()> {
    bytes(&rt)?;
    bases(&rt)?;
    for (len, count) in [(0, 1), (1, 3), (2, 9), (3, 27), (4, 81), (5, 243)] {
        words(&rt, len, count)?;
    }
    label_line(&rt, b"acgtuACGTUNRYn-")?;
    label_line(&rt, b"GATTACAGATTACA")?;
    label_line(&rt, b"TTTTTTTTTTTTTTTTTTTTTTTTTTTTTTTTTTTTTTTA")?;
    label_line(&rt, b"CAACAACAACAACAACAACAACAACAACAACAACAACAAC")
}
