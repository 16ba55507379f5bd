// Prints what the counters answer: each raised 0, 1, 15 and 16 times beside others that are empty, at 2 and full, and
// every edge and pair of neighbours added to one word. Then what presence bits answer: in each of their 256 words and
// in some with stray bits, and every edge and pair of neighbours added to some words. The file `stdout` beside this
// holds what the Rust original answers to the same questions (oracle/).
#![tactic(auto)]

use dna::Base;
use state::{EdgeFrequency, EdgePresence, NoBase, Side};
use std::io;

// A vertex's edges in one word, of either kind.
trait Edges: Copy {
    fn add(self, side: Side, edge: Base) -> Result<u32, NoBase>;

    fn update(self, front: Base, back: Base) -> Result<u32, NoBase>;
}

impl Edges for EdgeFrequency {
    fn add(self, side: Side, edge: Base) -> Result<u32, NoBase> {
        Ok(self.add_edge(side, edge)?.packed)
    }

    fn update(self, front: Base, back: Base) -> Result<u32, NoBase> {
        Ok(self.update_edges(front, back)?.packed)
    }
}

impl Edges for EdgePresence {
    fn add(self, side: Side, edge: Base) -> Result<u32, NoBase> {
        Ok(self.add_edge(side, edge)?.flags)
    }

    fn update(self, front: Base, back: Base) -> Result<u32, NoBase> {
        Ok(self.update_edges(front, back)?.flags)
    }
}

fn number(rt: &impl Print, n: u32) -> io::Result<()> {
    print!(rt; " {n}")
}

// A number, or the number of the refusal.
fn answer<E: Drop>(rt: &impl Print, answer: Result<u32, E>, refusal: u32) -> io::Result<()> {
    match answer {
        Ok(n) => number(rt, n),
        Err(_) => print!(rt; " R{refusal}"),
    }
}

fn word(rt: &impl Print, answer: Result<u32, NoBase>) -> io::Result<()> {
    match answer {
        Ok(word) => println!(rt; " {word:08x}"),
        Err(NoBase) => println!(rt; " R10"),
    }
}

fn side(number: u8) -> Side {
    if number == 0 { Side::Front } else { Side::Back }
}

fn ask_side(rt: &impl Print, edges: EdgeFrequency, side: Side, cutoff: u32) -> io::Result<()> {
    number(rt, edges.edge_count(side, cutoff))?;
    number(rt, u32::from(edges.edge_at(side, cutoff).bits()))?;
    number(rt, u32::from(edges.is_branching_side(side, cutoff)))?;
    number(rt, u32::from(edges.is_empty_side(side, cutoff)))
}

fn ask(rt: &impl Print, edges: EdgeFrequency, cutoff: u32) -> io::Result<()> {
    print!(rt; "cutoff {cutoff}")?;
    ask_side(rt, edges, Side::Front, cutoff)?;
    ask_side(rt, edges, Side::Front.inverse(), cutoff)?;
    number(rt, u32::from(edges.is_isolated(cutoff)))?;
    println!(rt;)
}

fn frequencies(rt: &impl Print, edges: EdgeFrequency, side: Side) -> io::Result<()> {
    for base_bits in 0..4 {
        answer(rt, edges.frequency(side, base_bits), 10)?;
    }
    Ok(())
}

fn show(rt: &impl Print, edges: EdgeFrequency) -> io::Result<()> {
    let packed = edges.packed;
    print!(rt; "word {packed:08x}")?;
    frequencies(rt, edges, Side::Front)?;
    frequencies(rt, edges, Side::Back)?;
    println!(rt;)?;
    for cutoff in [0, 1, 2, 15, 16, 0xffff_ffff] {
        ask(rt, edges, cutoff)?;
    }
    Ok(())
}

// A slot's base is one of A, C, G and T, so that the edge is never refused.
fn raised_times(word: u32, slot: u8, times: u32) -> u32 {
    let mut edges = EdgeFrequency { packed: word };
    for _ in 0..times {
        edges = edges
            .add_edge(side(slot / 4), Base::from_bits(slot % 4))
            .unwrap_or(edges);
    }
    edges.packed
}

// A word in which counter slot is raised n times and each other one as often as others says.
fn raised(slot: u8, n: u32, others: u32) -> EdgeFrequency {
    let mut packed = 0;
    for counter in 0..8 {
        let times = if counter == slot { n } else { others };
        packed = raised_times(packed, counter, times);
    }
    EdgeFrequency { packed }
}

fn limits(rt: &impl Print, others: u32) -> io::Result<()> {
    for n in [0, 1, 15, 16] {
        for slot in 0..8 {
            show(rt, raised(slot, n, others))?;
        }
    }
    Ok(())
}

fn adds<T: Edges>(rt: &impl Print, edges: T, to: u8) -> io::Result<()> {
    for code in 0..6 {
        print!(rt; "add {to} {code}")?;
        word(rt, edges.add(side(to), Base::from_bits(code)))?;
    }
    Ok(())
}

fn updates<T: Edges>(rt: &impl Print, edges: T, front: u8) -> io::Result<()> {
    for back in 0..6 {
        print!(rt; "update {front} {back}")?;
        word(
            rt,
            edges.update(Base::from_bits(front), Base::from_bits(back)),
        )?;
    }
    Ok(())
}

// Every edge and every pair of neighbours.
fn add_all<T: Edges>(rt: &impl Print, edges: T) -> io::Result<()> {
    adds(rt, edges, 0)?;
    adds(rt, edges, 1)?;
    for front in 0..6 {
        updates(rt, edges, front)?;
    }
    Ok(())
}

fn ask_present_side(
    rt: &impl Print,
    present: EdgePresence,
    side: Side,
    cutoff: u32,
) -> io::Result<()> {
    answer(rt, present.edge_count(side, cutoff), 15)?;
    answer(
        rt,
        present.edge_at(side, cutoff).map(|b| u32::from(b.bits())),
        15,
    )?;
    answer(
        rt,
        present.is_branching_side(side, cutoff).map(u32::from),
        15,
    )?;
    answer(rt, present.is_empty_side(side, cutoff).map(u32::from), 15)
}

fn ask_present(rt: &impl Print, present: EdgePresence, cutoff: u32) -> io::Result<()> {
    print!(rt; "cutoff {cutoff}")?;
    ask_present_side(rt, present, Side::Front, cutoff)?;
    ask_present_side(rt, present, Side::Back, cutoff)?;
    answer(rt, present.is_isolated(cutoff).map(u32::from), 15)?;
    println!(rt;)
}

fn show_present(rt: &impl Print, flags: u32) -> io::Result<()> {
    println!(rt; "presence {flags:08x}")?;
    for cutoff in [0, 1, 2, 16] {
        ask_present(rt, EdgePresence { flags }, cutoff)?;
    }
    Ok(())
}

// The 256 words without a stray bit, and words with stray bits, which change no answer.
fn every_present(rt: &impl Print) -> io::Result<()> {
    for present in 0..256 {
        show_present(rt, present << 3)?;
    }
    for flags in [0x7f9, 0x807, 0x80000000, 0xfffff807, 0xfffffaaf, 0xffffffff] {
        show_present(rt, flags)?;
    }
    Ok(())
}

// To a word without a bit, one with some, one with all; then to stray bits, which stay.
fn mark_all(rt: &impl Print) -> io::Result<()> {
    for flags in [0, 0x128, 0x7f8, 0x807, 0xfffff807, 0xffffffff] {
        println!(rt; "presence {flags:08x}")?;
        add_all(rt, EdgePresence { flags })?;
    }
    Ok(())
}

fn main(rt: HostRuntime) -> io::Result<()> {
    limits(&rt, 0)?;
    limits(&rt, 2)?;
    limits(&rt, 15)?;
    add_all(&rt, raised(1, 14, 3))?;
    every_present(&rt)?;
    mark_all(&rt)
}
