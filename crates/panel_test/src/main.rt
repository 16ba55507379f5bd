// Asks for panels of seven labels, among them an empty one and one with other letters, and prints each answer with
// every cell of the lent slice. The file `stdout` beside this is written by oracle/panel_test.py, from document 02's
// rules alone.
#![tactic(auto)]

use panel::PanelError;
use std::io;

// What stands in a cell that nothing was written to.
const FREE: u32 = 0xeeeeeeee;

// An index of eight entries, the last of which lies past the text.
const STARTS: [u32; 8] = [132, 0, 29, 252, 69, 15, 252, 277];

const LENGTHS: [u32; 8] = [120, 15, 40, 0, 63, 14, 30, 6];

// The text of the labels.
const LABELS: &[u8] =
    b"GGCCCCCCACGATCAGCAGTTCGGCTTGTGCgcNAGAGGTCTTCGCCGGGTGGTCTCCCGCATTTATACCTTGCTGGCGCCTCAAGGCGCCACCATA\
TGAACGATGGATGAAGGCTTCCGATCCGTCGTCGCATATATATATATATATATATATATATATATATATATATATATATATATATATATATATATCCGCCG\
CCCGGGGCGCCCCGCCGGGGCGGCCCCGCGGCCCCGCCGGCGGGGGGCCGCCGGCCTCTAAACGTGCGGAGAACAAGAGTCGAA";

fn answer(rt: &impl Print, a: Result<usize, PanelError>) -> io::Result<()> {
    match a {
        Ok(n) => print!(rt; " {n}"),
        Err(PanelError::OutOfProfile) => print!(rt; " R26"),
        Err(PanelError::WrongBounds) => print!(rt; " R27"),
        Err(PanelError::OutOfLabels) => print!(rt; " R12"),
        Err(PanelError::NoRoom) => print!(rt; " R28"),
    }
}

fn show(rt: &impl Print, out: &[u32]) -> io::Result<()> {
    print!(rt; ";")?;
    for x in out {
        print!(rt; " {x}")?;
    }
    println!(rt;)
}

fn ask(
    rt: &impl Print,
    k: usize,
    cutoff: u32,
    probe: usize,
    least: usize,
    most: usize,
    count: usize,
    out: &mut [u32],
) -> io::Result<()> {
    print!(rt;
        "panel {k} {cutoff} {probe} {least} {most} {count} {}:",
        out.len()
    )?;
    let a = panel::panel(
        k, cutoff, probe, least, most, LABELS, &STARTS, &LENGTHS, count, out,
    );
    answer(rt, a)?;
    show(rt, out)
}

fn main(rt: HostRuntime) -> io::Result<()> {
    ask(&rt, 15, 2, 15, 0, 15, 7, &mut [FREE; 8])?;
    ask(&rt, 15, 2, 15, 7, 8, 7, &mut [FREE; 8])?;
    ask(&rt, 15, 15, 15, 15, 15, 7, &mut [FREE; 8])?;
    ask(&rt, 15, 2, 15, 0, 0, 7, &mut [FREE; 8])?;
    ask(&rt, 31, 2, 31, 0, 3, 7, &mut [FREE; 8])?;
    ask(&rt, 31, 2, 63, 30, 31, 7, &mut [FREE; 8])?;
    ask(&rt, 31, 2, 63, 32, 63, 7, &mut [FREE; 8])?;
    ask(&rt, 31, 2, 63, 40, 41, 7, &mut [FREE; 8])?;
    ask(&rt, 21, 3, 40, 12, 18, 7, &mut [FREE; 8])?;
    ask(&rt, 17, 2, 30, 30, 30, 7, &mut [FREE; 8])?;
    ask(&rt, 15, 2, 14, 0, 14, 7, &mut [FREE; 8])?;
    ask(&rt, 15, 2, 64, 0, 64, 7, &mut [FREE; 8])?;
    ask(&rt, 13, 2, 15, 0, 15, 7, &mut [FREE; 8])?;
    ask(&rt, 33, 2, 40, 0, 15, 7, &mut [FREE; 8])?;
    ask(&rt, 16, 2, 20, 0, 15, 7, &mut [FREE; 8])?;
    ask(&rt, 15, 1, 15, 0, 15, 7, &mut [FREE; 8])?;
    ask(&rt, 15, 16, 15, 0, 15, 7, &mut [FREE; 8])?;
    ask(&rt, 15, 0, 15, 9, 8, 7, &mut [FREE; 8])?;
    ask(&rt, 15, 2, 15, 9, 8, 7, &mut [FREE; 8])?;
    ask(&rt, 15, 2, 15, 3, 16, 7, &mut [FREE; 8])?;
    ask(&rt, 15, 2, 15, 7, 8, 0, &mut [FREE; 1])?;
    ask(&rt, 15, 2, 15, 7, 8, 3, &mut [FREE; 3])?;
    ask(&rt, 15, 2, 15, 7, 8, 4, &mut [FREE; 3])?;
    ask(&rt, 15, 2, 15, 7, 8, 8, &mut [FREE; 8])?;
    ask(&rt, 15, 2, 15, 7, 8, 8, &mut [FREE; 1])?;
    ask(&rt, 15, 2, 15, 7, 8, 9, &mut [FREE; 8])?;
    ask(&rt, 15, 2, 15, 9, 8, 9, &mut [FREE; 1])?;
    ask(&rt, 16, 2, 15, 9, 8, 9, &mut [FREE; 1])?;
    ask(&rt, usize::MAX, 2, 63, 0, 15, 1, &mut [FREE; 1])?;
    ask(&rt, 15, u32::MAX, 15, 0, 15, 1, &mut [FREE; 1])?;
    ask(&rt, 15, 2, usize::MAX, 0, 15, 1, &mut [FREE; 1])?;
    ask(&rt, 15, 2, 15, 0, usize::MAX, 1, &mut [FREE; 1])?;
    ask(&rt, 15, 2, 15, usize::MAX, 15, 1, &mut [FREE; 1])?;
    ask(&rt, 15, 2, 15, 0, 15, usize::MAX, &mut [FREE; 1])
}
