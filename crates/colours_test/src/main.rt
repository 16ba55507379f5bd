// Prints what coordinates, runs and run lists answer. The file `stdout` beside this is written by oracle/record: what
// the Rust original answers of coordinates and runs, R22 where it asserts; of run lists, which it does not read, what
// document 02's rules give over its words; and R22 for the parts of 2^40, of which it answers some bits.
#![tactic(auto)]

use colours::{ColorCoordinate, ColorError, OutOfRange, UnitigColor, VertexOffset};
use std::io;

// What stands in a cell that nothing was written to.
const FREE: u64 = 0xeeee;

// A part of a coordinate, or the refusal.
fn part(rt: &impl Print, answer: Result<u64, OutOfRange>) -> io::Result<()> {
    match answer {
        Ok(n) => print!(rt; " {n}"),
        Err(OutOfRange) => print!(rt; " R22"),
    }
}

fn parts(rt: &impl Print, c: ColorCoordinate) -> io::Result<()> {
    part(rt, c.as_u40())?;
    part(rt, c.worker())?;
    part(rt, c.index())?;
    if c.is_in_process() {
        print!(rt; " in process")?;
    }
    println!(rt;)
}

fn coordinate(rt: &impl Print, answer: Result<ColorCoordinate, OutOfRange>) -> io::Result<()> {
    match answer {
        Ok(c) => parts(rt, c),
        Err(OutOfRange) => println!(rt; " R22"),
    }
}

fn discovered(rt: &impl Print, worker: u64, index: u64) -> io::Result<()> {
    print!(rt; "discovered {worker} {index}:")?;
    coordinate(rt, ColorCoordinate::discovered(worker, index))
}

fn from_u40(rt: &impl Print, value: u64) -> io::Result<()> {
    print!(rt; "from {value}:")?;
    coordinate(rt, ColorCoordinate::from_u40(value))
}

// A coordinate of any word.
fn held(rt: &impl Print, value: u64) -> io::Result<()> {
    print!(rt; "held {value}:")?;
    parts(rt, ColorCoordinate(value))
}

fn run(rt: &impl Print, offset: u32, value: u64) -> io::Result<()> {
    print!(rt; "run {offset} {value}:")?;
    match UnitigColor::new(VertexOffset(offset), ColorCoordinate(value)) {
        Ok(r) => println!(rt; " {} {} {}", r.raw(), r.offset().0, r.coordinate().0),
        Err(OutOfRange) => println!(rt; " R22"),
    }
}

// The number of a refusal.
fn refusal(error: ColorError) -> u32 {
    match error {
        ColorError::BrokenRuns => 23,
        ColorError::PastLabel => 24,
        ColorError::NoRoom => 9,
    }
}

fn color(rt: &impl Print, runs: &[u64], kmers: usize, vertex: u32) -> io::Result<()> {
    match colours::color_at(runs, kmers, VertexOffset(vertex)) {
        Ok(c) => print!(rt; " {}", c.0),
        Err(error) => print!(rt; " R{}", refusal(error)),
    }
}

// The colours of all vertices in nine cells, and every cell.
fn colors(rt: &impl Print, runs: &[u64], kmers: usize) -> io::Result<()> {
    let mut cells = [FREE; 9];
    match colours::write_colors(runs, kmers, &mut cells) {
        Ok(n) => print!(rt; " {n}")?,
        Err(error) => print!(rt; " R{}", refusal(error))?,
    }
    for cell in cells {
        print!(rt; " {cell}")?;
    }
    println!(rt;)
}

// Whether the list is sound, the colours at the vertices 0 to 9, at those around 2^24 and at 2^32 - 1, and those of
// all vertices.
fn list(rt: &impl Print, runs: &[u64], kmers: usize) -> io::Result<()> {
    print!(rt; "list {} {kmers}", runs.len())?;
    match colours::check_runs(runs, kmers) {
        Ok(()) => print!(rt; " sound:")?,
        Err(error) => print!(rt; " R{}:", refusal(error))?,
    }
    for vertex in [
        0, 1, 2, 3, 4, 5, 6, 7, 8, 9, 0xfffffe, 0xffffff, 0x1000000, 0xffffffff,
    ] {
        color(rt, runs, kmers, vertex)?;
    }
    print!(rt; ";")?;
    colors(rt, runs, kmers)
}

fn coordinates(rt: &impl Print) -> io::Result<()> {
    discovered(rt, 0, 0)?;
    discovered(rt, 7, 3)?;
    discovered(rt, 255, 0)?;
    discovered(rt, 0, 0xffffffff)?;
    discovered(rt, 255, 0xffffffff)?;
    discovered(rt, 256, 0)?;
    discovered(rt, 0, 0x100000000)?;
    discovered(rt, 0xffffffffffffffff, 0xffffffffffffffff)?;
    from_u40(rt, 0)?;
    from_u40(rt, 775)?;
    from_u40(rt, 0xffffffffff)?;
    from_u40(rt, 0x10000000000)?;
    from_u40(rt, 0x8000000000000000)?;
    held(rt, 0xffffffffff)?;
    held(rt, 0x10000000000)?;
    held(rt, 0x8000000000000000)?;
    held(rt, 0x8000000000000307)?;
    held(rt, 0xffffffffffffffff)
}

fn packed(rt: &impl Print) -> io::Result<()> {
    run(rt, 0, 0)?;
    run(rt, 5, 775)?;
    run(rt, 0xffffff, 0xffffffffff)?;
    run(rt, 0x1000000, 0)?;
    run(rt, 0xffffffff, 0)?;
    run(rt, 0, 0x10000000000)?;
    run(rt, 0, 0x8000000000000001)?;
    run(rt, 5, 0x8000000000000307)
}

fn main(rt: HostRuntime) -> io::Result<()> {
    coordinates(&rt)?;
    packed(&rt)?;
    list(&rt, &[], 8)?;
    list(&rt, &[0x4000000], 8)?;
    list(&rt, &[0x4000000], 1)?;
    list(&rt, &[0x4000000], 0)?;
    list(&rt, &[0x4000001], 8)?;
    list(&rt, &[0x4000000, 0x9000003, 0x4000007], 10)?;
    list(&rt, &[0x4000000, 0x9000003, 0x4000007], 8)?;
    list(&rt, &[0x4000000, 0x9000003, 0x4000007], 7)?;
    list(&rt, &[0x4000000, 0x9000003, 0x4000003], 8)?;
    list(&rt, &[0x4000000, 0x9000003, 0x4000002], 8)?;
    list(
        &rt,
        &[
            0x1000000, 0x2000001, 0x3000002, 0x4000003, 0x5000004, 0x6000005, 0x7000006, 0x8000007,
        ],
        9,
    )?;
    list(&rt, &[0xffffffffff000000, 0xffffff], 0xffffff)?;
    list(&rt, &[0xffffffffff000000, 0xffffff], 0x1000000)?;
    list(&rt, &[0xffffffffff000000, 0xffffff], 0xffffffff)?;
    list(&rt, &[0xffffffffff000000, 0xffffff], 0x100000000)
}
