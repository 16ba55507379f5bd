// Compares recorded answers of the Rust original with the library's. Each data file holds cases of one kind; a line
// says how many were compared and how many differ. A file that is missing or empty, or ends within a case, is said to
// be so instead. The first ten cases of a file that differ are named, counted from 1.
#![tactic(auto)]

use read::Data;
use std::rt::Files;
use std::{fs, io};

mod files;
mod found;
mod kmers;
mod labels;
mod read;
mod tables;

#[derive(Clone, Copy)]
struct Tally {
    compared: usize,
    differ: usize,
}

// The cases of a file, of each of which the first byte is read here; `None` where one is cut.
fn compare<C: Fn(&mut Data<'_>, u8) -> Option<bool>>(
    rt: &impl Print,
    name: &str,
    case: C,
    bytes: &[u8],
) -> io::Result<Option<Tally>>
    requires { C.IsAlwaysCallable case }
{
    let mut data = Data::new(bytes);
    let mut differ = 0;
    // Each case takes a byte at least.
    for compared in 0..bytes.len() {
        let Some(first) = data.byte() else {
            return Ok(Some(Tally { compared, differ }));
        };
        let Some(same) = case(&mut data, first) else {
            return Ok(None);
        };
        if !same {
            differ += 1;
            if differ <= 10 {
                println!(rt; "{name}: case {} differs", compared + 1)?;
            }
        }
    }
    Ok(Some(Tally {
        compared: bytes.len(),
        differ,
    }))
}

fn report(rt: &impl Print, name: &str, tally: Option<Tally>) -> io::Result<()> {
    match tally {
        None => println!(rt; "{name}: data cut short"),
        Some(Tally { compared: 0, .. }) => println!(rt; "{name}: data missing"),
        Some(Tally { compared, differ }) => {
            println!(rt; "{name}: {compared} compared, {differ} differ")
        }
    }
}

// A file that is not there is read as an empty one.
fn read_file<R: Files + AllocGlobal>(rt: &R, name: &str) -> io::Result<Vec<u8>> {
    match fs::read(rt, name) {
        Err(e) if e.kind() == io::ErrorKind::NotFound => Ok(Vec::new(rt.alloc())),
        result => result,
    }
}

// A file whose cases are read by `case`: it says whether the library answers as is recorded.
fn replay<R: Files + Print + AllocGlobal, C: Fn(&mut Data<'_>, u8) -> Option<bool>>(
    rt: &R,
    name: &str,
    case: C,
) -> io::Result<()>
    requires { C.IsAlwaysCallable case }
{
    let bytes = read_file(rt, name)?;
    let tally = compare(rt, name, case, &bytes)?;
    report(rt, name, tally)
}

fn main(rt: HostRuntime) -> io::Result<()> {
    replay(&rt, "kmers", kmers::case)?;
    replay(&rt, "labels", labels::case)?;
    replay(&rt, "tables", tables::case)?;
    replay(&rt, "files", files::case)
}
