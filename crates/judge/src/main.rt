// `judge LABEL-FILE`: a list as FASTA on standard input, judged by a label file; the line of a verdict or of a refusal
// on standard output.
#![tactic(auto)]

ghost use Rattle.std.specs.Prelude.{◌≡◌, ◌≤◌, length, take, replicate};
ghost use Rattle.label_file.specs.Judged.{judged};
ghost use Rattle.reading.specs.Within.{Within};

use std::env::{Env, FillError};
use std::fs::{File, Files};
use std::io;

// What is to be printed for a label file and a list, in a text of zeros; the other buffers are filled with zeros here.
// The answer is its size.
fn judgement(file: &[u8], list: &[u8], text: &mut [u8]) -> usize
    requires { text.old ≡ replicate 64 0 }
    ensures { (take result text.new ≡ judged file.now list.now) × (result ≤ length text.new) }
{
    let mut keys = [0u64; 2048];
    let mut counts = [0u32; 1024];
    let mut marks = [0u8; 1024];
    label_file::judge_list(file, list, &mut keys, &mut counts, &mut marks, text).unwrap_or(0)
}

// A file by its name; std opens none whose name is not UTF-8. It is closed before standard input is read, whose
// number it would have where that is closed.
fn read_file(rt: &impl Files, name: &[u8], file: &mut [u8]) -> io::Result<usize>
    ensures { Within result file.new }
{
    let Ok(name) = str::from_utf8(name) else {
        return Err(io::Error::from(io::ErrorKind::InvalidInput));
    };
    let mut reader = File::open(rt, name)?;
    reading::read_from(&mut reader, file)
}

// The list read and judged. One of more than 262,144 bytes is not taken: a buffer one byte larger tells it.
fn judge_by(rt: &(impl io::Input + Print + Eprint), file: &[u8]) -> io::Result<()> {
    let mut list = [0u8; 262145];
    let Ok(n) = reading::read_input(rt, &mut list) else {
        return eprintln!(rt; "judge: standard input could not be read");
    };
    if 262144 < n {
        return eprintln!(rt; "judge: the list is over 262144 bytes");
    }
    let mut text = [0u8; 64];
    let size = judgement(file, &list[..n], &mut text);
    rt.write_all(&text[..size]).or_else(|_| eprintln!(rt;
        "judge: standard output could not be written"
    ))
}

// Whether the command has an argument of this number; the program's name is 0. `labels` has the same: a public
// function of a library would need a contract, and none can say what was given.
fn is_given(rt: &impl Env, i: usize) -> bool {
    !matches!(rt.arg(i, &mut [0u8; 1]), Err(FillError::NotPresent))
}

// A name that is too long for the space comes as no bytes, and no file has that name. A buffer one byte larger than
// the largest label file tells one that is too large.
fn main(rt: HostRuntime) -> io::Result<()> {
    if !is_given(&rt, 1) || is_given(&rt, 2) {
        return eprintln!(rt; "usage: judge LABEL-FILE < LIST");
    }
    let mut name = [0u8; 4096];
    let size = rt.arg(1, &mut name).unwrap_or(0);
    let mut file = [0u8; 16385];
    let Ok(n) = read_file(&rt, &name[..size], &mut file) else {
        return eprintln!(rt; "judge: the label file could not be read");
    };
    judge_by(&rt, &file[..n])
}
