// `labels K CUTOFF`: FASTA or plain lines on standard input, as a label file on standard output.
#![tactic(auto)]

ghost use Rattle.std.specs.Prelude.{◌≡◌};
ghost use Rattle.labels.specs.Spelled.{spelled, Given};

use label_text::PackError;
use std::env::{Env, FillError};
use std::io;

// Decimal digits, at least one, that say a number not above a limit. By hand: std's `parse` takes a `+` in front.
fn number_of(digits: &[u8], most: u32) -> Option<u32>
    ensures { result ≡ spelled digits.now most }
{
    if digits.is_empty() {
        return None;
    }
    let mut x = 0u64;
    for &digit in digits {
        if !digit.is_ascii_digit() {
            return None;
        }
        x = 10 * x + u64::from(digit - b'0');
        if u64::from(most) < x {
            return None;
        }
    }
    Some(x as u32)
}

// The number that an argument says. One that is missing, or too long for the space, comes as no digits.
fn argument(rt: &impl Env, i: usize, most: u32) -> Option<u32>
    ensures { Given most result }
{
    let mut space = [0u8; 64];
    let n = rt.arg(i, &mut space).unwrap_or(0);
    number_of(&space[..n], most)
}

// The label file of a text, printed. The buffer holds the largest file, so one without room in it is too large
// as well.
fn pack(rt: &(impl Print + Eprint), text: &[u8], k: u8, cutoff: u32) -> io::Result<()> {
    let mut file = [0u8; 16384];
    match label_text::pack(text, k, cutoff, &mut file) {
        Ok(size) => rt.write_all(&file[..size]).or_else(|_| eprintln!(rt;
            "labels: standard output could not be written"
        )),
        Err(PackError::Mixed) => {
            eprintln!(rt; "labels: the text has a '>' and does not begin with one")
        }
        Err(PackError::TooLarge | PackError::NoRoom) => {
            eprintln!(rt; "labels: the label file would be over 16384 bytes")
        }
    }
}

// A text of more than 262,144 bytes is not taken: a buffer one byte larger tells it.
fn read_and_pack(rt: &(impl io::Input + Print + Eprint), k: u8, cutoff: u32) -> io::Result<()> {
    let mut text = [0u8; 262145];
    let Ok(n) = reading::read_input(rt, &mut text) else {
        return eprintln!(rt; "labels: standard input could not be read");
    };
    if 262144 < n {
        return eprintln!(rt; "labels: the input is over 262144 bytes");
    }
    pack(rt, &text[..n], k, cutoff)
}

// Whether the command has an argument of this number; the program's name is 0. `judge` has the same.
fn is_given(rt: &impl Env, i: usize) -> bool {
    !matches!(rt.arg(i, &mut [0u8; 1]), Err(FillError::NotPresent))
}

fn main(rt: HostRuntime) -> io::Result<()> {
    if !is_given(&rt, 2) || is_given(&rt, 3) {
        return eprintln!(rt; "usage: labels K CUTOFF < TEXT > LABEL-FILE");
    }
    let Some(k) = argument(&rt, 1, 255) else {
        return eprintln!(rt; "labels: K must be a number from 0 to 255");
    };
    let Some(cutoff) = argument(&rt, 2, 4294967295) else {
        return eprintln!(rt; "labels: the cutoff must be a number from 0 to 4294967295");
    };
    read_and_pack(&rt, k as u8, cutoff)
}
