// The line that a refusal prints, and other lines with two numbers.
ghost use Rattle.std.specs.Prelude.{◌≡◌, ◌++◌, ◌≤◌, length, drop};
ghost use Rattle.dna.specs.Answer.{fill};
ghost use Rattle.label_file.specs.Output.{numbers, refusal};
ghost use Rattle.label_file.specs.Reasons.{number_of};
ghost use Rattle.label_file.specs.Says.{Fills, Prefixes};

use super::refusal::Refusal;
use dna::{NoRoom, copy};

// A number in decimal in front of a place; the place of its first digit. By hand: `Prints` of demands says each byte,
// and std says of what it formats no byte.
fn put_decimal(number: usize, out: &mut [u8], at: usize) -> usize
    requires { (20 ≤ at) × (at ≤ length out.old) }
    ensures { Prefixes number out.old at result out.new }
{
    let mut x = number;
    let mut i = at - 1;
    out[i] = b'0' + (x % 10) as u8;
    while 10 <= x {
        x /= 10;
        i -= 1;
        out[i] = b'0' + (x % 10) as u8;
    }
    i
}

// Two numbers, a space between, and a newline, at the end of a line of 64 bytes; the place of the first digit.
fn put_numbers(first: usize, second: usize, line: &mut [u8]) -> usize
    requires { length line.old ≡ 64 }
    ensures { (drop result line.new ≡ numbers first second) × (22 ≤ result) × (result ≤ 63) }
{
    line[63] = b'\n';
    let i = put_decimal(second, line, 63);
    line[i - 1] = b' ';
    put_decimal(first, line, i - 1)
}

// A word in front of two numbers, at the end of a line of 64 bytes; the place of its first letter.
fn make_line(word: &[u8], first: usize, second: usize, line: &mut [u8]) -> usize
    requires { (length word.now ≤ 22) × (length line.old ≡ 64) }
    ensures { (drop result line.new ≡ word.now ++ numbers first second) × (result ≤ 64) }
{
    let end = put_numbers(first, second, line);
    let start = end - word.len();
    line[start..end].copy_from_slice(word);
    start
}

// A word, two numbers and a newline, in the text.
pub(crate) fn tell(
    word: &[u8],
    first: usize,
    second: usize,
    text: &mut [u8],
) -> Result<usize, NoRoom>
    requires { length word.now ≤ 22 }
    ensures { Fills result text.new (fill 11 (word.now ++ numbers first second) text.old) }
{
    let mut line = [0u8; 64];
    let start = make_line(word, first, second, &mut line);
    copy(&line[start..], text)
}

// A refusal's number and its record, in the text.
pub(crate) fn refuse(why: Refusal, text: &mut [u8]) -> Result<usize, NoRoom>
    ensures { Fills result text.new (fill 11 (refusal (number_of why.reason) why.at) text.old) }
{
    tell(b"R ", why.reason.number(), why.at, text)
}
