// A label file made from a text.
ghost use Rattle.std.specs.Prelude.{◌≡◌, false, ◌≤◌, length};
ghost use Rattle.dna.specs.Text.{over};
ghost use Rattle.label_text.specs.Packing.{head_record, pack_text};
ghost use Rattle.label_text.specs.Says.{Room, Closes, Joins, Takes, Measures};

use super::{PackError, TooLarge, lines};
use dna::copy;

// The record that is being written: its place and the size of its label, whose letters stand four bytes behind it.
#[derive(Clone, Copy)]
struct Open {
    at: usize,
    size: usize,
}

// The `KC` record.
fn put_head(k: u8, cutoff: u32, out: &mut [u8])
    requires { 7 ≤ length out.old }
    ensures { out.new ≡ over (head_record k cutoff) out.old }
{
    out[..2].copy_from_slice(b"KC");
    out[2] = k;
    out[3..7].copy_from_slice(&cutoff.to_le_bytes());
}

// The mark and the length in front of the open label; where the next record begins. An empty label is left out.
fn close(out: &mut [u8], open: Open) -> usize
    requires { Room out.old open.at open.size }
    ensures { Closes out.old open.at open.size result out.new }
{
    let Open { at, size } = open;
    if size == 0 {
        return at;
    }
    out[at..at + 2].copy_from_slice(b"LB");
    out[at + 2..at + 4].copy_from_slice(&(size as u16).to_le_bytes());
    at + 4 + size
}

// A line's letters behind those of the open label, where they lie within 16,384 bytes.
fn add_letters(line: &[u8], out: &mut [u8], open: Open) -> Result<Open, TooLarge>
    requires { Room out.old open.at open.size }
    ensures { Joins line.now out.old open.at open.size result out.new }
{
    let Open { at, size } = open;
    if line.is_empty() {
        return Ok(open);
    }
    let start = at + 4 + size;
    let end = start + line.len();
    if 16384 < end {
        return Err(TooLarge);
    }
    out[start..end].copy_from_slice(line);
    Ok(Open {
        at,
        size: size + line.len(),
    })
}

// One line: a header of FASTA closes the label, another line is joined to it; in a plain text a line is a label.
fn pack_line(line: &[u8], fasta: bool, out: &mut [u8], open: Open) -> Result<Open, TooLarge>
    requires { Room out.old open.at open.size × (fasta ≡ false → open.size ≡ 0) }
    ensures { Takes fasta line.now out.old open.at open.size result out.new }
{
    if fasta {
        if lines::is_header(line) {
            let at = close(out, open);
            return Ok(Open { at, size: 0 });
        }
        return add_letters(line, out, open);
    }
    let grown = add_letters(line, out, open)?;
    let at = close(out, grown);
    Ok(Open { at, size: 0 })
}

// The file in 16,384 bytes lent for it, where it is not larger; its size.
fn pack_lines(text: &[u8], k: u8, cutoff: u32, out: &mut [u8]) -> Result<usize, TooLarge>
    requires { length out.old ≡ 16384 }
    ensures { Measures k cutoff text.now result out.new }
{
    put_head(k, cutoff, out);
    let fasta = lines::is_header(text);
    let mut open = Open { at: 7, size: 0 };
    for line in text.split(|byte| *byte == b'\n') {
        open = pack_line(lines::trimmed(line), fasta, out, open)?;
    }
    Ok(close(out, open))
}

// The label file of a text, from the slice's first byte on.
pub fn pack(text: &[u8], k: u8, cutoff: u32, out: &mut [u8]) -> Result<usize, PackError>
    ensures { record { answer = result; slice = out.new } ≡ pack_text k cutoff text.now out.old }
{
    if lines::is_mixed(text) {
        return Err(PackError::Mixed);
    }
    let mut file = [0u8; 16384];
    let size = pack_lines(text, k, cutoff, &mut file)?;
    Ok(copy(&file[..size], out)?)
}
