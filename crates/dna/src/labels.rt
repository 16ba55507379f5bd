// Labels: copies, reversal and rotation of byte texts.
ghost use Rattle.std.specs.Prelude.{◌≡◌};
ghost use Rattle.dna.specs.Answer.{fill};
ghost use Rattle.dna.specs.Letters.{reverse_complement};
ghost use Rattle.dna.specs.Order.{rotation, least_start};
ghost use Rattle.dna.specs.Calls.{Writes};

use super::{NoRoom, complement_ascii};

// A text, written from out's first cell on.
pub fn copy(text: &[u8], out: &mut [u8]) -> Result<usize, NoRoom>
    ensures { Writes result out.new (fill 9 text.now out.old) }
{
    let n = text.len();
    if out.len() < n {
        return Err(NoRoom);
    }
    out[..n].copy_from_slice(text);
    Ok(n)
}

// The reverse complement of a label, written from out's first cell on; a byte that is no base becomes N.
pub fn reverse_complement_label(label: &[u8], out: &mut [u8]) -> Result<usize, NoRoom>
    ensures { Writes result out.new (fill 9 (reverse_complement label.now) out.old) }
{
    let n = label.len();
    if out.len() < n {
        return Err(NoRoom);
    }
    for (i, &byte) in label.iter().rev().enumerate() {
        out[i] = complement_ascii(byte);
    }
    Ok(n)
}

// The least rotation of a label, written from out's first cell on.
pub fn minimal_rotation(label: &[u8], out: &mut [u8]) -> Result<usize, NoRoom>
    ensures { Writes result out.new (fill 9 (rotation label.now (least_start label.now)) out.old) }
{
    let n = label.len();
    if out.len() < n {
        return Err(NoRoom);
    }
    let start = least_rotation_start(label);
    let (front, back) = label.split_at(start);
    out[..back.len()].copy_from_slice(back);
    out[back.len()..n].copy_from_slice(front);
    Ok(n)
}

// The smallest start whose rotation is least: two starts are compared byte by byte, and where they differ the larger
// one and all starts that the comparison passed are out.
pub fn least_rotation_start(s: &[u8]) -> usize
    ensures { result ≡ least_start s.now }
{
    let n = s.len();
    if n <= 1 {
        return 0;
    }
    let mut i = 0;
    let mut j = 1;
    let mut k = 0;
    while i < n && j < n && k < n {
        let a = s[(i + k) % n];
        let b = s[(j + k) % n];
        if a == b {
            k += 1;
        } else if a > b {
            i = (i + k + 1).max(j + 1);
            k = 0;
        } else {
            j = (j + k + 1).max(i + 1);
            k = 0;
        }
    }
    i.min(j)
}
