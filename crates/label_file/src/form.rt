// The form of a label file: a `KC` record, then `LB` records.
ghost use Rattle.std.specs.Prelude.{◌≡◌, ◌+◌, ◌<◌, ◌≤◌, length, drop};
ghost use Rattle.label_file.specs.LabelFile.{two, headed, labelled};
ghost use Rattle.label_file.specs.Says.{form_says, head_says};

use super::refusal::{Reason, Refusal};

// K and the cutoff of a file.
#[derive(Clone, Copy)]
pub(crate) struct Head {
    pub(crate) k: usize,
    pub(crate) cutoff: u32,
}

// Two bytes, low byte first.
pub(crate) fn two_bytes(file: &[u8], at: usize) -> usize
    requires { at + 1 < length file.now }
    ensures { (result ≡ two file.now at) × (result < 65536) }
{
    usize::from(u16::from_le_bytes([file[at], file[at + 1]]))
}

// The file begins with a whole `KC` record.
fn is_headed(file: &[u8]) -> bool
    ensures { result ≡ headed file.now }
{
    file.starts_with(b"KC") && 7 <= file.len()
}

// A text begins with a whole `LB` record.
fn is_labelled(text: &[u8]) -> bool
    requires { length text.now ≤ 16384 }
    ensures { result ≡ labelled text.now }
{
    text.starts_with(b"LB") && 4 <= text.len() && 4 + two_bytes(text, 2) <= text.len()
}

// The whole file, record by record; a refusal names the first that is not as it should be.
fn form(file: &[u8]) -> Result<(), Refusal>
    ensures { form_says result file.now }
{
    if 16384 < file.len() || !is_headed(file) {
        return Err(Refusal {
            reason: Reason::Damaged,
            at: 0,
        });
    }
    let mut record = 1;
    let mut at = 7;
    while at < file.len() {
        if !is_labelled(&file[at..]) {
            return Err(Refusal {
                reason: Reason::Damaged,
                at: record,
            });
        }
        at += 4 + two_bytes(file, at + 2);
        record += 1;
    }
    Ok(())
}

// The form, then K.
#[tactic(auto, using(crate::proofs::Unread::sound_long))]
pub(crate) fn read_head(file: &[u8]) -> Result<Head, Refusal>
    ensures { head_says result file.now }
{
    form(file)?;
    let k = usize::from(file[2]);
    if !(1..=63).contains(&k) {
        return Err(Refusal {
            reason: Reason::UnsupportedK,
            at: 0,
        });
    }
    let cutoff = u32::from_le_bytes([file[3], file[4], file[5], file[6]]);
    Ok(Head { k, cutoff })
}
