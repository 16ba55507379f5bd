// A label file's list.
ghost use Rattle.std.specs.Prelude.{◌≡◌, ℕ};
ghost use Rattle.state.specs.Counted.{four_bits};
ghost use Rattle.graph.specs.Sightings.{same_canonical};
ghost use Rattle.graph.specs.Several.{untried, add_each};
ghost use Rattle.graph.specs.Contraction.{contract};
ghost use Rattle.label_file.specs.LabelFile.{file_of, labels_of};
ghost use Rattle.label_file.specs.Output.{lent, listed_after, output};
ghost use Rattle.label_file.specs.Says.{Lists, Sound, Takes, Leaves, at_record};

use super::form::Head;
use super::refusal::{Reason, Refusal};
use super::{form, index, line};
use adding::{Additions, Mode};
use dna::NoRoom;
use state::EdgeKind;

// Labels added: the vertices stored and the records read.
#[derive(Clone, Copy)]
pub(crate) struct Taken {
    pub(crate) vertices: usize,
    pub(crate) records: usize,
}

// The labels added in order, until one is refused.
pub(crate) fn take_labels(
    file: &[u8],
    k: usize,
    keys: &mut [u64],
    counts: &mut [u32],
) -> Result<Taken, Refusal>
    requires { Sound file.now }
    ensures { Takes result keys.new counts.new
        (add_each four_bits same_canonical k (untried 0 keys.old counts.old) (labels_of (file_of file.now))) }
{
    let mut starts = [0u32; 4096];
    let mut lengths = [0u32; 4096];
    let count = index::index_labels(file, &mut starts, &mut lengths);
    let added = adding::add_labels(
        EdgeKind::Counted,
        Mode::SameCanonical,
        k,
        0,
        keys,
        counts,
        file,
        &starts,
        &lengths,
        count,
    );
    // The index lies within the file.
    let Additions {
        labels,
        stored,
        last,
    } = added.unwrap();
    let records = labels + 1;
    match last {
        Ok(_) => Ok(Taken {
            vertices: stored,
            records,
        }),
        Err(error) => Err(Refusal {
            reason: Reason::from(error),
            at: records,
        }),
    }
}

// A table contracted, and its list as FASTA; the bytes of the text.
fn list_table(
    k: usize,
    cutoff: u32,
    n: usize,
    keys: &[u64],
    counts: &[u32],
    labels: &mut [u8],
    starts: &mut [u32],
    lengths: &mut [u32],
    marks: &mut [u8],
    text: &mut [u8],
) -> Result<usize, Reason>
    ensures { (p : ℕ) → Leaves (at_record p result)
        (lent keys.now counts.now labels.new starts.new lengths.new marks.new text.new)
        (listed_after p (lent keys.now counts.now labels.old starts.old lengths.old marks.old text.old)
        (contract four_bits k cutoff n keys.now counts.now labels.old starts.old lengths.old marks.old)) }
{
    let listed = contraction::contract(
        EdgeKind::Counted,
        k,
        cutoff,
        n,
        keys,
        counts,
        labels,
        starts,
        lengths,
        marks,
    )?;
    let size = fasta::write_fasta(labels, starts, lengths, listed.labels, text)?;
    Ok(size)
}

// A file's list in the text; the bytes of the text.
fn list_file(
    file: &[u8],
    keys: &mut [u64],
    counts: &mut [u32],
    labels: &mut [u8],
    starts: &mut [u32],
    lengths: &mut [u32],
    marks: &mut [u8],
    text: &mut [u8],
) -> Result<usize, Refusal>
    ensures { Leaves result (lent keys.new counts.new labels.new starts.new lengths.new marks.new text.new)
        (output (lent keys.old counts.old labels.old starts.old lengths.old marks.old text.old) file.now) }
{
    let Head { k, cutoff } = form::read_head(file)?;
    let Taken { vertices, records } = take_labels(file, k, keys, counts)?;
    match list_table(
        k, cutoff, vertices, keys, counts, labels, starts, lengths, marks, text,
    ) {
        Ok(size) => Ok(size),
        Err(reason) => Err(Refusal {
            reason,
            at: records,
        }),
    }
}

// What the program prints for a file, in the text: the FASTA of its unitigs, or the line of a refusal.
pub fn list_unitigs(
    file: &[u8],
    keys: &mut [u64],
    counts: &mut [u32],
    labels: &mut [u8],
    starts: &mut [u32],
    lengths: &mut [u32],
    marks: &mut [u8],
    text: &mut [u8],
) -> Result<usize, NoRoom>
    ensures { Lists result (lent keys.new counts.new labels.new starts.new lengths.new marks.new text.new)
        (output (lent keys.old counts.old labels.old starts.old lengths.old marks.old text.old) file.now) }
{
    match list_file(file, keys, counts, labels, starts, lengths, marks, text) {
        Ok(size) => Ok(size),
        Err(why) => line::refuse(why, text),
    }
}
