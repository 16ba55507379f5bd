// A table made by hand and its contraction.
use super::found;
use super::read::Data;
use contraction::{ContractError, Unitigs};

// The number that is recorded of an answer: 0 where the table was contracted, else the refusal's.
fn number_of(answer: Result<Unitigs, ContractError>) -> u8 {
    match answer {
        Ok(_) => 0,
        Err(ContractError::MissingVertex) => 8,
        Err(ContractError::NoRoom) => 9,
        Err(_) => 255,
    }
}

// What was answered: its number, the marks of n vertices, the labels and their index.
fn answers(
    data: &mut Data<'_>,
    n: usize,
    answer: Result<Unitigs, ContractError>,
    labels: &[u8],
    starts: &[u32],
    lengths: &[u32],
    marks: &[u8],
) -> Option<bool> {
    let told = data.byte()? == number_of(answer);
    let marked = found::bytes(data, n, marks)?;
    let bases = data.length()?;
    let spelled = found::bytes(data, bases, labels)?;
    let count = data.length()?;
    let indexed = found::index(data, count, starts, lengths)?;
    let all = answer.unwrap_or(Unitigs {
        labels: 0,
        bases: 0,
    });
    Some(told & marked & (bases == all.bases) & spelled & (count == all.labels) & indexed)
}

// A table contracted into slices, and what was answered.
fn contracted(
    data: &mut Data<'_>,
    k: usize,
    cutoff: u32,
    n: usize,
    keys: &[u64],
    counts: &[u32],
    labels: &mut [u8],
    starts: &mut [u32],
    lengths: &mut [u32],
) -> Option<bool> {
    let mut marks = [0u8; 32];
    let answer = contraction::contract(
        state::EdgeKind::Counted,
        k,
        cutoff,
        n,
        keys,
        counts,
        labels,
        starts,
        lengths,
        &mut marks,
    );
    answers(data, n, answer, labels, starts, lengths, &marks)
}

// A table of n vertices, with room for so many bytes and entries.
fn with_room(
    data: &mut Data<'_>,
    k: usize,
    cutoff: u32,
    n: usize,
    keys: &[u64],
    counts: &[u32],
) -> Option<bool> {
    let mut labels = [0u8; 4096];
    let mut starts = [0u32; 64];
    let mut lengths = [0u32; 64];
    let room = data.length()?;
    let entries = data.length()?;
    contracted(
        data,
        k,
        cutoff,
        n,
        keys,
        counts,
        labels.get_mut(..room)?,
        starts.get_mut(..entries)?,
        lengths.get_mut(..entries)?,
    )
}

// A case, whose first byte is K.
pub fn case(data: &mut Data<'_>, first: u8) -> Option<bool> {
    let mut keys = [0u64; 64];
    let mut counts = [0u32; 32];
    let cutoff = data.cell()?;
    let n = data.length()?;
    if n > 32 {
        return None;
    }
    data.words(&mut keys[..2 * n])?;
    data.cells(&mut counts[..n])?;
    with_room(data, usize::from(first), cutoff, n, &keys, &counts)
}
