// A label file, what the program prints for it, and what it leaves in its buffers.
use super::found;
use super::read::Data;
use dna::NoRoom;

// What a run left: the bytes to be printed, the table with its marks, the labels and their index.
fn left(
    data: &mut Data<'_>,
    answer: Result<usize, NoRoom>,
    keys: &[u64],
    counts: &[u32],
    labels: &[u8],
    starts: &[u32],
    lengths: &[u32],
    marks: &[u8],
    text: &[u8],
) -> Option<bool> {
    let printed = data.length()?;
    let told = answer == Ok(printed);
    let lines = found::bytes(data, printed, text)?;
    let n = data.length()?;
    let table = found::table(data, n, keys, counts)?;
    let marked = found::bytes(data, n, marks)?;
    let bases = data.length()?;
    let spelled = found::bytes(data, bases, labels)?;
    let count = data.length()?;
    let indexed = found::index(data, count, starts, lengths)?;
    Some(told & lines & table & marked & spelled & indexed)
}

// The run of a file, in buffers filled with zeros.
fn listed(data: &mut Data<'_>, file: &[u8]) -> Option<bool> {
    let mut keys = [0u64; 2048];
    let mut counts = [0u32; 1024];
    let mut labels = [0u8; 8192];
    let mut starts = [0u32; 1024];
    let mut lengths = [0u32; 1024];
    let mut marks = [0u8; 1024];
    let mut text = [0u8; 8192];
    let answer = label_file::list_unitigs(
        file,
        &mut keys,
        &mut counts,
        &mut labels,
        &mut starts,
        &mut lengths,
        &mut marks,
        &mut text,
    );
    left(
        data, answer, &keys, &counts, &labels, &starts, &lengths, &marks, &text,
    )
}

// A case, whose first byte is the low one of its file's length.
pub fn case(data: &mut Data<'_>, first: u8) -> Option<bool> {
    let n = u16::from_le_bytes([first, data.byte()?]);
    let file = data.bytes(usize::from(n))?;
    listed(data, file)
}
