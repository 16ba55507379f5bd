// Labels added to a table one after another.
use super::found;
use super::read::Data;
use adding::Addition;

// A label added to a table of so many vertices: whether that was answered as is recorded, and the vertices stored
// afterwards.
fn step(
    data: &mut Data<'_>,
    k: usize,
    n: usize,
    keys: &mut [u64],
    counts: &mut [u32],
) -> Option<(bool, usize)> {
    let length = data.length()?;
    let label = data.bytes(length)?;
    let answer = adding::add_label(
        state::EdgeKind::Counted,
        adding::Mode::SameCanonical,
        k,
        n,
        keys,
        counts,
        label,
    );
    let edges = data.length()?;
    let stored = data.length()?;
    let same = found::table(data, stored, keys, counts)?
        & (answer == Ok(Addition { edges, stored }));
    Some((same, answer.map_or(0, |added| added.stored)))
}

// A case, whose first byte is K.
pub fn case(data: &mut Data<'_>, first: u8) -> Option<bool> {
    let mut keys = [0u64; 2048];
    let mut counts = [0u32; 1024];
    let labels = data.length()?;
    let mut same = true;
    let mut n = 0;
    for _ in 0..labels {
        let (alike, stored) = step(data, usize::from(first), n, &mut keys, &mut counts)?;
        same &= alike;
        n = stored;
    }
    Some(same)
}
