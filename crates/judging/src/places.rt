// The records of a FASTA text.
ghost use Rattle.std.specs.Prelude.{◌≡◌, ◌&&◌, ◌≤◌, ◌<◌, leb, length};
ghost use Rattle.dna.specs.Text.{bytes, among};
ghost use Rattle.rules.specs.Listing.{is_plain, listing};
ghost use Rattle.judging.specs.Places.{LineEnds, is_held, Recorded, Spans};

use super::Span;

// The first newline from a place on, or the text's end. Never inlined: where it is, the loop over a label's letters may
// keep its place in memory, which took half as long again.
#[inline(never)]
fn line_end(text: &[u8], at: usize) -> usize
    requires { at ≤ length text.now }
    ensures { LineEnds text.now at result }
{
    for i in at..text.len() {
        if text[i] == b'\n' {
            return i;
        }
    }
    text.len()
}

// A, C, G or T.
fn is_letter(byte: u8) -> bool
    ensures { result ≡ among byte (bytes "ACGT") }
{
    matches!(byte, b'A' | b'C' | b'G' | b'T')
}

// Every letter is A, C, G or T.
fn is_plain(label: &[u8]) -> bool
    ensures { result ≡ is_plain label.now }
{
    label.iter().all(|&byte| is_letter(byte))
}

// A line of at least k letters A, C, G, T.
fn is_label(k: usize, line: &[u8]) -> bool
    ensures { result ≡ (leb k (length line.now) && is_plain line.now) }
{
    k <= line.len() && is_plain(line)
}

// The label of the record at a place of a list.
pub(crate) fn label_at(text: &[u8], at: usize) -> Span
    requires { Recorded text.now at }
    ensures { Spans text.now at result.start result.end }
{
    let start = line_end(text, at) + 1;
    let end = line_end(text, start);
    Span { start, end }
}

// Whether a text holds a list.
pub(crate) fn is_list(k: usize, text: &[u8]) -> bool
    ensures { result ≡ is_held (listing k text.now) }
{
    let mut at = 0;
    while at < text.len() {
        let head = line_end(text, at);
        if head == text.len() {
            return false;
        }
        let start = head + 1;
        let end = line_end(text, start);
        if end == text.len() || text[at] != b'>' || !is_label(k, &text[start..end]) {
            return false;
        }
        at = end + 1;
    }
    true
}
