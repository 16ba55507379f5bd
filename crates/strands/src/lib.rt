// A label in its place: turned to its other strand, or made the smaller of the two.
#![tactic(auto)]

ghost use Rattle.std.specs.Prelude.{◌≡◌};
ghost use Rattle.dna.specs.Letters.{reverse_complement};
ghost use Rattle.dna.specs.Order.{before};
ghost use Rattle.graph.specs.Labels.{lesser};

use dna::complement_ascii;

// The reverse complement in the label's own cells: its two ends are exchanged, and on inwards. By place: `reverse` and
// then a loop over the letters took up to a sixth longer.
pub fn turn(label: &mut [u8])
    ensures { label.new ≡ reverse_complement label.old }
{
    let n = label.len();
    for i in 0..n - n / 2 {
        let j = n - 1 - i;
        let (x, y) = (complement_ascii(label[i]), complement_ascii(label[j]));
        label[i] = y;
        label[j] = x;
    }
}

// Whether the other strand comes first in byte order. By place: the library's `cmp` of two iterators took twice as long
// where the strands are alike.
pub fn is_above(label: &[u8]) -> bool
    ensures { result ≡ before (reverse_complement label.now) label.now }
{
    let n = label.len();
    for i in 0..n {
        let x = complement_ascii(label[n - 1 - i]);
        let y = label[i];
        if x < y {
            return true;
        }
        if y < x {
            return false;
        }
    }
    false
}

// The smaller of a label and its reverse complement.
#[tactic(auto, using(graph::proofs::Labels::lesser_turned, graph::proofs::Labels::lesser_kept))]
pub fn canonical_label(label: &mut [u8])
    ensures { label.new ≡ lesser label.old }
{
    if is_above(label) {
        turn(label);
    }
}
