// Rules 2 and 3: each k-mer of a label is looked up once, for where it stands and for its edges.
ghost use Rattle.std.specs.Prelude.{◌≡◌, true, ◌+◌, ◌^◌, ◌≤◌, ◌<◌, length};
ghost use Rattle.kmer.specs.Says.{value_of};
ghost use Rattle.kmer.proofs.Windows.{Bases};
ghost use Rattle.rules.specs.Listing.{Label, listing};
ghost use Rattle.marks.specs.Ready.{Ready, Unvisited};
ghost use Rattle.judging.specs.Places.{is_held};
ghost use Rattle.judging.specs.Standing.{TestsKmer, TestsWindow, Stands, Placed, Lacking};

use super::{AllPlaced, Graph, Tested, joining, places};
use kmer::Kmer;
use state::Side;

// The canonical k-mer c of window o, which is left by a side, may not stand, or has stood before; else it is marked,
// and its edges are compared with the label.
fn test_kmer(graph: &Graph, marks: &mut [u8], label: &[u8], o: usize, c: Kmer, side: Side) -> Tested
    requires { Ready graph.now.k graph.now.keys.now marks.old × Bases label.now × (o + graph.now.k ≤ length label.now) }
    ensures { TestsKmer graph.now.k graph.now.keys.now marks.old label.now o (value_of c) side result marks.new }
{
    let Ok(v) = directory::find(graph.k, marks.len(), graph.keys, graph.directory, c) else {
        return Tested::Misplaced;
    };
    if marks::is_skipped(marks, v) {
        return Tested::Misplaced;
    }
    let mark = marks[v];
    marks[v] = mark % 64 + 64;
    if joining::is_joined(graph.k, label, o, side, mark) {
        Tested::Fine
    } else {
        Tested::BadStep
    }
}

// Window o: its smaller strand is looked up; it is left by Back where that is itself.
fn test_window(graph: &Graph, marks: &mut [u8], label: &[u8], o: usize) -> Tested
    requires { Ready graph.now.k graph.now.keys.now marks.old × Bases label.now × (o + graph.now.k ≤ length label.now) }
    ensures { TestsWindow graph.now.k graph.now.keys.now marks.old label.now o result marks.new }
{
    let x = Kmer::from_ascii(graph.k, &label[o..o + graph.k]).unwrap();
    let y = x.reverse_complement(graph.k).unwrap();
    if y.is_less(x) {
        test_kmer(graph, marks, label, o, y, Side::Front)
    } else {
        test_kmer(graph, marks, label, o, x, Side::Back)
    }
}

// All windows of a label, up to one that is misplaced; where none is, all are marked.
fn test_label(graph: &Graph, marks: &mut [u8], label: &[u8]) -> Tested
    requires { Ready graph.now.k graph.now.keys.now marks.old × Label graph.now.k label.now }
    ensures { Stands graph.now.k graph.now.keys.now marks.old label.now result marks.new }
{
    let mut found = Tested::Fine;
    for o in 0..label.len() - graph.k + 1 {
        match test_window(graph, marks, label, o) {
            Tested::Misplaced => return Tested::Misplaced,
            Tested::BadStep => found = Tested::BadStep,
            Tested::Fine => {}
        }
    }
    found
}

// The labels in order, up to one with a misplaced k-mer, which is the Err; where there is none, the k-mers of all are
// marked.
pub(crate) fn try_labels(graph: &Graph, marks: &mut [u8], text: &[u8]) -> Result<AllPlaced, usize>
    requires { Ready graph.now.k graph.now.keys.now marks.old × Unvisited marks.old
        × (is_held (listing graph.now.k text.now) ≡ true) }
    ensures { Placed graph.now.k graph.now.keys.now marks.old text.now result marks.new }
{
    let mut bad = None;
    let mut i = 0;
    let mut at = 0;
    while at < text.len() {
        let label = places::label_at(text, at);
        match test_label(graph, marks, &text[label.start..label.end]) {
            Tested::Misplaced => return Err(i),
            Tested::BadStep => bad = bad.or(Some(i)),
            Tested::Fine => {}
        }
        i += 1;
        at = label.end + 1;
    }
    Ok(AllPlaced { labels: i, bad })
}

// A vertex with an edge is not marked.
pub(crate) fn lacks(marks: &[u8]) -> bool
    ensures { Lacking marks.now result }
{
    (0..marks.len()).any(|v| !marks::is_skipped(marks, v))
}
