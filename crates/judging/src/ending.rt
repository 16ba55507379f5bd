// Rule 4.
ghost use Rattle.std.specs.Prelude.{◌≡◌, true, []};
ghost use Rattle.rules.specs.Listing.{Label, listing};
ghost use Rattle.rules.specs.Verdict.{breaks4};
ghost use Rattle.marks.specs.Marks.{ends};
ghost use Rattle.marks.specs.Ready.{keys_for, Ready};
ghost use Rattle.judging.specs.Places.{is_held};
ghost use Rattle.judging.specs.Passing.{labels_in, Finds};

use super::{Graph, places};

// An end of a label is loose.
fn has_loose_end(graph: &Graph, marks: &[u8], label: &[u8]) -> bool
    requires { Ready graph.now.k graph.now.keys.now marks.now × Label graph.now.k label.now }
    ensures { result ≡ breaks4 graph.now.k (keys_for marks.now graph.now.keys.now) (ends marks.now) []
        label.now }
{
    let first = graph.see_window(marks, label, 0);
    let last = graph.see_window(marks, label, label.len() - graph.k);
    graph.is_loose(marks, first, last) || graph.is_loose(marks, last.turned(), first.turned())
}

// The first label with a loose end.
pub(crate) fn first_loose(graph: &Graph, marks: &[u8], text: &[u8]) -> Option<usize>
    requires { Ready graph.now.k graph.now.keys.now marks.now × (is_held (listing graph.now.k text.now) ≡ true) }
    ensures { Finds (breaks4 graph.now.k (keys_for marks.now graph.now.keys.now) (ends marks.now))
        (labels_in (listing graph.now.k text.now)) result }
{
    let mut i = 0;
    let mut at = 0;
    while at < text.len() {
        let label = places::label_at(text, at);
        if has_loose_end(graph, marks, &text[label.start..label.end]) {
            return Some(i);
        }
        i += 1;
        at = label.end + 1;
    }
    None
}
