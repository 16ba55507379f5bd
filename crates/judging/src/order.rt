// Rule 1.
ghost use Rattle.std.specs.Prelude.{◌≡◌, true, List, ℕ, ◌≤◌, IfSome, length};
ghost use Rattle.rules.specs.Listing.{listing};
ghost use Rattle.rules.specs.Verdict.{not_behind, breaks1};
ghost use Rattle.judging.specs.Places.{is_held};
ghost use Rattle.judging.specs.Passing.{labels_in, Finds, Follows, spanned};

use super::{Span, places};

// A label does not stand behind the one before it, if there is one.
fn is_not_behind(text: &[u8], before: Option<Span>, label: Span) -> bool
    requires { IfSome before (λ b. b.start ≤ b.end) × (label.start ≤ label.end) }
    ensures { (done : List (List ℕ)) → Follows text.now before done → result
        ≡ not_behind done (spanned text.now label) }
{
    match before {
        Some(b) => sorting::compare(
            text,
            b.start,
            b.end - b.start,
            label.start,
            label.end - label.start,
        )
        .is_ge(),
        None => false,
    }
}

// Label i is out of order.
fn is_out(text: &[u8], before: Option<Span>, label: Span) -> bool
    requires { IfSome before (λ b. b.start ≤ b.end) × (label.start ≤ label.end) × (label.end ≤ length text.now) }
    ensures { (done : List (List ℕ)) → Follows text.now before done → result
        ≡ breaks1 done (spanned text.now label) }
{
    is_not_behind(text, before, label) || strands::is_above(&text[label.start..label.end])
}

// The first label out of order.
pub(crate) fn first_out(text: &[u8]) -> Option<usize>
    requires { (K : ℕ) × (is_held (listing K text.now) ≡ true) }
    ensures { (K : ℕ) → is_held (listing K text.now) ≡ true
        → Finds breaks1 (labels_in (listing K text.now)) result }
{
    let mut before = None;
    let mut i = 0;
    let mut at = 0;
    while at < text.len() {
        let label = places::label_at(text, at);
        if is_out(text, before, label) {
            return Some(i);
        }
        before = Some(label);
        i += 1;
        at = label.end + 1;
    }
    None
}
