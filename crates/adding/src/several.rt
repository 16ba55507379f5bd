// Many labels added by one call: the table is tested for the first of them alone.
ghost use Rattle.std.specs.Prelude.{◌≡◌, true};
ghost use Rattle.state.specs.Says.{kind_of};
ghost use Rattle.label_index.specs.Entries.{within, listed};
ghost use Rattle.graph.specs.Adding.{add_label};
ghost use Rattle.graph.specs.Several.{untried, add_each, add_labels};
ghost use Rattle.adding.specs.Says.{rule_of, Ready, Adds, AddsLabels};

use super::{AddError, Addition, Additions, Mode, OutOfText, Settings};
use state::EdgeKind;

impl Settings {
    // A label added to a table that is known to be fit, or not known yet.
    fn add_next(
        self,
        is_fit: bool,
        n: usize,
        keys: &mut [u64],
        counts: &mut [u32],
        label: &[u8],
    ) -> Result<Addition, AddError>
        requires { is_fit ≡ true → Ready (kind_of self.kind) self.k n keys.old counts.old }
        ensures { Adds result keys.new counts.new
            (add_label (kind_of self.kind) (rule_of self.mode) self.k n keys.old counts.old label.now) }
    {
        if is_fit {
            self.add_to_fit(n, keys, counts, label)
        } else {
            self.add(n, keys, counts, label)
        }
    }

    // The labels of an index that lies within its text. A label that was added leaves a fit table.
    fn add_each(
        self,
        n: usize,
        keys: &mut [u64],
        counts: &mut [u32],
        text: &[u8],
        starts: &[u32],
        lengths: &[u32],
        count: usize,
    ) -> Additions
        requires { within text.now count starts.now lengths.now ≡ true }
        ensures { AddsLabels n (Ok result) keys.new counts.new
            (add_each (kind_of self.kind) (rule_of self.mode) self.k (untried n keys.old counts.old)
            (listed count text.now starts.now lengths.now)) }
    {
        let mut last = Addition {
            edges: 0,
            stored: n,
        };
        for i in 0..count {
            let start = starts[i] as usize;
            let end = start + lengths[i] as usize;
            let answer = self.add_next(0 < i, last.stored, keys, counts, &text[start..end]);
            let Ok(added) = answer else {
                return Additions {
                    labels: i,
                    stored: last.stored,
                    last: answer,
                };
            };
            last = added;
        }
        Additions {
            labels: count,
            stored: last.stored,
            last: Ok(last),
        }
    }
}

// The labels of an index's first entries, in order, until one is refused.
pub fn add_labels(
    kind: EdgeKind,
    mode: Mode,
    k: usize,
    n: usize,
    keys: &mut [u64],
    counts: &mut [u32],
    text: &[u8],
    starts: &[u32],
    lengths: &[u32],
    count: usize,
) -> Result<Additions, OutOfText>
    ensures { AddsLabels n result keys.new counts.new
        (add_labels (kind_of kind) (rule_of mode) k n keys.old counts.old text.now starts.now lengths.now count) }
{
    if !label_index::lie_within(text, starts, lengths, count) {
        return Err(OutOfText);
    }
    Ok(Settings { kind, mode, k }.add_each(n, keys, counts, text, starts, lengths, count))
}
