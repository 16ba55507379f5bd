// Whether the words of a table have no bit outside those of their kind.
ghost use Rattle.std.specs.Prelude.{◌≡◌, ◌≤◌, length, take};
ghost use Rattle.state.specs.Counted.{presence, word_fits};
ghost use Rattle.state.specs.Says.{kind_of};
ghost use Rattle.graph.specs.Table.{words_fit};

use state::EdgeKind;

// Presence bits stand at bits 3 to 10.
fn is_presence(word: u32) -> bool
    ensures { result ≡ word_fits presence word }
{
    word % 8 == 0 && word < 2048
}

// The bits of the first n words put together. No word ends the loop, so that the compiler can take several at a time.
fn bits_of(n: usize, counts: &[u32]) -> u32
    requires { n ≤ length counts.now }
    ensures { word_fits presence result ≡ words_fit presence (take n counts.now) }
{
    counts[..n].iter().fold(0, |bits, word| bits | *word)
}

// Counters fill their word: each is fit.
pub(crate) fn words_fit(kind: EdgeKind, n: usize, counts: &[u32]) -> bool
    requires { n ≤ length counts.now }
    ensures { result ≡ words_fit (kind_of kind) (take n counts.now) }
{
    match kind {
        EdgeKind::Counted => true,
        EdgeKind::Presence => is_presence(bits_of(n, counts)),
    }
}
