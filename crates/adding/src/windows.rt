// A label's windows, one at a time.
ghost use Rattle.std.specs.Prelude.{◌≡◌, ◌+◌, ◌≤◌, length};
ghost use Rattle.dna.specs.Calls.{code_in};
ghost use Rattle.dna.specs.Letters.{valid_bits};
ghost use Rattle.graph.specs.Sightings.{predecessor, successor};
ghost use Rattle.adding.specs.Batch.{code_at};
ghost use Rattle.adding.specs.Says.{rule_of, skipped, Given, Sees, Follows};

use super::{Mode, Seen};
use dna::Base;
use kmer::Kmer;

// Window o, packed from the part of the label that starts at its offset.
pub(crate) fn see(k: usize, label: &[u8], o: usize) -> Seen
    requires { Given k label.now × (o + k ≤ length label.now) }
    ensures { Sees k label.now o result }
{
    let e = o + k;
    let x = Kmer::from_ascii(k, &label[o..e]).unwrap();
    let c = x.canonical(k).unwrap();
    Seen {
        kmer: c,
        straight: !c.is_less(x),
    }
}

// A window's predecessor is left uncounted, by what is seen of it and of the window before.
fn skips(mode: Mode, previous: Seen, here: Seen) -> bool
    ensures { result ≡ skipped mode previous here }
{
    let same = previous.kmer.is_same(here.kmer);
    match mode {
        Mode::SameCanonical => same,
        Mode::Reversed => previous.straight != here.straight && same,
    }
}

// A letter that is known to be a base.
fn base_of(letter: u8) -> Base
    ensures { code_in result ≡ valid_bits letter }
{
    Base::from_bits(dna::valid_ascii_base_bits(letter))
}

// The base before window o; E where there is none, or where it is left uncounted.
fn before_of(
    mode: Mode,
    k: usize,
    label: &[u8],
    o: usize,
    previous: Option<Seen>,
    here: Seen,
) -> Base
    requires { Given k label.now × (o + k ≤ length label.now) × Follows k label.now o previous here }
    ensures { code_in result ≡ predecessor (rule_of mode) k label.now o }
{
    match previous {
        None => Base::E,
        Some(previous) if skips(mode, previous, here) => Base::E,
        Some(_) => base_of(label[o - 1]),
    }
}

// The base after window o, E where there is none.
fn after_of(k: usize, label: &[u8], o: usize) -> Base
    requires { Given k label.now × (o + k ≤ length label.now) }
    ensures { code_in result ≡ successor k label.now o }
{
    match label.get(o + k) {
        Some(&byte) => base_of(byte),
        None => Base::E,
    }
}

// Window o's neighbours in one number: seen canonical, its predecessor on Front and its successor on Back; otherwise
// the successor's complement on Front and the predecessor's complement on Back.
pub(crate) fn code_of(
    mode: Mode,
    k: usize,
    label: &[u8],
    o: usize,
    previous: Option<Seen>,
    seen: Seen,
) -> u8
    requires { Given k label.now × (o + k ≤ length label.now) × Follows k label.now o previous seen }
    ensures { result ≡ code_at (rule_of mode) k label.now o }
{
    let before = before_of(mode, k, label, o, previous, seen);
    let after = after_of(k, label, o);
    if seen.straight {
        before.bits() + 8 * after.bits()
    } else {
        after.complement().bits() + 8 * before.complement().bits()
    }
}
