// Whether a window's edges are those of its neighbours in the label.
ghost use Rattle.std.specs.Prelude.{◌≡◌, ◌+◌, ◌≤◌, ◌<◌, length};
ghost use Rattle.kmer.proofs.Windows.{Bases};
ghost use Rattle.graph.specs.Walks.{leaving as leavingBy};
ghost use Rattle.marks.specs.Marks.{end_in};
ghost use Rattle.judging.specs.Standing.{followed, preceded, joined_by};

use state::Side;

// The code of the base that an edge appends: on Front it is complemented. N and E are none.
fn leaving(side: Side, edge: u8) -> u8
    ensures { result ≡ leavingBy side edge }
{
    match side {
        Side::Front if edge < 4 => 3 - edge,
        _ => edge,
    }
}

// A base is that of the letter behind window o, if there is one.
fn leads_on(k: usize, label: &[u8], o: usize, base: u8) -> bool
    requires { Bases label.now × (o + k ≤ length label.now) }
    ensures { result ≡ followed k label.now o base }
{
    label.len() <= o + k || base == dna::valid_ascii_base_bits(label[o + k])
}

// A base is the complement of that of the letter before window o, if there is one.
fn leads_back(label: &[u8], o: usize, base: u8) -> bool
    requires { Bases label.now × (o ≤ length label.now) }
    ensures { result ≡ preceded label.now o base }
{
    o == 0 || base == 3 - dna::valid_ascii_base_bits(label[o - 1])
}

// The edges in the mark of window o, which is left by a side, are those of its neighbours.
pub(crate) fn is_joined(k: usize, label: &[u8], o: usize, side: Side, mark: u8) -> bool
    requires { Bases label.now × (o + k ≤ length label.now) }
    ensures { result ≡ joined_by k label.now o side (end_in mark) }
{
    let other = side.inverse();
    leads_on(k, label, o, leaving(side, marks::edge_in(mark, side)))
        && leads_back(label, o, leaving(other, marks::edge_in(mark, other)))
}
