// K-mers with what the table says of them.
ghost use Rattle.std.specs.Prelude.{◌≡◌, true, ℕ, ◌+◌, ◌^◌, ◌≤◌, ◌<◌, length};
ghost use Rattle.kmer.specs.Kmer.{ok_k};
ghost use Rattle.kmer.specs.Says.{value_of};
ghost use Rattle.kmer.proofs.Windows.{Bases};
ghost use Rattle.graph.specs.Sightings.{window};
ghost use Rattle.marks.specs.Marks.{end_in, ends};
ghost use Rattle.marks.specs.Ready.{keys_for, Ready};
ghost use Rattle.rules.specs.Verdict.{is_one_base, apart, loose_end};
ghost use Rattle.judging.specs.Says.{Sees, Kmers, turned_of, exit_of, after_of, leads_by, step_by, lesser_of};

use super::{Graph, Seen};
use dna::Base;
use kmer::Kmer;
use state::Side;

// The mark of a vertex without edges.
const NO_EDGES: u8 = 45;

// The smaller of two k-mers, one the reverse complement of the other.
fn lesser(here: Kmer, other: Kmer) -> Kmer
    ensures { value_of result ≡ lesser_of here other }
{
    if other.is_less(here) { other } else { here }
}

impl Seen {
    // The same k-mer on the other strand.
    pub(crate) fn turned(self) -> Seen
        ensures { result ≡ turned_of self }
    {
        Seen {
            here: self.other,
            other: self.here,
            mark: self.mark,
        }
    }

    // The side by which it is left as it stands: Back if it is canonical, else Front.
    fn exit(self) -> Side
        ensures { result ≡ exit_of self }
    {
        if self.other.is_less(self.here) {
            Side::Front
        } else {
            Side::Back
        }
    }

    // The k-mer that follows by the only edge retained on a side.
    fn after(self, k: usize, side: Side) -> Kmer
        requires { Kmers k self × (end_in self.mark side < 4) }
        ensures { value_of result ≡ after_of k self side }
    {
        let base = marks::leaving_base(side, marks::edge_in(self.mark, side));
        self.here.roll_forward(k, base).unwrap()
    }

    // The only edge retained on a side leads to y.
    fn leads_to(self, k: usize, side: Side, y: Kmer) -> bool
        requires { Kmers k self }
        ensures { result ≡ leads_by k self side (value_of y) }
    {
        marks::edge_in(self.mark, side) < 4 && self.after(k, side).is_same(y)
    }

    fn canonical(self) -> Kmer
        ensures { value_of result ≡ lesser_of self.here self.other }
    {
        lesser(self.here, self.other)
    }
}

// One edge leads from x to y and, on the other strand, back, and is the only one on its side at both ends.
fn is_step(k: usize, x: Seen, y: Seen) -> bool
    requires { Kmers k x × Kmers k y }
    ensures { result ≡ step_by k x y }
{
    x.leads_to(k, x.exit(), y.here) && y.turned().leads_to(k, y.exit().inverse(), x.other)
}

// One repeated base: the k-mer follows itself.
fn is_one_base(k: usize, x: Kmer) -> bool
    requires { (ok_k k ≡ true) × (value_of x < 4 ^ k) }
    ensures { result ≡ is_one_base k (value_of x) }
{
    let last = Base::from_bits((x.words[0] % 4) as u8);
    x.roll_forward(k, last).unwrap().is_same(x)
}

// The canonical form d is another k-mer's than c and f, and neither c nor d is one repeated base.
fn is_apart(k: usize, c: Kmer, d: Kmer, f: Kmer) -> bool
    requires { (ok_k k ≡ true) × (value_of c < 4 ^ k) × (value_of d < 4 ^ k) }
    ensures { result ≡ apart k (value_of c) (value_of d) (value_of f) }
{
    !d.is_same(c) && !is_one_base(k, c) && !is_one_base(k, d) && !d.is_same(f)
}

impl Graph<'_> {
    // A k-mer and its reverse complement, looked up.
    fn see(&self, marks: &[u8], x: Kmer) -> Seen
        requires { Ready self.now.k self.now.keys.now marks.now × (value_of x < 4 ^ self.now.k) }
        ensures { Sees self.now.k (keys_for marks.now self.now.keys.now) (ends marks.now) (value_of x) result }
    {
        let y = x.reverse_complement(self.k).unwrap();
        let mark = match directory::find(
            self.k,
            marks.len(),
            self.keys,
            self.directory,
            lesser(x, y),
        ) {
            Ok(v) => marks[v],
            Err(_) => NO_EDGES,
        };
        Seen {
            here: x,
            other: y,
            mark,
        }
    }

    // A window of a label, looked up.
    pub(crate) fn see_window(&self, marks: &[u8], label: &[u8], o: usize) -> Seen
        requires { Ready self.now.k self.now.keys.now marks.now × Bases label.now
            × (o + self.now.k ≤ length label.now) }
        ensures { Sees self.now.k (keys_for marks.now self.now.keys.now) (ends marks.now)
            (window self.now.k label.now o) result }
    {
        let x = Kmer::from_ascii(self.k, &label[o..o + self.k]).unwrap();
        self.see(marks, x)
    }

    // A row of windows ends with x and begins with f: x is joined by such an edge with another k-mer than f, and
    // neither is one repeated base.
    pub(crate) fn is_loose(&self, marks: &[u8], f: Seen, x: Seen) -> bool
        requires { Ready self.now.k self.now.keys.now marks.now × Kmers self.now.k f × Kmers self.now.k x }
        ensures { (n m : ℕ) → Sees self.now.k (keys_for marks.now self.now.keys.now) (ends marks.now) n f
            → Sees self.now.k (keys_for marks.now self.now.keys.now) (ends marks.now) m x → result
            ≡ loose_end self.now.k (keys_for marks.now self.now.keys.now) (ends marks.now) n m }
    {
        let side = x.exit();
        if 3 < marks::edge_in(x.mark, side) {
            return false;
        }
        let y = self.see(marks, x.after(self.k, side));
        is_step(self.k, x, y) && is_apart(self.k, x.canonical(), y.canonical(), f.canonical())
    }
}
