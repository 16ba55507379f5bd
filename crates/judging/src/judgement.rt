// The whole judgement.
ghost use Rattle.std.specs.Prelude.{◌≡◌, Ok, true, ◌≤◌, length, take, replicate};
ghost use Rattle.dna.specs.Answer.{gives};
ghost use Rattle.state.specs.Says.{kind_of};
ghost use Rattle.graph.specs.Table.{table_of};
ghost use Rattle.graph.specs.Contraction.{ends_in};
ghost use Rattle.marks.specs.Marks.{ends};
ghost use Rattle.marks.specs.Ready.{keys_for, FitTable, Ready, Unvisited};
ghost use Rattle.rules.specs.Listing.{listing};
ghost use Rattle.rules.specs.Verdict.{verdict};
ghost use Rattle.rules.specs.Judging.{judge as judged, on_list};
ghost use Rattle.judging.specs.Places.{is_held};
ghost use Rattle.judging.specs.Passing.{labels_in};
ghost use Rattle.judging.specs.Answers.{judge_answer, Judges, ends_verdict, kmers_verdict};

use super::{Broken, Graph, JudgeError, ending, order, places, standing};
use state::EdgeKind;

// Rule 4 of a list that keeps the others.
fn judge_ends(graph: &Graph, marks: &[u8], text: &[u8]) -> Option<Broken>
    requires { Ready graph.now.k graph.now.keys.now marks.now × (is_held (listing graph.now.k text.now) ≡ true) }
    ensures { judge_answer (Ok result) ≡ gives (ends_verdict graph.now.k (keys_for marks.now graph.now.keys.now)
        (ends marks.now) (labels_in (listing graph.now.k text.now))) }
{
    let label = ending::first_loose(graph, marks, text)?;
    Some(Broken { rule: 4, label })
}

// Rules 2 to 4, by marks that hold each vertex's edges, none of them visited.
fn judge_kmers(graph: &Graph, marks: &mut [u8], text: &[u8]) -> Option<Broken>
    requires { Ready graph.now.k graph.now.keys.now marks.old × Unvisited marks.old
        × (is_held (listing graph.now.k text.now) ≡ true) }
    ensures { judge_answer (Ok result) ≡ gives (kmers_verdict graph.now.k (keys_for marks.old graph.now.keys.now)
        (ends marks.old) (labels_in (listing graph.now.k text.now))) }
{
    let all = match standing::try_labels(graph, marks, text) {
        Ok(all) => all,
        Err(label) => return Some(Broken { rule: 2, label }),
    };
    if standing::lacks(marks) {
        return Some(Broken {
            rule: 2,
            label: all.labels,
        });
    }
    match all.bad {
        Some(label) => Some(Broken { rule: 3, label }),
        None => judge_ends(graph, marks, text),
    }
}

// The k-mers are looked up by a directory of up to 64 KiB.
fn judge_directed(k: usize, keys: &[u64], marks: &mut [u8], text: &[u8]) -> Option<Broken>
    requires { Ready k keys.now marks.old × Unvisited marks.old × (is_held (listing k text.now) ≡ true) }
    ensures { judge_answer (Ok result) ≡ gives (kmers_verdict k (keys_for marks.old keys.now)
        (ends marks.old) (labels_in (listing k text.now))) }
{
    let mut cells = [0u32; 16385];
    let directory = &mut cells[..directory::cells_for(marks.len())];
    directory::make(k, marks.len(), keys, directory);
    judge_kmers(&Graph { k, keys, directory }, marks, text)
}

// A list over a fit table of as many vertices as there are marks, which are 0 afterwards.
fn judge_list(
    kind: EdgeKind,
    k: usize,
    cutoff: u32,
    keys: &[u64],
    counts: &[u32],
    text: &[u8],
    marks: &mut [u8],
) -> Option<Broken>
    requires { FitTable k keys.now counts.now marks.old × (is_held (listing k text.now) ≡ true) }
    ensures { (judge_answer (Ok result) ≡ gives (verdict k (keys_for marks.old keys.now)
        (ends_in (kind_of kind) cutoff (table_of (length marks.old) keys.now counts.now))
        (labels_in (listing k text.now)))) × (marks.new ≡ replicate (length marks.old) 0) }
{
    let broken = match order::first_out(text) {
        Some(label) => Some(Broken { rule: 1, label }),
        None => {
            marks::digest(kind, counts, cutoff, marks);
            judge_directed(k, keys, marks, text)
        }
    };
    marks::clear(marks);
    broken
}

// A FASTA text judged over a table at a cutoff, or the first of the refusals 1, 5, 15, 7, 16, 17 that is due.
pub fn judge(
    kind: EdgeKind,
    k: usize,
    cutoff: u32,
    n: usize,
    keys: &[u64],
    counts: &[u32],
    text: &[u8],
    marks: &mut [u8],
) -> Result<Option<Broken>, JudgeError>
    ensures { Judges result marks.new (judged (kind_of kind) k cutoff n keys.now counts.now
        text.now marks.old) }
{
    table::fit(kind, k, n, keys, counts)?;
    if !state::answers_for(kind, cutoff) {
        return Err(JudgeError::WrongCutoff);
    }
    if marks.len() < n {
        return Err(JudgeError::FewMarks);
    }
    if k % 2 == 0 {
        return Err(JudgeError::EvenK);
    }
    if !places::is_list(k, text) {
        return Err(JudgeError::NoList);
    }
    Ok(judge_list(kind, k, cutoff, keys, counts, text, &mut marks[..n]))
}
