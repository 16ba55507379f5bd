// A list judged by the table of a label file.
ghost use Rattle.std.specs.Prelude.{◌≡◌, ℕ, List};
ghost use Rattle.dna.specs.Answer.{fill};
ghost use Rattle.judging.specs.Answers.{judge_answer};
ghost use Rattle.label_file.specs.Judged.{answer_line, lent_few, judgement};
ghost use Rattle.label_file.specs.Output.{refusal, with_text};
ghost use Rattle.label_file.specs.Reasons.{number_of};
ghost use Rattle.label_file.specs.Says.{Lists, line_of};

use super::form::Head;
use super::list::Taken;
use super::refusal::{Reason, Refusal};
use super::{form, line, list};
use dna::{NoRoom, copy};
use judging::{Broken, JudgeError};
use state::EdgeKind;

// The refusal of a list after so many records. K, which `EvenK` is about, stands in record 0.
fn refused(error: JudgeError, records: usize) -> Refusal
    ensures { answer_line records (judge_answer (Err error)) ≡ refusal (number_of result.reason) result.at }
{
    match error {
        JudgeError::EvenK => Refusal {
            reason: Reason::EvenK,
            at: 0,
        },
        _ => Refusal {
            reason: Reason::from(error),
            at: records,
        },
    }
}

// A list judged by the table of a file's labels.
fn judge_file(
    file: &[u8],
    list: &[u8],
    keys: &mut [u64],
    counts: &mut [u32],
    marks: &mut [u8],
) -> Result<Option<Broken>, Refusal>
    ensures { (text : List ℕ) →
        judgement (lent_few keys.old counts.old marks.old text) file.now list.now
        ≡ with_text (lent_few keys.new counts.new marks.new text) (fill 11 (line_of result) text) }
{
    let Head { k, cutoff } = form::read_head(file)?;
    let Taken { vertices, records } = list::take_labels(file, k, keys, counts)?;
    match judging::judge(
        EdgeKind::Counted,
        k,
        cutoff,
        vertices,
        keys,
        counts,
        list,
        marks,
    ) {
        Ok(verdict) => Ok(verdict),
        Err(error) => Err(refused(error, records)),
    }
}

// What the program prints for a label file and a list, in the text: the line of a verdict or of a refusal.
pub fn judge_list(
    file: &[u8],
    list: &[u8],
    keys: &mut [u64],
    counts: &mut [u32],
    marks: &mut [u8],
    text: &mut [u8],
) -> Result<usize, NoRoom>
    ensures { Lists result (lent_few keys.new counts.new marks.new text.new)
        (judgement (lent_few keys.old counts.old marks.old text.old) file.now list.now) }
{
    match judge_file(file, list, keys, counts, marks) {
        Ok(None) => copy(b"yes\n", text),
        Ok(Some(Broken { rule, label })) => line::tell(b"no ", usize::from(rule), label, text),
        Err(why) => line::refuse(why, text),
    }
}
