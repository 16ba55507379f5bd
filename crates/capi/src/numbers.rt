// How an answer is told to C: a number, and figures in the first cells of a lent slice.
#![tactic(auto, using(crate::proofs::Noting::noted_none))]

ghost use Rattle.std.specs.Prelude.{◌≡◌, ℕ, List, [], ◌∷◌, Ok, Err};
ghost use Rattle.adding.specs.Says.{add_answer};
ghost use Rattle.contraction.specs.Says.{contract_answer};
ghost use Rattle.judging.specs.Answers.{judge_answer};
ghost use Rattle.fasta.specs.Says.{fasta_answer};
ghost use Rattle.panel.specs.Says.{panel_answer};
ghost use Rattle.colours.specs.Says.{refusal_of};
ghost use Rattle.capi.specs.Says.{number_of, figures, noted, of_edges, of_totals, of_verdict, either};

use adding::{AddError, Addition, OutOfText};
use colours::{ColorCoordinate, ColorError, OutOfRange, UnitigColor};
use contraction::{ContractError, Unitigs};
use fasta::FastaError;
use judging::{Broken, JudgeError};
use panel::PanelError;

// What a call answers: 0 with the figures asked for, or a refusal's number with what is returned beside it.
pub(crate) trait Tell {
    ghost number: { Self → ℕ };

    ghost values: { Self → List ℕ };

    fn tell(self, figures: &mut [u64]) -> u32
        ensures number { result ≡ number self }
        ensures noted { figures.new ≡ noted (values self) figures.old };
}

// Figures in the first cells of a slice, as many as it has room for.
pub(crate) fn note(values: &[u64], figures: &mut [u64])
    ensures { figures.new ≡ noted values.now figures.old }
{
    for (i, &value) in values.iter().enumerate() {
        if i < figures.len() {
            figures[i] = value;
        }
    }
}

impl<T: Tell, E: Tell> Tell for Result<T, E> {
    ghost number = { either T.number E.number };

    ghost values = { either T.values E.values };

    fn tell(self, figures: &mut [u64]) -> u32 {
        match self {
            Ok(value) => value.tell(figures),
            Err(error) => error.tell(figures),
        }
    }
}

impl Tell for () {
    ghost number = { λ _. 0 };

    ghost values = { λ _. [] };

    fn tell(self, _figures: &mut [u64]) -> u32 {
        0
    }
}

impl Tell for usize {
    ghost number = { λ _. 0 };

    ghost values = { λ n. n ∷ [] };

    fn tell(self, figures: &mut [u64]) -> u32 {
        note(&[self as u64], figures);
        0
    }
}

impl Tell for (u64, u64) {
    ghost number = { λ _. 0 };

    ghost values = { λ p. p.0 ∷ p.1 ∷ [] };

    fn tell(self, figures: &mut [u64]) -> u32 {
        note(&[self.0, self.1], figures);
        0
    }
}

impl Tell for Addition {
    ghost number = { λ _. 0 };

    ghost values = { λ a. a.edges ∷ a.stored ∷ [] };

    fn tell(self, figures: &mut [u64]) -> u32 {
        note(&[self.edges as u64, self.stored as u64], figures);
        0
    }
}

impl Tell for AddError {
    ghost number = { λ e. number_of (add_answer (Err e)) };

    ghost values = { λ e. figures of_edges (add_answer (Err e)) };

    fn tell(self, figures: &mut [u64]) -> u32 {
        match self {
            AddError::UnsupportedK(k) => {
                note(&[k as u64], figures);
                1
            }
            AddError::InvalidBase { place, byte } => {
                note(&[place as u64, u64::from(byte)], figures);
                3
            }
            AddError::TooLong(length) => {
                note(&[length as u64], figures);
                4
            }
            AddError::Unfit => 5,
            AddError::Full => 6,
        }
    }
}

impl Tell for OutOfText {
    ghost number = { λ _. 12 };

    ghost values = { λ _. [] };

    fn tell(self, _figures: &mut [u64]) -> u32 {
        12
    }
}

impl Tell for Unitigs {
    ghost number = { λ _. 0 };

    ghost values = { λ u. u.labels ∷ u.bases ∷ [] };

    fn tell(self, figures: &mut [u64]) -> u32 {
        note(&[self.labels as u64, self.bases as u64], figures);
        0
    }
}

impl Tell for ContractError {
    ghost number = { λ e. number_of (contract_answer (Err e)) };

    ghost values = { λ e. figures of_totals (contract_answer (Err e)) };

    fn tell(self, figures: &mut [u64]) -> u32 {
        match self {
            ContractError::UnsupportedK(k) => {
                note(&[k as u64], figures);
                1
            }
            ContractError::Unfit => 5,
            ContractError::FewMarks => 7,
            ContractError::MissingVertex => 8,
            ContractError::NoRoom => 9,
            ContractError::WrongCutoff => 15,
        }
    }
}

// The rule and the label, 0 and 0 where the list passes.
impl Tell for Option<Broken> {
    ghost number = { λ _. 0 };

    ghost values = { λ b. figures of_verdict (judge_answer (Ok b)) };

    fn tell(self, figures: &mut [u64]) -> u32 {
        match self {
            None => note(&[0, 0], figures),
            Some(broken) => note(&[u64::from(broken.rule), broken.label as u64], figures),
        }
        0
    }
}

impl Tell for JudgeError {
    ghost number = { λ e. number_of (judge_answer (Err e)) };

    ghost values = { λ e. figures of_verdict (judge_answer (Err e)) };

    fn tell(self, figures: &mut [u64]) -> u32 {
        match self {
            JudgeError::UnsupportedK(k) => {
                note(&[k as u64], figures);
                1
            }
            JudgeError::Unfit => 5,
            JudgeError::FewMarks => 7,
            JudgeError::WrongCutoff => 15,
            JudgeError::EvenK => 16,
            JudgeError::NoList => 17,
        }
    }
}

impl Tell for FastaError {
    ghost number = { λ e. number_of (fasta_answer (Err e)) };

    ghost values = { λ _. [] };

    fn tell(self, _figures: &mut [u64]) -> u32 {
        match self {
            FastaError::NoRoom => 11,
            FastaError::OutOfLabels => 12,
        }
    }
}

impl Tell for PanelError {
    ghost number = { λ e. number_of (panel_answer (Err e)) };

    ghost values = { λ _. [] };

    fn tell(self, _figures: &mut [u64]) -> u32 {
        match self {
            PanelError::OutOfProfile => 26,
            PanelError::WrongBounds => 27,
            PanelError::OutOfLabels => 12,
            PanelError::NoRoom => 28,
        }
    }
}

impl Tell for ColorCoordinate {
    ghost number = { λ _. 0 };

    ghost values = { λ c. c.0 ∷ [] };

    fn tell(self, figures: &mut [u64]) -> u32 {
        note(&[self.0], figures);
        0
    }
}

impl Tell for UnitigColor {
    ghost number = { λ _. 0 };

    ghost values = { λ r. r.0 ∷ [] };

    fn tell(self, figures: &mut [u64]) -> u32 {
        note(&[self.0], figures);
        0
    }
}

impl Tell for OutOfRange {
    ghost number = { λ _. 22 };

    ghost values = { λ _. [] };

    fn tell(self, _figures: &mut [u64]) -> u32 {
        22
    }
}

impl Tell for ColorError {
    ghost number = { refusal_of };

    ghost values = { λ _. [] };

    fn tell(self, _figures: &mut [u64]) -> u32 {
        match self {
            ColorError::NoRoom => 9,
            ColorError::BrokenRuns => 23,
            ColorError::PastLabel => 24,
        }
    }
}
