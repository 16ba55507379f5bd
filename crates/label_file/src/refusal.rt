// What a file is refused for.
ghost use Rattle.std.specs.Prelude.{◌≡◌, Err};
ghost use Rattle.adding.specs.Says.{add_answer};
ghost use Rattle.contraction.specs.Says.{contract_answer};
ghost use Rattle.fasta.specs.Says.{fasta_answer};
ghost use Rattle.judging.specs.Answers.{judge_answer};
ghost use Rattle.label_file.specs.Reasons.{number_of, Numbers};

use adding::AddError;
use contraction::ContractError;
use fasta::FastaError;
use judging::JudgeError;

// Why a file, or the list that is judged by it, is refused.
#[derive(Clone, Copy, PartialEq, Eq, Debug)]
pub(crate) enum Reason {
    UnsupportedK,
    InvalidBase,
    TooLong,
    Unfit,
    Full,
    FewMarks,
    MissingVertex,
    ManyBases,
    ManyBytes,
    OutOfLabels,
    Damaged,
    WrongCutoff,
    EvenK,
    NoList,
}

// A refusal and the record that it is about.
#[derive(Clone, Copy, PartialEq, Eq, Debug)]
pub(crate) struct Refusal {
    pub(crate) reason: Reason,
    pub(crate) at: usize,
}

impl Reason {
    // The number that is printed.
    pub(crate) fn number(self) -> usize
        ensures { result ≡ number_of self }
    {
        match self {
            Reason::UnsupportedK => 1,
            Reason::InvalidBase => 3,
            Reason::TooLong => 4,
            Reason::Unfit => 5,
            Reason::Full => 6,
            Reason::FewMarks => 7,
            Reason::MissingVertex => 8,
            Reason::ManyBases => 9,
            Reason::ManyBytes => 11,
            Reason::OutOfLabels => 12,
            Reason::Damaged => 13,
            Reason::WrongCutoff => 15,
            Reason::EvenK => 16,
            Reason::NoList => 17,
        }
    }
}

impl From<AddError> for Reason {
    ghost from_gives = { λ e r. Numbers (add_answer (Err e)) r };

    fn from(error: AddError) -> Reason {
        match error {
            AddError::UnsupportedK(_) => Reason::UnsupportedK,
            AddError::InvalidBase { .. } => Reason::InvalidBase,
            AddError::TooLong(_) => Reason::TooLong,
            AddError::Unfit => Reason::Unfit,
            AddError::Full => Reason::Full,
        }
    }
}

impl From<ContractError> for Reason {
    ghost from_gives = { λ e r. Numbers (contract_answer (Err e)) r };

    fn from(error: ContractError) -> Reason {
        match error {
            ContractError::UnsupportedK(_) => Reason::UnsupportedK,
            ContractError::Unfit => Reason::Unfit,
            ContractError::WrongCutoff => Reason::WrongCutoff,
            ContractError::FewMarks => Reason::FewMarks,
            ContractError::MissingVertex => Reason::MissingVertex,
            ContractError::NoRoom => Reason::ManyBases,
        }
    }
}

impl From<FastaError> for Reason {
    ghost from_gives = { λ e r. Numbers (fasta_answer (Err e)) r };

    fn from(error: FastaError) -> Reason {
        match error {
            FastaError::NoRoom => Reason::ManyBytes,
            FastaError::OutOfLabels => Reason::OutOfLabels,
        }
    }
}

impl From<JudgeError> for Reason {
    ghost from_gives = { λ e r. Numbers (judge_answer (Err e)) r };

    fn from(error: JudgeError) -> Reason {
        match error {
            JudgeError::UnsupportedK(_) => Reason::UnsupportedK,
            JudgeError::Unfit => Reason::Unfit,
            JudgeError::WrongCutoff => Reason::WrongCutoff,
            JudgeError::FewMarks => Reason::FewMarks,
            JudgeError::EvenK => Reason::EvenK,
            JudgeError::NoList => Reason::NoList,
        }
    }
}
