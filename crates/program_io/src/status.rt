// The status of a program, which it writes as a digit to descriptor 3 where it is asked to.
ghost use Rattle.std.specs.Prelude.{◌≡◌, ◌≤◌};
ghost use Rattle.program_io.specs.declared.status.Status.TheVariants.{Answered, Refused, NoAnswer};

use program_lines::exit_status;

#[derive(Clone, Copy, PartialEq, Eq)]
pub enum Status {
    // An answer that is no refusal, written whole.
    Answered,

    // A refusal, written whole.
    Refused,

    // Wrong arguments, a text that can't be read, or a write that failed.
    NoAnswer,
}

// A status by its number; each number but 0 and 1 stands for no answer.
impl From<u8> for Status {
    ghost from_gives = { λ number status. (number ≡ 0 → status ≡ Answered) × (number ≡ 1 → status ≡ Refused) × (2 ≤ number → status ≡ NoAnswer) };

    fn from(number: u8) -> Status {
        match number {
            0 => Status::Answered,
            1 => Status::Refused,
            _ => Status::NoAnswer,
        }
    }
}

impl Status {
    // That of an answer that is written whole.
    pub fn of(answer: &[u8]) -> Status {
        match exit_status(answer) {
            0 => Status::Answered,
            _ => Status::Refused,
        }
    }

    pub fn digit(self) -> [u8; 1] {
        match self {
            Status::Answered => *b"0",
            Status::Refused => *b"1",
            Status::NoAnswer => *b"2",
        }
    }
}
