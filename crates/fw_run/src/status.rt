//! How a command ended.
ghost use Rattle.std.specs.Prelude.{◌≡◌, Contains};
ghost use Rattle.fw_run.specs.Status as spec;
ghost use Rattle.fw_run.specs.Status.{refusal_of, status_number, status_numbers};

use fw_lines::{Code, Refusal};

/// How a command ended.
#[derive(Clone, Copy, Debug, PartialEq, Eq)]
pub enum Status {
    /// All that the command prints was written.
    Done,
    /// The words are not those of a command.
    BadWords,
    /// A text is not accepted.
    Refused(Refusal),
    /// The folder failed.
    ReadFault,
    /// The output failed.
    WriteFault,
    /// The store failed.
    StoreFault,
    /// The bytes that the store gave under this id spell no record of what was written under it.
    Damaged { id: u64 },
    /// The bytes that the store gave under this id spell no root, as a held run puts one there.
    DamagedRoot { id: u64 },
    /// Memory was refused.
    NoMemory,
    /// The store holds the root of a held run of other texts.
    ForeignRoot,
}

impl Status {
    /// The number that a program ends with: 0 or 2 to 11.
    pub fn number(&self) -> u8
        ensures value { result ≡ status_number self.now }
        ensures among { Contains status_numbers result }
    {
        match self {
            Status::Done => 0,
            Status::BadWords => 2,
            Status::Refused(refusal) => refusal_number(refusal.code),
            Status::ReadFault => 6,
            Status::WriteFault => 7,
            Status::StoreFault => 8,
            Status::Damaged { .. } | Status::DamagedRoot { .. } => 9,
            Status::NoMemory => 10,
            Status::ForeignRoot => 11,
        }
    }

    /// The refusal, where a text is refused.
    pub fn refusal(&self) -> Option<Refusal>
        ensures { result ≡ refusal_of self.now }
    {
        match self {
            Status::Refused(refusal) => Some(*refusal),
            Status::Done
            | Status::BadWords
            | Status::ReadFault
            | Status::WriteFault
            | Status::StoreFault
            | Status::Damaged { .. }
            | Status::DamagedRoot { .. }
            | Status::NoMemory
            | Status::ForeignRoot => None,
        }
    }
}

// The number of the status of such a refusal: 3 for the flow, 4 for the inputs, 5 for the schedule.
fn refusal_number(code: Code) -> u8
    ensures { result ≡ spec.refusal_number code }
{
    match code {
        Code::F1
        | Code::F2
        | Code::F3
        | Code::F4
        | Code::F5
        | Code::F6
        | Code::F7
        | Code::F8
        | Code::F9
        | Code::F10
        | Code::F11
        | Code::F12 => 3,
        Code::I1 | Code::I2 | Code::I3 | Code::I4 | Code::I5 => 4,
        Code::S1 | Code::S2 | Code::S3 | Code::S4 => 5,
    }
}
