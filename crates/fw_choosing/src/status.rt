//! How a command over texts of choices ended.
ghost use Rattle.std.specs.Prelude.{◌≡◌, Contains};
ghost use Rattle.fw_choosing.specs.Status as spec;
ghost use Rattle.fw_choosing.specs.Status.{choosing_number, choosing_numbers};

use fw_command::JobFault;
use fw_lines::Refusal;
use fw_offers_text::ChoiceRefusal;
use std::alloc::AllocError;

/// How a command over texts of choices ended.
#[derive(Clone, Copy, Debug, PartialEq, Eq)]
pub enum ChoosingStatus {
    /// A choice was found, or the certificate is right; all that is printed was written.
    Done,
    /// The words are not those of a command.
    BadWords,
    /// The text of the flow is not accepted.
    FlowRefused(Refusal),
    /// The text of the offers is not accepted.
    OffersRefused(ChoiceRefusal),
    /// The text of the certificate is not accepted.
    CertificateRefused(ChoiceRefusal),
    /// The folder failed.
    ReadFault,
    /// The output failed.
    WriteFault,
    /// Memory was refused.
    NoMemory,
    /// No choice is consistent, and what shows it was written.
    NoChoice,
    /// The certificate is wrong, and where was written.
    NotShown,
}

impl ChoosingStatus {
    /// The number that a program ends with.
    pub fn number(&self) -> u8
        ensures value { result ≡ choosing_number self.now }
        ensures among { Contains choosing_numbers result }
    {
        match self {
            ChoosingStatus::Done => 0,
            ChoosingStatus::BadWords => 2,
            ChoosingStatus::FlowRefused(_) => 3,
            ChoosingStatus::ReadFault => 6,
            ChoosingStatus::WriteFault => 7,
            ChoosingStatus::NoMemory => 10,
            ChoosingStatus::OffersRefused(_) => 12,
            ChoosingStatus::CertificateRefused(_) => 13,
            ChoosingStatus::NoChoice | ChoosingStatus::NotShown => 14,
        }
    }

    /// The refusal of the flow's text, where it is refused.
    pub fn flow_refusal(&self) -> Option<Refusal>
        ensures { result ≡ spec.flow_refusal self.now }
    {
        match self {
            ChoosingStatus::FlowRefused(refusal) => Some(*refusal),
            ChoosingStatus::Done
            | ChoosingStatus::BadWords
            | ChoosingStatus::OffersRefused(_)
            | ChoosingStatus::CertificateRefused(_)
            | ChoosingStatus::ReadFault
            | ChoosingStatus::WriteFault
            | ChoosingStatus::NoMemory
            | ChoosingStatus::NoChoice
            | ChoosingStatus::NotShown => None,
        }
    }
}

impl From<AllocError> for ChoosingStatus {
    ghost use Rattle.fw_choosing.specs.declared.status.ChoosingStatus.TheVariants.{NoMemory};

    ghost from_gives = { λ _ status. status ≡ NoMemory };

    fn from(_error: AllocError) -> Self {
        ChoosingStatus::NoMemory
    }
}

impl From<JobFault> for ChoosingStatus {
    ghost use Rattle.fw_choosing.specs.Status.{flow_status};

    ghost from_gives = { λ fault status. status ≡ flow_status fault };

    fn from(fault: JobFault) -> Self {
        match fault {
            JobFault::Failed => ChoosingStatus::ReadFault,
            JobFault::Refused(refusal) => ChoosingStatus::FlowRefused(refusal),
            JobFault::NoMemory => ChoosingStatus::NoMemory,
        }
    }
}
