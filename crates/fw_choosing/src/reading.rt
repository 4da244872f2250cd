//! The texts of choices are fetched and read.
ghost use Rattle.std.specs.Prelude.{◌≡◌, ◌≢◌, IfOk, IfErr};
ghost use Rattle.fw_outside.specs.Outside.{IsText, one_more};
ghost use Rattle.fw_model.specs.Offers.{AreOffersOf, RecordsAscend};
ghost use Rattle.fw_choosing.specs.Reading.{IsClaimUnread, IsFetchFault, IsOffersUnread};
ghost use Rattle.fw_choosing.specs.Status.{read_faults_by};
ghost use Rattle.fw_choosing.specs.Texts.{HasClaim, HasOffers};

use crate::status::ChoosingStatus;
use fw_flow::Flow;
use fw_offers_text::{
    CHOICE_LIMIT, ChoiceCode, ChoiceFault, ChoiceRefusal, Claim, Offers, read_certificate,
    read_offers,
};
use fw_outside::{FetchFault, Folder};
use std::alloc::Global;

/// What the nodes of the flow offer, by the text under a name.
pub(crate) fn fetch_offers<F: Folder>(
    alloc: Global,
    folder: &mut F,
    name: &str,
    flow: &Flow,
) -> Result<Offers, ChoosingStatus>
    ensures offers { IfOk result (HasOffers (F.texts folder.old) name.now flow.now) }
    ensures of_flow { IfOk result (AreOffersOf flow.now) }
    ensures ascend { IfOk result (RecordsAscend flow.now) }
    ensures unread { IfErr result (IsOffersUnread (F.texts folder.old) name.now flow.now) }
    ensures faults { F.fault_count folder.new ≡ read_faults_by result (F.fault_count folder.old) }
    ensures counted { F.fetch_count folder.new ≡ one_more (F.fetch_count folder.old) }
    ensures texts_stay { F.texts folder.new ≡ F.texts folder.old }
{
    let too_large = ChoosingStatus::OffersRefused(of_whole(ChoiceCode::O8));
    let text = fetch(alloc, folder, name, too_large)?;
    match read_offers(alloc, &text, flow) {
        Ok(offers) => Ok(offers),
        Err(ChoiceFault::Refused(refusal)) => Err(ChoosingStatus::OffersRefused(refusal)),
        Err(ChoiceFault::NoMemory) => Err(ChoosingStatus::NoMemory),
    }
}

/// What the text under a name claims, as a certificate.
pub(crate) fn fetch_claim<F: Folder>(
    alloc: Global,
    folder: &mut F,
    name: &str,
    flow: &Flow,
) -> Result<Claim, ChoosingStatus>
    ensures claim { IfOk result (HasClaim (F.texts folder.old) name.now flow.now) }
    ensures unread { IfErr result (IsClaimUnread (F.texts folder.old) name.now flow.now) }
    ensures faults { F.fault_count folder.new ≡ read_faults_by result (F.fault_count folder.old) }
    ensures counted { F.fetch_count folder.new ≡ one_more (F.fetch_count folder.old) }
    ensures texts_stay { F.texts folder.new ≡ F.texts folder.old }
{
    let too_large = ChoosingStatus::CertificateRefused(of_whole(ChoiceCode::C6));
    let text = fetch(alloc, folder, name, too_large)?;
    match read_certificate(alloc, &text, flow) {
        Ok(claim) => Ok(claim),
        Err(ChoiceFault::Refused(refusal)) => Err(ChoosingStatus::CertificateRefused(refusal)),
        Err(ChoiceFault::NoMemory) => Err(ChoosingStatus::NoMemory),
    }
}

// The refusal of a text as a whole.
fn of_whole(code: ChoiceCode) -> ChoiceRefusal
    ensures { result ≡ record { code = code; line = 0 } }
{
    ChoiceRefusal { code, line: 0 }
}

// The text under a name; where it is too long, this status tells it.
fn fetch<F: Folder>(
    alloc: Global,
    folder: &mut F,
    name: &str,
    too_large: ChoosingStatus,
) -> Result<Vec<u8>, ChoosingStatus>
    requires { too_large ≢ ChoosingStatus.ReadFault }
    ensures text { IfOk result (λ text. IsText (F.texts folder.old) name.now text.items) }
    ensures unread { IfErr result (IsFetchFault (F.texts folder.old) name.now too_large) }
    ensures faults { F.fault_count folder.new ≡ read_faults_by result (F.fault_count folder.old) }
    ensures counted { F.fetch_count folder.new ≡ one_more (F.fetch_count folder.old) }
    ensures texts_stay { F.texts folder.new ≡ F.texts folder.old }
{
    let mut text = Vec::new(alloc);
    match folder.fetch(name, CHOICE_LIMIT, &mut text) {
        Ok(()) => Ok(text),
        Err(FetchFault::Failed) => Err(ChoosingStatus::ReadFault),
        Err(FetchFault::TooLarge) => Err(too_large),
        Err(FetchFault::NoMemory) => Err(ChoosingStatus::NoMemory),
    }
}
