//! What a command over texts of choices answers: its texts are read, and then what they ask for is told.
ghost use Rattle.std.specs.Prelude.{◌≡◌, IfOk, IfErr, string_bytes};
ghost use Rattle.fw_choosing.specs.Status.{read_faults_by};
ghost use Rattle.fw_choosing.specs.Texts.{IsAnswer, IsAskedFor, IsChoosingUnread};
ghost use Rattle.fw_choosing.specs.Words.{choosing_in};
ghost use Rattle.fw_choosing.specs.Words as spec;

use crate::choose::choose;
use crate::reading::{fetch_claim, fetch_offers};
use crate::status::ChoosingStatus;
use crate::verify::judge;
use crate::words::ChoosingWords;
use fw_command::fetch_flow;
use fw_outside::Folder;
use std::alloc::Global;

/// What a command prints of accepted texts, and the status with which it ends where that is written.
#[derive(Drop)]
pub(crate) struct Answer {
    /// What is printed.
    pub(crate) text: String,
    /// The status.
    pub(crate) status: ChoosingStatus,
}

/// What a command prints of its texts; or the status with which it ends before.
pub(crate) fn answer_words<F: Folder>(
    alloc: Global,
    words: &ChoosingWords,
    folder: &mut F,
) -> Result<Answer, ChoosingStatus>
    ensures answer { IfOk result (λ answer. IsAnswer (F.texts folder.old) (choosing_in words.now) (string_bytes answer.text) answer.status) }
    ensures unread { IfErr result (IsChoosingUnread (F.texts folder.old) (choosing_in words.now)) }
    ensures faults { F.fault_count folder.new ≡ read_faults_by result (F.fault_count folder.old) }
    ensures asked { IsAskedFor (F.texts folder.old) (choosing_in words.now) (F.fetch_count folder.old) (F.fetch_count folder.new) }
    ensures texts_stay { F.texts folder.new ≡ F.texts folder.old }
{
    match words {
        ChoosingWords::Choose { flow, offers } => answer_choose(alloc, folder, *flow, *offers),
        ChoosingWords::Verify {
            flow,
            offers,
            certificate,
        } => answer_verify(alloc, folder, *flow, *offers, *certificate),
    }
}

// The same of `choose`.
fn answer_choose<F: Folder>(
    alloc: Global,
    folder: &mut F,
    flow: &str,
    offers: &str,
) -> Result<Answer, ChoosingStatus>
    ensures answer { IfOk result (λ answer. IsAnswer (F.texts folder.old) (spec.choose flow.now offers.now) (string_bytes answer.text) answer.status) }
    ensures unread { IfErr result (IsChoosingUnread (F.texts folder.old) (spec.choose flow.now offers.now)) }
    ensures faults { F.fault_count folder.new ≡ read_faults_by result (F.fault_count folder.old) }
    ensures asked { IsAskedFor (F.texts folder.old) (spec.choose flow.now offers.now) (F.fetch_count folder.old) (F.fetch_count folder.new) }
    ensures texts_stay { F.texts folder.new ≡ F.texts folder.old }
{
    let flow = fetch_flow(alloc, folder, flow)?;
    let offers = fetch_offers(alloc, folder, offers, &flow)?;
    let answer = choose(alloc, &flow, offers.as_slice())?;
    Ok(answer)
}

// The same of `verify`.
fn answer_verify<F: Folder>(
    alloc: Global,
    folder: &mut F,
    flow: &str,
    offers: &str,
    certificate: &str,
) -> Result<Answer, ChoosingStatus>
    ensures answer { IfOk result (λ answer. IsAnswer (F.texts folder.old) (spec.verify flow.now offers.now certificate.now)
        (string_bytes answer.text) answer.status) }
    ensures unread { IfErr result (IsChoosingUnread (F.texts folder.old) (spec.verify flow.now offers.now certificate.now)) }
    ensures faults { F.fault_count folder.new ≡ read_faults_by result (F.fault_count folder.old) }
    ensures asked { IsAskedFor (F.texts folder.old) (spec.verify flow.now offers.now certificate.now)
        (F.fetch_count folder.old) (F.fetch_count folder.new) }
    ensures texts_stay { F.texts folder.new ≡ F.texts folder.old }
{
    let flow = fetch_flow(alloc, folder, flow)?;
    let offers = fetch_offers(alloc, folder, offers, &flow)?;
    let claim = fetch_claim(alloc, folder, certificate, &flow)?;
    let answer = judge(alloc, &flow, offers.as_slice(), claim)?;
    Ok(answer)
}
