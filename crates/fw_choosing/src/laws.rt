//! Facts about what the commands print, each proved as a function that only walks over a flow.
ghost use Rattle.std.specs.Prelude.{ℕ, ◌≤◌, List, length};
ghost use Rattle.fw_flow.specs.declared.choice.Offer.{Offer};
ghost use Rattle.fw_offers_text.specs.declared.claim.Claim.{Claim};
ghost use Rattle.fw_offers_text.specs.CertificateGrammar.{IsAcceptedCertificate};
ghost use Rattle.fw_offers_text.specs.Faults.{choice_size_limit};
ghost use Rattle.fw_choosing.specs.declared.status.ChoosingStatus.TheVariants as Status;
ghost use Rattle.fw_choosing.specs.Choices.{IsChosenText, IsNoChoiceText, IsVerifyAnswer};
ghost use Rattle.fw_choosing.specs.Laws.{IsRightCertificate};

use fw_flow::Flow;
use fw_flow::laws::{flow_is_well_formed, names_are_distinct, names_are_names};

/// What `choose` prints over a flow, the largest choice or that there is none, is accepted as a certificate over it where it is no
/// longer than such a text may be, and what it claims is right. So `verify` over the same texts does not say that it is not shown.
pub fn what_is_chosen_is_shown(flow: &Flow)
    ensures chosen { (offers : List Offer) (text : List ℕ) → IsChosenText flow.now offers text → length text ≤ choice_size_limit
        → IsRightCertificate text flow.now offers }
    ensures no_choice { (offers : List Offer) (text : List ℕ) → IsNoChoiceText flow.now offers text → length text ≤ choice_size_limit
        → IsRightCertificate text flow.now offers }
    ensures verified { (offers : List Offer) (text line : List ℕ) (claim : Claim) → IsRightCertificate text flow.now offers
        → IsAcceptedCertificate text flow.now claim → IsVerifyAnswer flow.now offers claim line Status.NotShown → ⊥ }
{
    flow_is_well_formed(flow);
    names_are_distinct(flow);
    names_are_names(flow);
}
