//! Laws of what is sent at numbers, each a function that does nothing: its clause is the law.
ghost use Rattle.fw_numbered.specs.LawsOfZips.{InsideIsInTurn, ZipsSendTheLesser};

/// A zip sends at the numbers 0, 1, 2 and so on in this order, as many as came on that in-edge on which fewer came.
#[tactic(auto, using(crate::proofs::LesserOfTwo::zips_send_the_lesser))]
pub fn zips_send_the_lesser()
    ensures { ZipsSendTheLesser }
{}

/// Where recs came in turn on two in-edges, at the stamps of the numbers 0, 1, 2 and so on of each, those inside did too: so what is
/// inside may be done again from the start.
#[tactic(auto, using(crate::proofs::TurnLaws::inside_in_turn))]
pub fn inside_is_in_turn()
    ensures { InsideIsInTurn }
{}
