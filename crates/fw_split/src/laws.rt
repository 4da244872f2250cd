//! The laws of split nodes, as functions that do nothing: the clause of each is the law.
ghost use Rattle.fw_split.specs.LawsOfSplitting.{ReplicasSendTheirParts, PartsMakeTheBag, ExpansionDenotesTheSame, DenotationOfExpansion, NodesHearTheSame, EdgesCarryTheSame, WithoutTheWordIsWellFormed, NewNamesAreWritten, DeclarationsExpand};
ghost use Rattle.fw_split.specs.SplitTotal.{SplitTotalExpands};

/// A replica sends its part of what the node that is not split sends.
pub fn replicas_send_their_parts()
    ensures { ReplicasSendTheirParts }
{}

/// The parts of a bag, one after another, are the bag.
pub fn parts_make_the_bag()
    ensures { PartsMakeTheBag }
{}

/// A denotation of a flow without the word gives one of its expansion.
pub fn expansion_denotes_the_same()
    ensures { ExpansionDenotesTheSame }
{}

/// So each denotation of a well-formed expansion has on each edge what the flow without the word has there.
pub fn denotation_of_expansion()
    ensures { DenotationOfExpansion }
{}

/// So each node that may not be split, an output among them, is in it, and the same comes to it.
pub fn nodes_hear_the_same()
    ensures { NodesHearTheSame }
{}

/// So what an edge carries, one of the expansion carries, or its parts together do: also out of a split node.
pub fn edges_carry_the_same()
    ensures { EdgesCarryTheSame }
{}

/// Where an exact expansion is well formed, the flow without the word is.
pub fn without_the_word_is_well_formed()
    ensures { WithoutTheWordIsWellFormed }
{}

/// Declarations with names that are each new in their turn are as texts write them: so are those of an accepted text.
pub fn names_new_in_turn()
    ensures { NewNamesAreWritten }
{}

/// What declarations expand to is an exact expansion of them without the word.
pub fn declarations_expand()
    ensures { DeclarationsExpand }
{}

/// A total in two is such an expansion: what the law asks for can be met.
pub fn split_total_expands()
    ensures { SplitTotalExpands }
{}
