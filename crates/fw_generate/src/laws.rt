//! Laws of generated texts, each proved as a function that does nothing.
ghost use Rattle.fw_generate.specs.Laws.{GeneratedTextsAreAccepted, NodesHaveTheirNames};

/// The readers accept the three texts of each size up to 100,000, whatever is drawn.
pub fn generated_texts_are_accepted()
    ensures { GeneratedTextsAreAccepted }
{}

/// The nodes that a schedule names are those of the flow, in its order.
pub fn nodes_have_their_names()
    ensures { NodesHaveTheirNames }
{}
