//! What is true of accepted texts, and of declarations in code, without the word `split`, as functions that do nothing: the clause of each
//! is the law.
ghost use Rattle.fw_unsplit.specs.WithoutTheWord.{AcceptedWithoutTheWord, DeclaredWithoutTheWord};

/// Where a flow and its inputs are accepted, so are they without the word `split`; what is acknowledged at an output in any run is what is
/// denoted there without it.
pub fn accepted_without_the_word()
    ensures { AcceptedWithoutTheWord }
{}

/// The same of flows that are declared in code, as by `FlowBuilder`.
pub fn declared_without_the_word()
    ensures { DeclaredWithoutTheWord }
{}
