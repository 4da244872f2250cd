//! Lemmas that name nothing of the project: on tests, numbers, comparisons, lists, options and results.
//!
//! A general lemma that two crates or files use stands here once, by its topic, and `rt lemma WORD ..` finds it; what the kit has
//! already is not said again. `bin/same-lemmas` lists lemmas that say the same. There is no code here, and this stands on nothing.
#![tactic(auto)]
