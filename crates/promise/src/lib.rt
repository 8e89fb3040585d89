//! What an analysis promises: every word that its contract adds to those of the definitions.
//! `IsAnalysed` (`specs/Analysed`) is the promise, one record for all that `SemanticBuilder::build` gives back. Each of its
//! fields is a word of `specs/Analysis`, `Kept` and `SwappedNames`, or of the definitions (`semantic_model`, `check_model`).
//! There is no program code here.
#![tactic(auto)]
