// Entailment between claims shows in small memories.
// It is mathematics, in specs and proofs; `small_models_suffice` asks for the theorems.
#![tactic(auto)]

ghost use Rattle.models.specs.Follows.{Theorems};

pub fn small_models_suffice()
    ensures { Theorems }
{}
