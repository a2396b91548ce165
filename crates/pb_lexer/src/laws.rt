//! Laws over the definitions of cuttings and faults, each the contract of a function that does nothing.

ghost use Rattle.std.specs.Prelude.{◌≡◌, ℕ, List};
ghost use Rattle.pb_lexer.specs.Tokens as tokens;
ghost use Rattle.pb_lexer.specs.Cutting.{Cuts, AreTokensOf, Refuses};

use crate::fault::LexFault;

/// No text is cut in two ways.
#[tactic(auto, using(crate::proofs::Cuttings::one_cutting))]
pub fn one_cutting()
    ensures { (text : List ℕ) (a b : List tokens.Token) → Cuts text a → Cuts text b → a ≡ b }
{}

/// A text that has tokens within the limits has no fault but `NoMemory`.
#[tactic(auto, using(crate::proofs::Faults::no_fault))]
pub fn no_fault()
    ensures { (text : List ℕ) (ts : List tokens.Token) (e : LexFault)
        → AreTokensOf text ts → (e ≡ LexFault.NoMemory → ⊥) → Refuses text e → ⊥ }
{}

/// No text has two faults other than `NoMemory`.
#[tactic(auto, using(crate::proofs::Faults::one_fault))]
pub fn one_fault()
    ensures { (text : List ℕ) (e f : LexFault)
        → (e ≡ LexFault.NoMemory → ⊥) → (f ≡ LexFault.NoMemory → ⊥)
        → Refuses text e → Refuses text f → e ≡ f }
{}
