//! Laws over the definitions alone, each the contract of a function that does nothing.

ghost use Rattle.std.specs.Prelude.{◌≡◌};
ghost use Rattle.pb_names.specs.Program.{Program};
ghost use Rattle.pb_names.specs.Faults.{IsFault};
ghost use Rattle.pb_names.specs.Ready.{IsComplete};
ghost use Rattle.pb_names.specs.Resolves.{Resolves};
ghost use Rattle.pb_tree.specs.Syntax.{ProgramSyntax};

use crate::fault::NameFault;

/// A tree has at most one numbered program.
#[tactic(auto, using(crate::proofs::OneNumbering::resolves_once))]
pub fn one_numbering()
    ensures { (written : ProgramSyntax) (a b : Program) → Resolves written a → Resolves written b → a ≡ b }
{}

/// A tree that has a numbered program has no fault but `NoMemory`.
#[tactic(auto, using(crate::proofs::ResolvedLimits::no_fault))]
pub fn no_fault()
    ensures { (written : ProgramSyntax) (program : Program) (e : NameFault)
        → Resolves written program → (e ≡ NameFault.NoMemory → ⊥) → IsFault written e → ⊥ }
{}

/// A tree that has a numbered program has a process, a pair in each hold and an arm in each parbegin.
#[tactic(auto, using(crate::proofs::Parts::complete_program))]
pub fn complete_tree()
    ensures { (written : ProgramSyntax) (program : Program) → Resolves written program → IsComplete written }
{}
