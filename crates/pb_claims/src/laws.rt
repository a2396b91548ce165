//! Laws over the definitions alone, each the contract of a function that does nothing.

ghost use Rattle.std.specs.Prelude.{ℕ, ◌≤◌};
ghost use Rattle.pb_claims.specs.Inferred.{HaveSmallClaims};
ghost use Rattle.pb_names.specs.Claims.{IsClaim, peak};
ghost use Rattle.pb_names.specs.Program.{Process, Program};
ghost use Rattle.pb_names.specs.Resolves.{Resolves};
ghost use Rattle.pb_tree.specs.Measure.{program_nodes};
ghost use Rattle.pb_tree.specs.Syntax.{ProgramSyntax};

use pb_base::limits::MAX_NODES;

/// The one pass over a process finds the greatest amount that a free run holds.
pub fn one_pass_finds_the_claim()
    ensures { (process : Process) (r : ℕ) → IsClaim process r (peak r process.body) }
{}

/// A program that was resolved from a tree of at most 16,384 nodes has no claim beyond 64 bits.
pub fn resolved_programs_have_small_claims()
    ensures { (written : ProgramSyntax) (program : Program)
        → Resolves written program → program_nodes written ≤ MAX_NODES → HaveSmallClaims program }
{}
