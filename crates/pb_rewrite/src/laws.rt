//! Laws over the definitions alone, each the contract of a function that does nothing.

ghost use Rattle.pb_rewrite.specs.Sources.{ResolvedProgramsFit};

/// A program that was resolved from a tree may be stepped under its claims, if these are within its capital.
pub fn resolved_programs_fit()
    ensures { ResolvedProgramsFit }
{}
