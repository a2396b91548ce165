//! The program that tokens are, within the limits.

ghost use Rattle.std.specs.Prelude.{◌≡◌, ℕ, ◌⊎◌, IfOk, IfErr};
ghost use Rattle.pb_lexer.specs.Tokens as spec_tokens;
ghost use Rattle.pb_tree.specs.View.{program_view};
ghost use Rattle.pb_grammar.specs.Programs.{ReadsProgram};
ghost use Rattle.pb_parser.specs.Limits.{IsSmallTree, IsTooHigh, IsTooLarge, IsNoProgram, IsSmallProgram};
ghost use Rattle.pb_parser.specs.Limits.{IsSyntax};
ghost use Rattle.pb_parser.specs.Nesting.{NestsTooDeep};

use crate::measures::Measures;
use crate::nesting::nests_too_deep;
use crate::trees::Trees;
use pb_base::limits::{MAX_HEIGHT, MAX_NODES};
use pb_grammar::{ParseFault, read};
use pb_lexer::Token;
use pb_tree::Program;
use std::alloc::Allocator;

/// Returns the program that the tokens are.
///
/// Tokens that nest too deep are refused before the grammar is looked at, and a program over a limit after:
/// first its height, then its nodes. All this takes no memory: the tree is made of a program that is within
/// the limits, and of no other. An error leaves nothing after.
pub fn parse<A: Allocator + Clone>(alloc: A, tokens: &[Token<'_>]) -> Result<Program<A>, ParseFault>
    ensures found { IfOk result (λ p. ReadsProgram (spec_tokens.tokens tokens.now) (program_view p)) }
    ensures limits { IfOk result (λ p. IsSmallTree (program_view p)) }
    // Tokens that nest too deep are always refused for that.
    ensures nested { NestsTooDeep (spec_tokens.tokens tokens.now) → result ≡ Err ParseFault.TooDeep }
    // Each refusal has its cause,
    ensures syntax { IfErr result (λ fault. IsSyntax fault → IsNoProgram (spec_tokens.tokens tokens.now)) }
    ensures too_deep { result ≡ Err ParseFault.TooDeep
        → NestsTooDeep (spec_tokens.tokens tokens.now) ⊎ IsTooHigh (spec_tokens.tokens tokens.now) }
    ensures too_large { result ≡ Err ParseFault.TooLarge → IsTooLarge (spec_tokens.tokens tokens.now) }
    // and each cause is returned, whatever memory there is.
    ensures no_program { (¬ NestsTooDeep (spec_tokens.tokens tokens.now))
        → IsNoProgram (spec_tokens.tokens tokens.now) → (at : ℕ) × (result ≡ Err (ParseFault.Syntax at)) }
    ensures high { IsTooHigh (spec_tokens.tokens tokens.now) → result ≡ Err ParseFault.TooDeep }
    ensures large { (¬ NestsTooDeep (spec_tokens.tokens tokens.now))
        → IsTooLarge (spec_tokens.tokens tokens.now) → result ≡ Err ParseFault.TooLarge }
    // Memory can run out only for a program within the limits.
    ensures memory { result ≡ Err ParseFault.NoMemory → IsSmallProgram (spec_tokens.tokens tokens.now) }
{
    if nests_too_deep(tokens) {
        return Err(ParseFault::TooDeep);
    }
    let measure = read(Measures, tokens)?;
    if measure.height > MAX_HEIGHT {
        return Err(ParseFault::TooDeep);
    }
    if measure.nodes > MAX_NODES {
        return Err(ParseFault::TooLarge);
    }
    read(Trees { alloc }, tokens)
}
