//! The warnings of accepted texts.

ghost use Rattle.std.specs.Prelude.{IfErr, IfOk, map};
ghost use Rattle.pb_accept.specs.Warned.{AreWarningsOf};
ghost use Rattle.pb_codegen.specs.Compiled.{IsRefused};
ghost use Rattle.pb_warnings.specs.Warnings.{warning};

use pb_codegen::{CompileFault, analyze};
use pb_lexer::lex;
use pb_parser::parse;
use pb_warnings::{Warning, warnings_of};
use std::alloc::{Allocator, Global};

/// Returns what the program of a text is warned of, in the order of the text, whether or not the capital is enough for its
/// claims. Its trees are in the memory of `trees`. A text is refused as by `analyze`.
pub(crate) fn warnings_in<A: Allocator + Clone>(
    alloc: Global,
    trees: A,
    text: &[u8],
) -> Result<Vec<Warning>, CompileFault>
    ensures warned { IfOk result (λ found. AreWarningsOf text.now (map warning found.items)) }
    ensures refused { IfErr result (IsRefused text.now) }
{
    let analysis = analyze(alloc, trees.clone()?, text)?;
    let tokens = lex(alloc, text)?;
    let tree = parse(trees, tokens.as_slice())?;
    let found = warnings_of(alloc, text, &tree, &analysis.claims)?;
    Ok(found)
}
