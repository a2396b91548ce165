//! What is known of a text.

ghost use Rattle.std.specs.Prelude.{◌≡◌, IfOk, option_map};
ghost use Rattle.pb_server_claims.specs.Known as spec;
ghost use Rattle.pb_tree.specs.View.{program_view};

use crate::numbered::{Numbered, number_tree};
use pb_base::NoMemory;
use pb_lexer::Token;
use pb_server_texts::{tokens_of, tree_of};
use pb_tree::Program;
use std::alloc::Global;

/// A text that has tokens: its tree, which is empty if the tokens are no program, and its numbered program if there is
/// one.
#[derive(Drop)]
pub(crate) struct Reading<'t> {
    pub(crate) tokens: Vec<Token<'t>>,
    pub(crate) tree: Program<Global>,
    pub(crate) found: Option<Numbered>,
}

/// Returns the tree of a program that has nothing.
fn no_tree(alloc: Global) -> Program<Global>
    ensures { program_view result ≡ spec.no_tree }
{
    Program {
        resources: Vec::new(alloc),
        processes: Vec::new(alloc),
    }
}

/// Returns what is known of a text; none if it has no tokens. The error comes only if `alloc` is out of memory.
pub(crate) fn read_text<'t>(alloc: Global, text: &'t [u8]) -> Result<Option<Reading<'t>>, NoMemory>
    ensures { IfOk result (λ found. spec.Knows text.now (option_map spec.known found)) }
{
    let Some(tokens) = tokens_of(alloc, text)? else {
        return Ok(None);
    };
    let Some(tree) = tree_of(alloc, &tokens)? else {
        return Ok(Some(Reading {
            tokens,
            tree: no_tree(alloc),
            found: None,
        }));
    };
    let found = number_tree(alloc, &tree)?;
    Ok(Some(Reading {
        tokens,
        tree,
        found,
    }))
}
