//! A text, read into its tokens and its tree.

ghost use Rattle.std.specs.Prelude.{IfOk, List, MatchOption};
ghost use Rattle.pb_lexer.specs.Cutting.{AreTokensOf};
ghost use Rattle.pb_lexer.specs.Tokens.{tokens};
ghost use Rattle.pb_lexer.specs.Tokens as spec_tokens;
ghost use Rattle.pb_tree.specs.Syntax.{ProgramSyntax};
ghost use Rattle.pb_tree.specs.View.{program_view};
ghost use Rattle.pb_server_texts.specs.Reading.{IsRead, IsTreeOf};

use pb_base::NoMemory;
use pb_grammar::ParseFault;
use pb_lexer::{LexFault, Token, lex};
use pb_parser::parse;
use pb_tree::Program;
use std::alloc::Global;

/// Returns the tokens of a text, if it has tokens within the limits. The error comes only if `alloc` is out of memory.
pub fn tokens_of<'t>(alloc: Global, text: &'t [u8]) -> Result<Option<Vec<Token<'t>>>, NoMemory>
    ensures { IfOk result (λ found. MatchOption found
        ((ts : List spec_tokens.Token) → AreTokensOf text.now ts → ⊥)
        (λ given. AreTokensOf text.now (tokens given.items))) }
{
    match lex(alloc, text) {
        Ok(given) => Ok(Some(given)),
        Err(LexFault::NoMemory) => Err(NoMemory),
        Err(_) => Ok(None),
    }
}

/// Returns the tree that tokens are, if they are one within the limits. The error comes only if `alloc` is out of memory.
pub fn tree_of(alloc: Global, given: &[Token<'_>]) -> Result<Option<Program<Global>>, NoMemory>
    ensures { IfOk result (λ found. MatchOption found
        ((tree : ProgramSyntax) → IsTreeOf (tokens given.now) tree → ⊥)
        (λ program. IsTreeOf (tokens given.now) (program_view program))) }
{
    match parse(alloc, given) {
        Ok(program) => Ok(Some(program)),
        Err(ParseFault::Syntax(_)) => Ok(None),
        Err(ParseFault::TooDeep) => Ok(None),
        Err(ParseFault::TooLarge) => Ok(None),
        Err(ParseFault::NoMemory) => Err(NoMemory),
    }
}

/// A text that was read: its tokens and their tree.
#[derive(Drop)]
pub(crate) struct Read<'t> {
    pub tokens: Vec<Token<'t>>,
    pub tree: Program<Global>,
}

/// Reads a text, if it is a program by the grammar, within the limits. The error comes only if `alloc` is out of memory.
#[tactic(auto, using(crate::proofs::ReadTexts::reading))]
pub(crate) fn read_text<'t>(alloc: Global, text: &'t [u8]) -> Result<Option<Read<'t>>, NoMemory>
    ensures { IfOk result (λ found. MatchOption found
        ((ts : List spec_tokens.Token) (tree : ProgramSyntax) → IsRead text.now ts tree → ⊥)
        (λ read. IsRead text.now (tokens read.tokens.items) (program_view read.tree))) }
{
    let Some(tokens) = tokens_of(alloc, text)? else {
        return Ok(None);
    };
    let Some(tree) = tree_of(alloc, &tokens)? else {
        return Ok(None);
    };
    Ok(Some(Read { tokens, tree }))
}
