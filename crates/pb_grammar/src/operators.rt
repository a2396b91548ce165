//! Which symbol or word a token is, and which operator.

ghost use Rattle.std.specs.Prelude.{◌≡◌, ℕ, List};
ghost use Rattle.pb_lexer.specs.Tokens.{Fixed};
ghost use Rattle.pb_lexer.specs.Tokens as spec_tokens;
ghost use Rattle.pb_grammar.specs.Grammar as grammar;
ghost use Rattle.pb_grammar.specs.Reader as reader;
ghost use Rattle.pb_grammar.specs.ExpressionReader as reads;

use crate::level::Level;
use pb_base::BinaryOp;
use pb_lexer::{Kind, Mark, Token};

/// Returns the binary operator of a level that the mark is.
#[inline]
fn operator_of(level: Level, mark: Mark) -> Option<BinaryOp>
    ensures { result ≡ grammar.operator level (Fixed mark) }
{
    match level {
        Level::Disjunction => match mark {
            Mark::Or => Some(BinaryOp::Or),
            _ => None,
        },
        Level::Conjunction => match mark {
            Mark::And => Some(BinaryOp::And),
            _ => None,
        },
        Level::Comparison => match mark {
            Mark::Equal => Some(BinaryOp::Equal),
            Mark::NotEqual => Some(BinaryOp::Unequal),
            Mark::Less => Some(BinaryOp::Less),
            Mark::AtMost => Some(BinaryOp::AtMost),
            Mark::Greater => Some(BinaryOp::Greater),
            Mark::AtLeast => Some(BinaryOp::AtLeast),
            _ => None,
        },
        Level::Sum => match mark {
            Mark::Plus => Some(BinaryOp::Add),
            Mark::Minus => Some(BinaryOp::Subtract),
            _ => None,
        },
        Level::Term => match mark {
            Mark::Star => Some(BinaryOp::Multiply),
            Mark::Div => Some(BinaryOp::Quotient),
            Mark::Mod => Some(BinaryOp::Remainder),
            _ => None,
        },
        Level::Negation | Level::Factor => None,
    }
}

/// Returns the binary operator of a level that a token of the kind is.
#[inline]
pub(crate) fn operator(level: Level, kind: Kind) -> Option<BinaryOp>
    ensures { (text : List ℕ) → result ≡ grammar.operator level (spec_tokens.lexeme kind text) }
{
    match kind {
        Kind::Mark(mark) => operator_of(level, mark),
        _ => None,
    }
}

/// Returns whether a token of the kind is a binary operator.
#[inline]
pub(crate) fn is_operator(kind: Kind) -> bool
    ensures { (text : List ℕ) → result ≡ reads.is_operator (spec_tokens.lexeme kind text) }
{
    match kind {
        Kind::Mark(Mark::Or | Mark::And | Mark::Plus | Mark::Minus) => true,
        Kind::Mark(Mark::Star | Mark::Div | Mark::Mod) => true,
        Kind::Mark(Mark::Equal | Mark::NotEqual | Mark::Less) => true,
        Kind::Mark(Mark::AtMost | Mark::Greater | Mark::AtLeast) => true,
        _ => false,
    }
}

/// Returns whether a token of the kind is the mark.
#[tactic(auto, using(crate::proofs::Marks::no_mark), unfolding(crate::specs::Reader::is_mark))]
pub(crate) fn is_mark(mark: Mark, kind: Kind) -> bool
    ensures { (text : List ℕ) → result ≡ reader.is_mark mark (spec_tokens.lexeme kind text) }
{
    match kind {
        Kind::Mark(found) => found == mark,
        _ => false,
    }
}
