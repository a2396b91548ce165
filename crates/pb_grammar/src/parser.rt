//! Recursive descent with one token of look-ahead: the tokens that are left, and expressions.

ghost use Rattle.std.specs.Prelude.{◌≡◌, ℕ, List, [], ◌∷◌, MatchOption, ◌<◌};
ghost use Rattle.pb_lexer.specs.Tokens.{token, tokens};
ghost use Rattle.pb_lexer.specs.Tokens as spec_tokens;
ghost use Rattle.pb_tree.specs.Syntax.{ExprSyntax};
ghost use Rattle.pb_tree.specs.View.{number_view};
ghost use Rattle.pb_grammar.specs.Reader as reader;
ghost use Rattle.pb_grammar.specs.ExpressionReader as reads;
ghost use Rattle.pb_grammar.specs.StatementReader as parts;
ghost use Rattle.pb_grammar.specs.Making.{IsMadeOf};
ghost use Rattle.pb_grammar.specs.Promises.{Begins, Gives, Signs, TakesOperator, TakesMark, name_said};

use crate::builder::{Builder, built};
use crate::fault::ParseFault;
use crate::level::Level;
use crate::operators::{is_mark, is_operator, operator};
use pb_base::{BinaryOp, UnaryOp};
use pb_lexer::{Kind, Mark, Token};
use pb_tree::Number;

/// What builds, the tokens that are left, and where the last one that was taken ends.
#[derive(Drop)]
pub(crate) struct Parser<'a, 't, B> {
    pub(crate) build: B,
    pub(crate) rest: &'a [Token<'t>],
    pub(crate) end: usize,
}

impl<'a, 't, B: Builder> Parser<'a, 't, B> {
    /// Returns the fault that the next token is not in the grammar here.
    pub(crate) fn fault(&self) -> ParseFault
        ensures { (at : ℕ) × (result ≡ ParseFault.Syntax at) }
    {
        match self.rest {
            [next, ..] => ParseFault::Syntax(next.start()),
            [] => ParseFault::Syntax(self.end),
        }
    }

    #[tactic(auto, using(crate::proofs::Marks::front_read))]
    pub(crate) fn peek(&self) -> Option<Token<'t>>
        ensures { MatchOption result
            (tokens self.now.rest.now ≡ []) (λ t. Begins (tokens self.now.rest.now) (token t)) }
    {
        match self.rest {
            [next, ..] => Some(*next),
            [] => None,
        }
    }

    pub(crate) fn advance(&mut self)
        ensures { (t : spec_tokens.Token) (after : List spec_tokens.Token)
            → tokens self.old.rest.now ≡ t ∷ after → tokens self.new.rest.now ≡ after }
    {
        if let [next, after @ ..] = self.rest {
            self.end = next.end();
            self.rest = after;
        }
    }

    /// Takes the next token if it is the mark.
    pub(crate) fn eat(&mut self, mark: Mark) -> bool
        ensures { TakesMark mark result (tokens self.old.rest.now) (tokens self.new.rest.now) }
    {
        if let Some(next) = self.peek() {
            if is_mark(mark, next.kind()) {
                self.advance();
                return true;
            }
        }
        false
    }

    pub(crate) fn expect(&mut self, mark: Mark) -> Result<(), ParseFault>
        ensures { Gives (λ _. tt) result
            (reader.expect mark (tokens self.old.rest.now)) (tokens self.new.rest.now) }
    {
        if self.eat(mark) {
            Ok(())
        } else {
            Err(self.fault())
        }
    }

    /// Checks that no token is left.
    pub(crate) fn end(&self) -> Result<(), ParseFault>
        ensures { Gives (λ _. tt) result
            (reader.ended (tokens self.now.rest.now)) (tokens self.now.rest.now) }
    {
        match self.peek() {
            None => Ok(()),
            Some(_) => Err(self.fault()),
        }
    }

    /// Takes the next token if it is an operator of the level.
    #[tactic(auto, unfolding(crate::specs::ExpressionReader::joins))]
    pub(crate) fn operator(&mut self, level: Level) -> Option<BinaryOp>
        ensures { TakesOperator level result (tokens self.old.rest.now) (tokens self.new.rest.now) }
    {
        let Some(next) = self.peek() else {
            return None;
        };
        let Some(op) = operator(level, next.kind()) else {
            return None;
        };
        self.advance();
        Some(op)
    }

    /// Returns whether the next token is an operator, of whatever level.
    #[inline]
    fn at_operator(&self) -> bool
        ensures { result ≡ reads.begins_operator (tokens self.now.rest.now) }
    {
        match self.rest {
            [next, ..] => is_operator(next.kind()),
            [] => false,
        }
    }

    /// Returns how many times the mark comes next; all of them are taken.
    pub(crate) fn count(&mut self, mark: Mark) -> usize
        ensures signs { (op : UnaryOp) (part : reader.Part ExprSyntax) →
            reads.signed mark op part (tokens self.old.rest.now)
            ≡ reads.signs result op (part (tokens self.new.rest.now)) }
    {
        let mut taken = 0;
        while self.eat(mark) {
            taken += 1;
        }
        taken
    }

    /// Returns the next token, which is a name.
    pub(crate) fn name(&mut self) -> Result<Token<'t>, ParseFault>
        ensures { Gives name_said result
            (parts.a_name (tokens self.old.rest.now)) (tokens self.new.rest.now) }
    {
        let Some(next) = self.peek() else {
            return Err(self.fault());
        };
        match next.kind() {
            Kind::Name => {
                self.advance();
                Ok(next)
            }
            _ => Err(self.fault()),
        }
    }

    pub(crate) fn number(&mut self) -> Result<Number, ParseFault>
        ensures { Gives number_view result
            (parts.a_number (tokens self.old.rest.now)) (tokens self.new.rest.now) }
    {
        let Some(next) = self.peek() else {
            return Err(self.fault());
        };
        match next.kind() {
            Kind::Number(value) => {
                self.advance();
                Ok(Number {
                    value,
                    at: next.start(),
                })
            }
            _ => Err(self.fault()),
        }
    }

    /// Returns an operand after a number of prefix operators.
    fn signed(&self, op: UnaryOp, count: usize, operand: B::Expr) -> Result<B::Expr, ParseFault>
        ensures { Signs B.wants B.is_expr result count op operand }
    {
        let mut whole = operand;
        for _turn in 0..count {
            whole = self.build.unary(op, whole)?;
        }
        Ok(whole)
    }

    /// Returns an expression with fewer than `depth` open brackets.
    #[inline(always)]
    #[cycle(expression)]
    pub(crate) fn expression(&mut self, depth: usize) -> Result<B::Expr, ParseFault>
        ensures { IsMadeOf B.wants B.is_expr result
            (reads.expression depth (tokens self.old.rest.now)) (tokens self.new.rest.now) }
    {
        if depth == 0 {
            return Err(self.fault());
        }
        self.level(depth - 1, Level::Disjunction)
    }

    #[inline(always)]
    #[cycle(expression)]
    fn level(&mut self, depth: usize, level: Level) -> Result<B::Expr, ParseFault>
        ensures { IsMadeOf B.wants B.is_expr result
            (reads.of_level (reads.expression depth) level (tokens self.old.rest.now))
            (tokens self.new.rest.now) }
    {
        match level {
            Level::Disjunction => self.logical(depth, Level::Disjunction),
            Level::Conjunction => self.logical(depth, Level::Conjunction),
            Level::Negation => self.negation(depth),
            Level::Comparison => self.arithmetic(depth, Level::Comparison),
            Level::Sum => self.arithmetic(depth, Level::Sum),
            Level::Term => self.arithmetic(depth, Level::Term),
            Level::Factor => self.factor(depth),
        }
    }

    /// Returns a disjunction or conjunction: most are a negation that no operator follows.
    #[inline(never)]
    #[cycle(expression)]
    fn logical(&mut self, depth: usize, level: Level) -> Result<B::Expr, ParseFault>
        requires { reads.looseness Level.Negation < reads.looseness level }
        ensures { IsMadeOf B.wants B.is_expr result
            (reads.of_level (reads.expression depth) level (tokens self.old.rest.now))
            (tokens self.new.rest.now) }
    {
        let first = self.negation(depth)?;
        if self.at_operator() {
            return self.after_negation(depth, level, first);
        }
        Ok(first)
    }

    /// Returns the rest of a disjunction or conjunction after its first negation.
    #[inline(always)]
    #[cycle(expression)]
    fn after_negation(
        &mut self,
        depth: usize,
        level: Level,
        first: B::Expr,
    ) -> Result<B::Expr, ParseFault>
        requires { (a : ExprSyntax) × B.is_expr first a }
        ensures { (a : ExprSyntax) → B.is_expr first a → IsMadeOf B.wants B.is_expr result
            (reads.after_negation (reads.expression depth) level a (tokens self.old.rest.now))
            (tokens self.new.rest.now) }
    {
        match level {
            Level::Disjunction | Level::Conjunction => {
                let left = self.chain(depth, Level::Conjunction, Level::Negation, first)?;
                self.after_conjunction(depth, level, left)
            }
            _ => Ok(first),
        }
    }

    /// Returns the rest of a disjunction after its first conjunction.
    #[inline(always)]
    #[cycle(expression)]
    fn after_conjunction(
        &mut self,
        depth: usize,
        level: Level,
        first: B::Expr,
    ) -> Result<B::Expr, ParseFault>
        requires { (a : ExprSyntax) × B.is_expr first a }
        ensures { (a : ExprSyntax) → B.is_expr first a → IsMadeOf B.wants B.is_expr result
            (reads.after_conjunction (reads.expression depth) level a (tokens self.old.rest.now))
            (tokens self.new.rest.now) }
    {
        match level {
            Level::Disjunction => {
                self.chain(depth, Level::Disjunction, Level::Conjunction, first)
            }
            _ => Ok(first),
        }
    }

    /// Returns a comparison, sum or term: most are a factor that no operator follows.
    #[inline(always)]
    #[cycle(expression)]
    fn arithmetic(&mut self, depth: usize, level: Level) -> Result<B::Expr, ParseFault>
        requires { reads.looseness level < reads.looseness Level.Negation }
        ensures { IsMadeOf B.wants B.is_expr result
            (reads.of_level (reads.expression depth) level (tokens self.old.rest.now))
            (tokens self.new.rest.now) }
    {
        let first = self.factor(depth)?;
        if self.at_operator() {
            return self.after_factor(depth, level, first);
        }
        Ok(first)
    }

    /// Returns the rest of a comparison, sum or term after its first factor.
    #[inline(never)]
    #[cycle(expression)]
    fn after_factor(
        &mut self,
        depth: usize,
        level: Level,
        first: B::Expr,
    ) -> Result<B::Expr, ParseFault>
        requires { (a : ExprSyntax) × B.is_expr first a }
        ensures { (a : ExprSyntax) → B.is_expr first a → IsMadeOf B.wants B.is_expr result
            (reads.after_factor (reads.expression depth) level a (tokens self.old.rest.now))
            (tokens self.new.rest.now) }
    {
        match level {
            Level::Comparison | Level::Sum | Level::Term => {
                let left = self.chain(depth, Level::Term, Level::Factor, first)?;
                self.after_term(depth, level, left)
            }
            _ => Ok(first),
        }
    }

    /// Returns the rest of a comparison or sum after its first term.
    #[inline(always)]
    #[cycle(expression)]
    fn after_term(
        &mut self,
        depth: usize,
        level: Level,
        first: B::Expr,
    ) -> Result<B::Expr, ParseFault>
        requires { (a : ExprSyntax) × B.is_expr first a }
        ensures { (a : ExprSyntax) → B.is_expr first a → IsMadeOf B.wants B.is_expr result
            (reads.after_term (reads.expression depth) level a (tokens self.old.rest.now))
            (tokens self.new.rest.now) }
    {
        match level {
            Level::Comparison | Level::Sum => {
                let left = self.chain(depth, Level::Sum, Level::Term, first)?;
                self.after_sum(depth, level, left)
            }
            _ => Ok(first),
        }
    }

    /// Returns the rest of a comparison after its first sum.
    #[inline(always)]
    #[cycle(expression)]
    fn after_sum(
        &mut self,
        depth: usize,
        level: Level,
        first: B::Expr,
    ) -> Result<B::Expr, ParseFault>
        ensures { (a : ExprSyntax) → B.is_expr first a → IsMadeOf B.wants B.is_expr result
            (reads.after_sum (reads.expression depth) level a (tokens self.old.rest.now))
            (tokens self.new.rest.now) }
    {
        match level {
            Level::Comparison => self.relation(depth, first),
            _ => Ok(first),
        }
    }

    /// Parts joined by the operators of a level after the first, grouped to the left.
    #[inline(always)]
    #[cycle(expression)]
    fn chain(
        &mut self,
        depth: usize,
        level: Level,
        part: Level,
        first: B::Expr,
    ) -> Result<B::Expr, ParseFault>
        requires tighter { reads.looseness part < reads.looseness level }
        requires made { (a : ExprSyntax) × B.is_expr first a }
        ensures { (a : ExprSyntax) → B.is_expr first a → IsMadeOf B.wants B.is_expr result
            (reader.more (reads.joins level)
            (reads.of_level (reads.expression depth) part) a (tokens self.old.rest.now))
            (tokens self.new.rest.now) }
    {
        let mut left = first;
        while let Some(op) = self.operator(level) {
            left = self.joined(depth, part, op, left)?;
        }
        Ok(left)
    }

    /// Returns what was read, joined with one more part.
    #[inline(always)]
    #[cycle(expression)]
    fn joined(
        &mut self,
        depth: usize,
        part: Level,
        op: BinaryOp,
        left: B::Expr,
    ) -> Result<B::Expr, ParseFault>
        ensures { (a : ExprSyntax) → B.is_expr left a → IsMadeOf B.wants B.is_expr result
            (reads.joined op a (reads.of_level (reads.expression depth) part (tokens self.old.rest.now)))
            (tokens self.new.rest.now) }
    {
        let right = self.level(depth, part)?;
        built(self.build.binary(op, left, right))
    }

    /// Returns a sum, and another one if a relation is between them.
    #[inline(always)]
    #[cycle(expression)]
    #[tactic(auto, using(crate::proofs::Levels::one_sum, crate::proofs::Levels::two_sums))]
    fn relation(&mut self, depth: usize, left: B::Expr) -> Result<B::Expr, ParseFault>
        ensures { (a : ExprSyntax) → B.is_expr left a → IsMadeOf B.wants B.is_expr result
            (reads.related (reads.sum (reads.expression depth)) a (tokens self.old.rest.now))
            (tokens self.new.rest.now) }
    {
        let Some(op) = self.operator(Level::Comparison) else {
            return Ok(left);
        };
        self.joined(depth, Level::Sum, op, left)
    }

    #[inline(always)]
    #[cycle(expression)]
    #[tactic(auto, unfolding(crate::specs::ExpressionReader::negation))]
    fn negation(&mut self, depth: usize) -> Result<B::Expr, ParseFault>
        ensures { IsMadeOf B.wants B.is_expr result
            (reads.negation (reads.expression depth) (tokens self.old.rest.now))
            (tokens self.new.rest.now) }
    {
        let count = self.count(Mark::Not);
        let operand = self.arithmetic(depth, Level::Comparison)?;
        self.signed(UnaryOp::Not, count, operand)
    }

    #[inline(never)]
    #[cycle(expression)]
    #[tactic(auto, unfolding(crate::specs::ExpressionReader::factor))]
    fn factor(&mut self, depth: usize) -> Result<B::Expr, ParseFault>
        ensures { IsMadeOf B.wants B.is_expr result
            (reads.factor (reads.expression depth) (tokens self.old.rest.now))
            (tokens self.new.rest.now) }
    {
        let count = self.count(Mark::Minus);
        let operand = self.primary(depth)?;
        self.signed(UnaryOp::Negate, count, operand)
    }

    /// Returns a number, a name or an expression in brackets.
    #[inline(always)]
    #[cycle(expression)]
    #[tactic(auto, unfolding(crate::specs::ExpressionReader::primary))]
    fn primary(&mut self, depth: usize) -> Result<B::Expr, ParseFault>
        ensures { IsMadeOf B.wants B.is_expr result
            (reads.primary (reads.expression depth) (tokens self.old.rest.now))
            (tokens self.new.rest.now) }
    {
        let Some(next) = self.peek() else {
            return Err(self.fault());
        };
        match next.kind() {
            Kind::Number(value) => {
                self.advance();
                let at = next.start();
                Ok(self.build.number(Number { value, at }))
            }
            Kind::Name => {
                self.advance();
                Ok(self.build.variable(next.text(), next.start())?)
            }
            Kind::Mark(Mark::Open) => {
                self.advance();
                let inner = self.expression(depth)?;
                self.expect(Mark::Close)?;
                Ok(inner)
            }
            Kind::Mark(_) => Err(self.fault()),
        }
    }
}
