//! Statements.

ghost use Rattle.pb_lexer.specs.Tokens.{tokens};
ghost use Rattle.pb_lexer.specs.Tokens as spec_tokens;
ghost use Rattle.pb_grammar.specs.Lists.{append};
ghost use Rattle.pb_grammar.specs.StatementReader as reads;
ghost use Rattle.pb_grammar.specs.Making.{Adds, IsMadeOf};

use crate::builder::{Builder, built};
use crate::fault::ParseFault;
use crate::parser::Parser;
use pb_lexer::{Kind, Mark, Token};

impl<'a, 't, B: Builder> Parser<'a, 't, B> {
    /// Reads an amount of a resource, and adds it to `out`.
    #[tactic(auto, unfolding(crate::specs::StatementReader::a_pair))]
    fn add_pair(&mut self, out: &mut B::Demands) -> Result<(), ParseFault>
        ensures { IsMadeOf B.wants (λ _. Adds B.is_demands reads.concat out.old out.new) result
            (reads.a_pair (tokens self.old.rest.now)) (tokens self.new.rest.now) }
    {
        let amount = self.number()?;
        self.expect(Mark::Of)?;
        let resource = self.name()?;
        let (text, at) = (resource.text(), resource.start());
        built(self.build.add_demand(out, amount, text, at))
    }

    // Each kind of statement is read by a call of its own that is not inlined: the locals of all kinds would
    // be in each frame of the recursion of statements, and a deep program would need more stack.

    /// Returns the pairs of a hold.
    #[inline(never)]
    fn pairs(&mut self) -> Result<B::Demands, ParseFault>
        ensures { IsMadeOf B.wants B.is_demands result
            (reads.pairs (tokens self.old.rest.now)) (tokens self.new.rest.now) }
    {
        let mut found = self.build.no_demands()?;
        self.add_pair(&mut found)?;
        while self.eat(Mark::Comma) {
            self.add_pair(&mut found)?;
        }
        Ok(found)
    }

    /// Reads statements with `;` between them, and adds them to `out`.
    #[cycle(statement)]
    fn list(&mut self, depth: usize, out: &mut B::Stmts) -> Result<(), ParseFault>
        ensures { IsMadeOf B.wants (λ _. Adds B.is_stmts append out.old out.new) result
            (reads.list (reads.statement depth) (tokens self.old.rest.now))
            (tokens self.new.rest.now) }
    {
        self.statement(depth, out)?;
        while self.eat(Mark::Semicolon) {
            self.statement(depth, out)?;
        }
        Ok(())
    }

    /// Returns statements with `;` between them.
    #[cycle(statement)]
    pub(crate) fn body(&mut self, depth: usize) -> Result<B::Stmts, ParseFault>
        ensures { IsMadeOf B.wants B.is_stmts result
            (reads.list (reads.statement depth) (tokens self.old.rest.now)) (tokens self.new.rest.now) }
    {
        let mut out = self.build.no_stmts()?;
        self.list(depth, &mut out)?;
        Ok(out)
    }

    /// Returns the arms of a parbegin.
    #[cycle(statement)]
    fn arms(&mut self, depth: usize) -> Result<B::Arms, ParseFault>
        ensures { IsMadeOf B.wants B.is_arms result
            (reads.arms_part (reads.statement depth) (tokens self.old.rest.now)) (tokens self.new.rest.now) }
    {
        let mut found = self.build.no_arms()?;
        let mut body = self.build.no_stmts()?;
        self.statement(depth, &mut body)?;
        self.build.add_arm(&mut found, body)?;
        while self.eat(Mark::Semicolon) {
            let mut another = self.build.no_stmts()?;
            self.statement(depth, &mut another)?;
            self.build.add_arm(&mut found, another)?;
        }
        Ok(found)
    }

    /// Reads a statement with fewer than `depth` others round it and in it, and adds it to `out`.
    #[cycle(statement)]
    fn statement(&mut self, depth: usize, out: &mut B::Stmts) -> Result<(), ParseFault>
        ensures { IsMadeOf B.wants (λ _. Adds B.is_stmts append out.old out.new) result
            (reads.statement depth (tokens self.old.rest.now))
            (tokens self.new.rest.now) }
    {
        if depth == 0 {
            return Err(self.fault());
        }
        let Some(next) = self.peek() else {
            return Err(self.fault());
        };
        self.advance();
        self.after_first(depth - 1, next.kind(), next, out)
    }

    /// Reads the rest of a statement after its first token, which is of the kind.
    #[cycle(statement)]
    fn after_first(
        &mut self,
        depth: usize,
        kind: Kind,
        first: Token<'t>,
        out: &mut B::Stmts,
    ) -> Result<(), ParseFault>
        ensures { IsMadeOf B.wants (λ _. Adds B.is_stmts append out.old out.new) result
            (reads.statement_by depth (reads.statement depth) (spec_tokens.token first.entry)
            (spec_tokens.lexeme kind (spec_tokens.token first.entry).text) (tokens self.old.rest.now))
            (tokens self.new.rest.now) }
    {
        let line = first.line();
        match kind {
            Kind::Name => self.assign(depth, first, out),
            Kind::Mark(Mark::Skip) => Ok(()),
            Kind::Mark(Mark::Print) => self.print(depth, line, out),
            Kind::Mark(Mark::If) => self.if_else(depth, line, out),
            Kind::Mark(Mark::While) => self.while_do(depth, line, out),
            Kind::Mark(Mark::Hold) => self.hold(depth, line, out),
            Kind::Mark(Mark::Parbegin) => self.parbegin(depth, line, out),
            Kind::Mark(Mark::Begin) => self.inner(depth, out),
            _ => Err(ParseFault::Syntax(first.start())),
        }
    }

    #[inline(never)]
    fn assign(
        &mut self,
        depth: usize,
        first: Token<'t>,
        out: &mut B::Stmts,
    ) -> Result<(), ParseFault>
        ensures { IsMadeOf B.wants (λ _. Adds B.is_stmts append out.old out.new) result
            (reads.assign depth (spec_tokens.token first.entry)
            (spec_tokens.token first.entry).text (tokens self.old.rest.now)) (tokens self.new.rest.now) }
    {
        self.expect(Mark::Assign)?;
        let value = self.expression(depth)?;
        let (line, text, at) = (first.line(), first.text(), first.start());
        built(self.build.assign(out, line, text, at, value))
    }

    #[inline(never)]
    fn print(&mut self, depth: usize, line: u32, out: &mut B::Stmts) -> Result<(), ParseFault>
        ensures { IsMadeOf B.wants (λ _. Adds B.is_stmts append out.old out.new) result
            (reads.print depth line (tokens self.old.rest.now))
            (tokens self.new.rest.now) }
    {
        let value = self.expression(depth)?;
        built(self.build.print(out, line, value))
    }

    #[inline(never)]
    #[cycle(statement)]
    fn if_else(&mut self, depth: usize, line: u32, out: &mut B::Stmts) -> Result<(), ParseFault>
        ensures { IsMadeOf B.wants (λ _. Adds B.is_stmts append out.old out.new) result
            (reads.if_else depth (reads.statement depth) line (tokens self.old.rest.now))
            (tokens self.new.rest.now) }
    {
        let test = self.expression(depth)?;
        self.expect(Mark::Then)?;
        let on_true = self.body(depth)?;
        let on_false = self.otherwise(depth)?;
        self.expect(Mark::Fi)?;
        built(self.build.if_else(out, line, test, on_true, on_false))
    }

    /// Returns what follows `else`, if that comes next.
    #[cycle(statement)]
    #[tactic(auto, unfolding(crate::specs::StatementReader::otherwise))]
    fn otherwise(&mut self, depth: usize) -> Result<B::Stmts, ParseFault>
        ensures { IsMadeOf B.wants B.is_stmts result
            (reads.otherwise (reads.statement depth) (tokens self.old.rest.now)) (tokens self.new.rest.now) }
    {
        if self.eat(Mark::Else) {
            self.body(depth)
        } else {
            built(self.build.no_stmts())
        }
    }

    #[inline(never)]
    #[cycle(statement)]
    fn while_do(&mut self, depth: usize, line: u32, out: &mut B::Stmts) -> Result<(), ParseFault>
        ensures { IsMadeOf B.wants (λ _. Adds B.is_stmts append out.old out.new) result
            (reads.while_do depth (reads.statement depth) line (tokens self.old.rest.now))
            (tokens self.new.rest.now) }
    {
        let test = self.expression(depth)?;
        self.expect(Mark::Do)?;
        let body = self.body(depth)?;
        self.expect(Mark::Od)?;
        built(self.build.while_do(out, line, test, body))
    }

    #[inline(never)]
    #[cycle(statement)]
    fn hold(&mut self, depth: usize, line: u32, out: &mut B::Stmts) -> Result<(), ParseFault>
        ensures { IsMadeOf B.wants (λ _. Adds B.is_stmts append out.old out.new) result
            (reads.hold (reads.statement depth) line (tokens self.old.rest.now))
            (tokens self.new.rest.now) }
    {
        let demands = self.pairs()?;
        self.expect(Mark::Do)?;
        let body = self.body(depth)?;
        self.expect(Mark::Od)?;
        built(self.build.hold(out, line, demands, body))
    }

    #[inline(never)]
    #[cycle(statement)]
    fn parbegin(&mut self, depth: usize, line: u32, out: &mut B::Stmts) -> Result<(), ParseFault>
        ensures { IsMadeOf B.wants (λ _. Adds B.is_stmts append out.old out.new) result
            (reads.parbegin (reads.statement depth) line (tokens self.old.rest.now))
            (tokens self.new.rest.now) }
    {
        let arms = self.arms(depth)?;
        self.expect(Mark::Parend)?;
        built(self.build.parbegin(out, line, arms))
    }

    /// Reads the statements between `begin` and `end`, and adds them to `out`.
    #[cycle(statement)]
    fn inner(&mut self, depth: usize, out: &mut B::Stmts) -> Result<(), ParseFault>
        ensures { IsMadeOf B.wants (λ _. Adds B.is_stmts append out.old out.new) result
            (reads.then_mark Mark.End (reads.list (reads.statement depth) (tokens self.old.rest.now)))
            (tokens self.new.rest.now) }
    {
        self.list(depth, out)?;
        self.expect(Mark::End)
    }
}
