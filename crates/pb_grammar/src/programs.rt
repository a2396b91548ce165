//! Declarations and programs.

ghost use Rattle.std.specs.Prelude.{[]};
ghost use Rattle.pb_lexer.specs.Tokens as spec_tokens;
ghost use Rattle.pb_grammar.specs.ProgramReader as reads;
ghost use Rattle.pb_grammar.specs.StatementReader.{concat};
ghost use Rattle.pb_grammar.specs.Making.{Adds, IsMadeOf};

use crate::builder::{Builder, built};
use crate::fault::ParseFault;
use crate::parser::Parser;
use pb_lexer::{Mark, Token};

/// At most this many parts of a program are in one another if at most 256 brackets and statements are open.
pub const DEPTH: usize = 257;

impl<'a, 't, B: Builder> Parser<'a, 't, B> {
    /// Reads a name, and adds it to `out`.
    #[tactic(auto, unfolding(crate::specs::ProgramReader::one_name))]
    fn add_name(&mut self, out: &mut B::Names) -> Result<(), ParseFault>
        ensures { IsMadeOf B.wants (λ _. Adds B.is_names concat out.old out.new) result
            (reads.one_name (spec_tokens.tokens self.old.rest.now)) (spec_tokens.tokens self.new.rest.now) }
    {
        let name = self.name()?;
        let (text, at) = (name.text(), name.start());
        built(self.build.add_name(out, text, at))
    }

    fn names(&mut self) -> Result<B::Names, ParseFault>
        ensures { IsMadeOf B.wants B.is_names result
            (reads.names (spec_tokens.tokens self.old.rest.now)) (spec_tokens.tokens self.new.rest.now) }
    {
        let mut found = self.build.no_names()?;
        self.add_name(&mut found)?;
        while self.eat(Mark::Comma) {
            self.add_name(&mut found)?;
        }
        Ok(found)
    }

    /// Reads a resource and how much there is of it, and adds it to `out`.
    #[tactic(auto, unfolding(crate::specs::ProgramReader::a_resource))]
    fn add_resource(&mut self, out: &mut B::Resources) -> Result<(), ParseFault>
        ensures { IsMadeOf B.wants (λ _. Adds B.is_resources concat out.old out.new) result
            (reads.a_resource (spec_tokens.tokens self.old.rest.now)) (spec_tokens.tokens self.new.rest.now) }
    {
        let name = self.name()?;
        self.expect(Mark::Equal)?;
        let capital = self.number()?;
        self.expect(Mark::Semicolon)?;
        let (text, at) = (name.text(), name.start());
        built(self.build.add_resource(out, text, at, capital))
    }

    fn resources(&mut self) -> Result<B::Resources, ParseFault>
        ensures { IsMadeOf B.wants B.is_resources result
            (reads.resources_part (spec_tokens.tokens self.old.rest.now)) (spec_tokens.tokens self.new.rest.now) }
    {
        let mut found = self.build.no_resources()?;
        while self.eat(Mark::Resource) {
            self.add_resource(&mut found)?;
        }
        Ok(found)
    }

    /// Returns the names of integers, if some are declared.
    #[tactic(auto, unfolding(crate::specs::ProgramReader::integers))]
    fn integers(&mut self) -> Result<B::Names, ParseFault>
        ensures { IsMadeOf B.wants B.is_names result
            (reads.integers (spec_tokens.tokens self.old.rest.now)) (spec_tokens.tokens self.new.rest.now) }
    {
        if !self.eat(Mark::Integer) {
            return Ok(self.build.no_names()?);
        }
        let found = self.names()?;
        self.expect(Mark::Semicolon)?;
        Ok(found)
    }

    /// Reads a process, and adds it to `out`.
    #[tactic(auto, unfolding(crate::specs::ProgramReader::a_process))]
    fn process(&mut self, depth: usize, out: &mut B::Processes) -> Result<(), ParseFault>
        ensures { IsMadeOf B.wants (λ _. Adds B.is_processes concat out.old out.new) result
            (reads.a_process depth (spec_tokens.tokens self.old.rest.now))
            (spec_tokens.tokens self.new.rest.now) }
    {
        let name = self.name()?;
        self.expect(Mark::Begin)?;
        let integers = self.integers()?;
        let body = self.body(depth)?;
        self.expect(Mark::End)?;
        let (text, at) = (name.text(), name.start());
        built(self.build.add_process(out, text, at, integers, body))
    }

    fn processes(&mut self, depth: usize) -> Result<B::Processes, ParseFault>
        ensures { IsMadeOf B.wants B.is_processes result
            (reads.processes_part depth (spec_tokens.tokens self.old.rest.now))
            (spec_tokens.tokens self.new.rest.now) }
    {
        let mut found = self.build.no_processes()?;
        self.expect(Mark::Process)?;
        self.process(depth, &mut found)?;
        while self.eat(Mark::Process) {
            self.process(depth, &mut found)?;
        }
        Ok(found)
    }

    #[tactic(auto, unfolding(crate::specs::ProgramReader::program))]
    fn program(&mut self, depth: usize) -> Result<B::Program, ParseFault>
        ensures { IsMadeOf B.wants B.is_program result
            (reads.program depth (spec_tokens.tokens self.old.rest.now))
            (spec_tokens.tokens self.new.rest.now) }
    {
        let resources = self.resources()?;
        let processes = self.processes(depth)?;
        self.end()?;
        Ok(self.build.program(resources, processes))
    }
}

/// Returns what the builder makes of the tokens, all of which are one program.
///
/// The fault is `Syntax` if they are not a program, at the place where no program goes on, or `NoMemory` if the
/// builder is out of memory. The call nests as deep as the program does, at most [`DEPTH`] parts in one another.
pub fn read<B: Builder>(build: B, tokens: &[Token<'_>]) -> Result<B::Program, ParseFault>
    ensures { IsMadeOf B.wants B.is_program result
        (reads.program DEPTH (spec_tokens.tokens tokens.now)) [] }
{
    let mut parser = Parser {
        build,
        rest: tokens,
        end: 0,
    };
    parser.program(DEPTH)
}
