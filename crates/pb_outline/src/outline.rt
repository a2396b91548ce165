//! The outline of a program.

ghost use Rattle.std.specs.Prelude.{◌≡◌, IfOk, map};
ghost use Rattle.pb_tree.specs.View.{program_view};
ghost use Rattle.pb_lexer.specs.Tokens.{tokens as tokens_view};
ghost use Rattle.pb_outline.specs.Declares.{declared_by as declared_by_tokens};
ghost use Rattle.pb_outline.specs.Places as spec;

use crate::place::Place;
use crate::reading::declared_by;
use crate::walk::{add_processes, add_resources};
use pb_base::NoMemory;
use pb_lexer::Token;
use pb_tree::Program;
use std::alloc::{Allocator, Global};

/// The names of a program, in the order of its text.
#[derive(Drop)]
pub struct Outline<'t> {
    pub(crate) places: Vec<Place<'t>>,
}

impl<'t> Outline<'t> {
    /// Returns the names of a program. The error comes only if `alloc` is out of memory.
    pub fn of<A: Allocator>(alloc: Global, program: &'t Program<A>) -> Result<Outline<'t>, NoMemory>
        ensures { IfOk result (λ outline. spec.places outline ≡ spec.program_places (program_view program.now)) }
    {
        let mut places = Vec::new(alloc);
        add_resources(&mut places, &program.resources)?;
        add_processes(&mut places, &program.processes)?;
        Ok(Outline { places })
    }

    /// Returns the names that the tokens of a text declare, whether or not they are a program. The error comes only if
    /// `alloc` is out of memory.
    pub fn of_tokens(alloc: Global, tokens: &[Token<'t>]) -> Result<Outline<'t>, NoMemory>
        ensures { IfOk result (λ outline. spec.places outline ≡ declared_by_tokens (tokens_view tokens.now)) }
    {
        let places = declared_by(alloc, tokens)?;
        Ok(Outline { places })
    }

    /// Returns all names, in the order of the text.
    pub fn places(&self) -> &[Place<'t>]
        ensures { map spec.place result.now ≡ spec.places self.now }
    {
        &self.places
    }
}
