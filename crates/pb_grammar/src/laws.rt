//! Laws of the grammar alone.

ghost use Rattle.std.specs.Prelude.{◌≡◌, List};
ghost use Rattle.pb_lexer.specs.Tokens as tokens;
ghost use Rattle.pb_tree.specs.Syntax as tree;
ghost use Rattle.pb_grammar.specs.Programs.{ReadsProgram};

/// No tokens read as two programs.
#[tactic(auto, using(crate::proofs::ProgramLaws::one_program))]
pub fn one_program()
    ensures { (ts : List tokens.Token) (a b : tree.ProgramSyntax)
        → ReadsProgram ts a → ReadsProgram ts b → a ≡ b }
{}
