//! Laws over the definitions alone, each the contract of a function that does nothing.

ghost use Rattle.std.specs.Prelude.{◌≡◌, ℕ, List};
ghost use Rattle.pb_base.specs.Steppers.{Bank, State, Table};
ghost use Rattle.pb_claims.specs.Fits.{FitCapital};
ghost use Rattle.pb_code.specs.Whole.{Code, ProcessLabels};
ghost use Rattle.pb_codegen.specs.Accepted.{CanBeCompiled, HasSoundCode};
ghost use Rattle.pb_codegen.specs.Compiled.{IsCompiled};
ghost use Rattle.pb_codegen.specs.Correct.{ImplementsUnder, IsFollowed, generated};
ghost use Rattle.pb_codegen.specs.Form.{IsFormed};
ghost use Rattle.pb_generator.specs.Generate.{program_code};
ghost use Rattle.pb_codegen.specs.Numbered.{IsReadAs};
ghost use Rattle.pb_generator.specs.Sizes.{IsGeneratable};
ghost use Rattle.pb_codegen.specs.SourceBehaviour.{SourceAsksWithin, SourceIsSafe, SourceIsWellFormed, SourceReaches};
ghost use Rattle.pb_lexer.specs.Cutting.{AreTokensOf};
ghost use Rattle.pb_lexer.specs.Tokens.{Token};
ghost use Rattle.pb_names.specs.Meaning.{AreClaims};
ghost use Rattle.pb_names.specs.Program.{AllWellNumbered, Process, Program, capital_of};
ghost use Rattle.pb_names.specs.Resolves.{Resolves};
ghost use Rattle.pb_names.specs.Source.{SourceProcess};
ghost use Rattle.pb_parser.specs.Limits.{IsSmallTree};
ghost use Rattle.pb_grammar.specs.Programs.{ReadsProgram};
ghost use Rattle.pb_tree.specs.Syntax.{ProgramSyntax};
ghost use Rattle.pb_verifier.specs.Behaviour.{IsWellBehaved};
ghost use Rattle.pb_verifier.specs.Verified.{IsFaultless};

/// The code of well numbered processes can make the events that the processes can make.
pub fn same_events()
    ensures { (bank : Bank) (program : List Process)
        → AllWellNumbered program → ImplementsUnder bank program (generated program) }
{}

/// After any picks of the code the source has made their shadow, and the line at the place of each live
/// arm is the line of that arm's first item there.
pub fn lines_follow_the_source()
    ensures { (bank : Bank) (program : List Process)
        → AllWellNumbered program → IsFollowed bank program (generated program) }
{}

/// The tree of a text has names if it declares processes, resources and integers, a pair in each hold, an arm
/// in each parbegin, and a process.
pub fn names_of_read_programs()
    ensures { (text : List ℕ) (tokens : List Token) (tree : ProgramSyntax)
        → AreTokensOf text tokens → ReadsProgram tokens tree → IsFormed tree }
{}

/// A program whose tree is within its limits has code whose places, arms and integers can be numbered.
pub fn resolved_programs_can_be_generated()
    ensures { (tree : ProgramSyntax) (program : Program)
        → IsSmallTree tree → Resolves tree program → IsGeneratable program }
{}

/// The code of an accepted program, under its claims, has none of the faults that the verifier looks for.
pub fn generated_code_is_verified()
    ensures { (tree : ProgramSyntax) (program : Program) (claims : Table)
        → CanBeCompiled tree program claims → IsFaultless (program_code program claims) }
{}

/// Once a text is cut, read within the limits and resolved, and the capital is enough for its claims, its
/// code can be generated, is verified unless out of memory, and is well behaved; and the program keeps its
/// claims.
pub fn accepted_texts_have_sound_code()
    ensures { (text : List ℕ) (tokens : List Token) (tree : ProgramSyntax) (program : Program) (claims : Table)
        → AreTokensOf text tokens → ReadsProgram tokens tree → IsSmallTree tree → Resolves tree program
        → AreClaims program claims → FitCapital claims (capital_of program) → HasSoundCode program claims }
{}

/// In no state that the source of a program reaches under its claims is an arm at a request beyond
/// its claim.
pub fn source_requests_stay_within_claims()
    ensures { (tree : ProgramSyntax) (program : Program) (claims : Table)
        → Resolves tree program → AreClaims program claims
        → (s : State SourceProcess) → SourceReaches program claims s → SourceAsksWithin program claims s }
{}

/// If the capital is enough for the claims, then in every state that the source of a program reaches each
/// loan is within its claim, all loans together are within the capital, and the loans are safe.
pub fn source_states_stay_safe()
    ensures well_formed { (tree : ProgramSyntax) (program : Program) (claims : Table)
        → Resolves tree program → AreClaims program claims → FitCapital claims (capital_of program)
        → (s : State SourceProcess) → SourceReaches program claims s → SourceIsWellFormed program claims s }
    ensures safe { (tree : ProgramSyntax) (program : Program) (claims : Table)
        → Resolves tree program → AreClaims program claims → FitCapital claims (capital_of program)
        → (s : State SourceProcess) → SourceReaches program claims s → SourceIsSafe program claims s }
{}

/// The code of an accepted program is well behaved: no test fails, no request passes its claim, each loan is
/// within its claim and all loans together within the capital, the loans are safe, and not all wait.
pub fn generated_code_is_well_behaved()
    ensures { (tree : ProgramSyntax) (program : Program) (claims : Table)
        → CanBeCompiled tree program claims → IsWellBehaved (program_code program claims) }
{}

/// A text spells at most one numbered program, with one table of claims.
pub fn one_analysis()
    ensures { (text : List ℕ) (program other : Program) (claims others : Table)
        → IsReadAs text program claims → IsReadAs text other others → (program ≡ other) × (claims ≡ others) }
{}

/// A text is compiled to at most one code, with one list of labels.
pub fn one_code()
    ensures { (text : List ℕ) (code other : Code) (labels others : List ProcessLabels)
        → IsCompiled text code labels → IsCompiled text other others → (code ≡ other) × (labels ≡ others) }
{}
