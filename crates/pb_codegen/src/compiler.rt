//! The driver: from a text to its analysis, and to code that is safe to run.

ghost use Rattle.std.specs.Prelude.{◌≡◌, ◌<◌, IfOk, IfErr, OnOk, length};
ghost use Rattle.pb_claims.specs.Fits.{FitCapital};
ghost use Rattle.pb_code.specs.View.{code_view};
ghost use Rattle.pb_codegen.specs.Compiled.{IsBeforeClaims, IsCapitalFault, IsCompiled, IsRefused, NamesClaim};
ghost use Rattle.pb_codegen.specs.Numbered.{IsReadAs, IsSpelled};
ghost use Rattle.pb_names.specs.Program.{capital_of};
ghost use Rattle.pb_names.specs.View.{resolved_view};
ghost use Rattle.pb_verifier.specs.Verified.{IsRefusedFor};

use crate::compiled::Compiled;
use crate::fault::{ClaimsFault, CompileFault};
use pb_base::limits::MAX_TEXT;
use pb_base::{Claims, NoMemory};
use pb_claims::{OverCapital, fits, infer};
use pb_code::Code;
use pb_generator::{Generated, generate};
use pb_lexer::{LexFault, lex};
use pb_names::Resolved;
use pb_parser::parse;
use pb_resolver::resolve;
use pb_verifier::{Verified, VerifyFault, verify};
use std::alloc::{Allocator, Global};

/// The numbered program of a text, and the claim of each process on each resource.
#[derive(Drop)]
pub struct Analysis<A: Allocator> {
    pub program: Resolved<A>,
    pub claims: Claims,
}

/// Numbers the program of a text and infers its claims, whether or not the capital is enough for them. The
/// program is in the memory of `trees`.
///
/// A text is refused by the first of the parts that finds a fault in it, in the order of `CompileFault`. An
/// error is `Memory` if it is out of memory at any time, also before a later part has looked at the text.
pub fn analyze<A: Allocator + Clone>(
    alloc: Global,
    trees: A,
    text: &[u8],
) -> Result<Analysis<A>, CompileFault>
    ensures analyzed { IfOk result (λ a. IsReadAs text.now (resolved_view a.program) a.claims) }
    ensures refused { IfErr result (λ fault. IsRefused text.now fault) }
    ensures early { IfErr result IsBeforeClaims }
    // A text over the limit takes no memory.
    ensures long { MAX_TEXT < length text.now → result ≡ Err (CompileFault.Lex LexFault.TooLong) }
{
    let tokens = lex(alloc, text)?;
    let tree = parse(trees.clone()?, tokens.as_slice())?;
    let program = resolve(trees, &tree)?;
    let claims = infer(alloc, &program)?;
    Ok(Analysis { program, claims })
}

/// Compiles a text. Its trees are in the memory of `trees`, and none of them is left when this returns.
///
/// A text is refused as by `analyze`, which is the first step of this, and then for the first claim over its
/// capital. An error leaves nothing after.
pub fn compile<A: Allocator + Clone>(
    alloc: Global,
    trees: A,
    text: &[u8],
) -> Result<Compiled, CompileFault>
    ensures compiled { IfOk result (λ c. IsCompiled text.now c.verified.code c.labels) }
    ensures refused { IfErr result (λ fault. IsRefused text.now fault) }
    // A text over the limit takes no memory.
    ensures long { MAX_TEXT < length text.now → result ≡ Err (CompileFault.Lex LexFault.TooLong) }
{
    let Analysis { program, claims } = analyze(alloc, trees, text)?;
    check_capital(alloc, &program, &claims)?;
    let Generated { code, labels } = generate(alloc, &program, &claims)?;
    let verified = verify_generated(alloc, code)?;
    Ok(Compiled { verified, labels })
}

/// Checks that the capital is enough for every claim.
fn check_capital<A: Allocator>(
    alloc: Global,
    program: &Resolved<A>,
    claims: &Claims,
) -> Result<(), CompileFault>
    requires { IsSpelled (resolved_view program.now) claims.now }
    ensures enough { OnOk result (FitCapital claims.now (capital_of (resolved_view program.now))) }
    ensures over { IfErr result (IsCapitalFault (resolved_view program.now) claims.now) }
{
    let capital = program.capital(alloc)?;
    match fits(claims, &capital) {
        Ok(()) => Ok(()),
        Err(over) => Err(CompileFault::Claims(name_claim(alloc, program, over)?)),
    }
}

/// Returns the fault of a claim over the capital, by the names of its process and its resource.
fn name_claim<A: Allocator>(
    alloc: Global,
    program: &Resolved<A>,
    over: OverCapital,
) -> Result<ClaimsFault, NoMemory>
    requires process { over.process < length program.now.processes.items }
    requires resource { over.resource < length program.now.resources.items }
    ensures { IfOk result (NamesClaim (resolved_view program.now) over) }
{
    let process = &program.processes[usize::from(over.process)];
    let resource = &program.resources[usize::from(over.resource)];
    Ok(ClaimsFault {
        process: Vec::from_slice(alloc, &process.name)?,
        resource: Vec::from_slice(alloc, &resource.name)?,
        claim: over.claim,
        capital: over.capital,
    })
}

/// Verifies code in which there is no fault. The error comes only if `alloc` is out of memory.
fn verify_generated(alloc: Global, code: Code) -> Result<Verified, NoMemory>
    requires { (fault : VerifyFault) → IsRefusedFor (code_view code) fault → fault ≡ VerifyFault.NoMemory }
    ensures { IfOk result (λ verified. verified.code ≡ code_view code) }
{
    match verify(alloc, code) {
        Ok(verified) => Ok(verified),
        Err((_, VerifyFault::NoMemory)) => Err(NoMemory),
        Err(_) => unreachable!(),
    }
}
