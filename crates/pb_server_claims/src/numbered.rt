//! The numbered program of a tree, with its claims.

ghost use Rattle.std.specs.Prelude.{◌≡◌, ℕ, IfOk, List, length, option_map};
ghost use Rattle.pb_lexer.specs.Tokens.{Token};
ghost use Rattle.pb_names.specs.Meaning.{AreClaims};
ghost use Rattle.pb_names.specs.Resolves.{Resolves, process_names, resource_names};
ghost use Rattle.pb_names.specs.View.{resolved_view};
ghost use Rattle.pb_server_claims.specs.Numbered as spec;
ghost use Rattle.pb_server_texts.specs.Reading.{IsRead};
ghost use Rattle.pb_tree.specs.Syntax.{ProgramSyntax};
ghost use Rattle.pb_tree.specs.View.{program_view};

use pb_base::{Claims, NoMemory};
use pb_claims::infer;
use pb_names::{NameFault, Resolved};
use pb_plan::{Part, claim_parts};
use pb_resolver::resolve;
use pb_tree::Program;
use std::alloc::Global;

/// A numbered program, and the claim of each process on each resource.
#[derive(Drop)]
pub(crate) struct Numbered {
    pub(crate) program: Resolved<Global>,
    pub(crate) claims: Claims,
}

/// Returns the claims of the program of a tree.
fn claims_of(alloc: Global, program: &Resolved<Global>) -> Result<Claims, NoMemory>
    requires { (text : List ℕ) × (tokens : List Token) × (tree : ProgramSyntax)
        × IsRead text tokens tree × Resolves tree (resolved_view program.now) }
    ensures { IfOk result (AreClaims (resolved_view program.now)) }
{
    infer(alloc, program)
}

/// Returns the numbered program of a tree that was read, with its claims, whether or not the capital is enough for them;
/// none if its names have a fault. The error comes only if `alloc` is out of memory.
pub(crate) fn number_tree(
    alloc: Global,
    tree: &Program<Global>,
) -> Result<Option<Numbered>, NoMemory>
    requires { (text : List ℕ) × (tokens : List Token) × IsRead text tokens (program_view tree.now) }
    ensures { IfOk result (λ found. spec.IsFound (program_view tree.now) (option_map spec.numbered found)) }
{
    match resolve(alloc, tree) {
        Ok(program) => {
            let claims = claims_of(alloc, &program)?;
            Ok(Some(Numbered { program, claims }))
        }
        Err(fault) => match fault {
            NameFault::NoMemory => Err(NoMemory),
            _ => Ok(None),
        },
    }
}

impl Numbered {
    /// Returns how many processes there are.
    pub(crate) fn processes(&self) -> usize
        ensures { result ≡ length (spec.numbered self.now).program.processes }
    {
        self.program.processes.len()
    }

    /// Returns how many resources there are.
    pub(crate) fn resources(&self) -> usize
        ensures { result ≡ length (spec.numbered self.now).program.resources }
    {
        self.program.resources.len()
    }

    /// Returns the name of a process.
    pub(crate) fn process_name(&self, p: usize) -> &[u8]
        ensures { result.now ≡ spec.process_name (spec.numbered self.now) p }
    {
        match self.program.processes.get(p) {
            Some(process) => &process.name,
            None => &[],
        }
    }

    /// Returns the name of a resource.
    pub(crate) fn resource_name(&self, r: usize) -> &[u8]
        ensures { result.now ≡ spec.resource_name (spec.numbered self.now) r }
    {
        match self.program.resources.get(r) {
            Some(resource) => &resource.name,
            None => &[],
        }
    }

    /// Returns how much there is of a resource.
    pub(crate) fn capital(&self, r: usize) -> u32
        ensures { result ≡ spec.capital (spec.numbered self.now) r }
    {
        match self.program.resources.get(r) {
            Some(resource) => resource.capital,
            None => 0,
        }
    }

    /// Returns how much a process may hold of a resource at once.
    pub(crate) fn claim(&self, p: usize, r: usize) -> u64
        ensures { result ≡ spec.claim (spec.numbered self.now) p r }
    {
        if p < self.claims.processes() && r < self.claims.resources() {
            self.claims.get(p, r)
        } else {
            0
        }
    }

    /// Returns the holds that make up a claim.
    pub(crate) fn parts(&self, alloc: Global, p: usize, r: usize) -> Result<Vec<Part>, NoMemory>
        ensures { IfOk result (λ found. found.items ≡ spec.claim_parts (spec.numbered self.now) p r) }
    {
        match self.program.processes.get(p) {
            Some(process) => claim_parts(alloc, process, r),
            None => Ok(Vec::new(alloc)),
        }
    }
}
