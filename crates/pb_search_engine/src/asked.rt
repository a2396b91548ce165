//! What is asked of a text: lines that say requirements, and then print lines.

ghost use Rattle.std.specs.Prelude.{IfErr, IfOk};
ghost use Rattle.pb_code.specs.Limits.{KeepsLimits};
ghost use Rattle.pb_code.specs.View.{code_view};
ghost use Rattle.pb_search_engine.specs.Requirements.{AreRequirements, IsBadAsked, SpellsAsked};

use crate::print_lines::{PrintFault, first_line, read_prints};
use crate::requirements::{Requirement, requirement_of};
use pb_base::NoMemory;
use pb_code::Code;
use pb_search_stages::Print;
use std::alloc::Global;

/// What is asked of a text.
#[derive(Drop)]
pub struct Asked<'t> {
    /// What it has to have.
    pub requirements: Vec<Requirement<'t>>,
    /// What each run has to print.
    pub prints: Vec<Print>,
}

/// Reads requirements, a line each, and then print lines, `P.a print V` each, of the processes and arms of this code.
/// The last line feed may be missing. The first line that says neither, or a requirement after a print line, is refused,
/// with the place at which it begins.
pub fn read_asked<'t>(alloc: Global, code: &Code, text: &'t [u8]) -> Result<Asked<'t>, PrintFault>
    requires { KeepsLimits (code_view code.now) }
    ensures read { IfOk result (λ asked. SpellsAsked (code_view code.now) text.now asked.requirements.items asked.prints.items) }
    ensures refused { IfErr result (IsBadAsked (code_view code.now) text.now) }
{
    match read_requirements(alloc, text) {
        Ok((requirements, rest)) => read_after(alloc, code, text, requirements, rest),
        Err(NoMemory) => Err(PrintFault::NoMemory),
    }
}

/// Reads the lines at the beginning of a text that say requirements, and returns what follows them too.
fn read_requirements<'t>(
    alloc: Global,
    text: &'t [u8],
) -> Result<(Vec<Requirement<'t>>, &'t [u8]), NoMemory>
    ensures { IfOk result (λ x. AreRequirements text.now x.0.items x.1.now) }
{
    let mut requirements = Vec::new(alloc);
    let mut rest = text;
    while !rest.is_empty() {
        let (line, after) = first_line(rest);
        let Some(requirement) = requirement_of(line) else {
            return Ok((requirements, rest));
        };
        requirements.push(requirement)?;
        rest = after;
    }
    Ok((requirements, rest))
}

/// Reads the print lines that follow the requirements of a text.
fn read_after<'t>(
    alloc: Global,
    code: &Code,
    text: &[u8],
    requirements: Vec<Requirement<'t>>,
    rest: &[u8],
) -> Result<Asked<'t>, PrintFault>
    requires limits { KeepsLimits (code_view code.now) }
    requires before { AreRequirements text.now requirements.items rest.now }
    ensures read { IfOk result (λ asked. SpellsAsked (code_view code.now) text.now asked.requirements.items asked.prints.items) }
    ensures refused { IfErr result (IsBadAsked (code_view code.now) text.now) }
{
    match read_prints(alloc, code, rest) {
        Ok(prints) => Ok(Asked {
            requirements,
            prints,
        }),
        Err(PrintFault::NotPrint(at)) => {
            let before = text.len() - rest.len();
            Err(PrintFault::NotPrint(before + at))
        }
        Err(PrintFault::NoMemory) => Err(PrintFault::NoMemory),
    }
}
