//! The code of a program.

ghost use Rattle.std.specs.Prelude.{◌≡◌, IfOk};
ghost use Rattle.pb_code.specs.View.{code_view, labels_view};
ghost use Rattle.pb_generator.specs.Generate.{program_code};
ghost use Rattle.pb_generator.specs.Lines.{program_labels};
ghost use Rattle.pb_generator.specs.Sizes.{IsGeneratable};
ghost use Rattle.pb_names.specs.View.{resolved_view};

use crate::names::program_names;
use crate::process::{Processes, write_processes};
use pb_base::{Claims, NoMemory};
use pb_code::{Code, Labels};
use pb_names::Resolved;
use std::alloc::{Allocator, Global};

/// Code, with what is known of it while it is written.
#[derive(Drop)]
pub struct Generated {
    pub code: Code,
    /// The source line of each place, and the names of the integers.
    pub labels: Labels,
}

/// Returns the code of a program whose processes have these claims, with its labels: one pass over each
/// process, in which jumps forward are patched. The error comes only if `alloc` is out of memory.
pub fn generate<A: Allocator>(
    alloc: Global,
    program: &Resolved<A>,
    claims: &Claims,
) -> Result<Generated, NoMemory>
    requires { IsGeneratable (resolved_view program.now) }
    ensures code { IfOk result (λ g. code_view g.code ≡ program_code (resolved_view program.now) claims.now) }
    ensures labels { IfOk result (λ g. labels_view g.labels ≡ program_labels (resolved_view program.now)) }
{
    let names = program_names(alloc, program)?;
    let capital = program.capital(alloc)?;
    let claims = claims.copy(alloc)?;
    let Processes {
        code: processes,
        labels,
    } = write_processes(alloc, &program.processes)?;
    Ok(Generated {
        code: Code {
            names,
            capital,
            claims,
            processes,
        },
        labels: Labels { processes: labels },
    })
}
