//! The faults for which a text is not compiled.

ghost use Rattle.std.specs.Prelude.{◌≡◌};
ghost use Rattle.pb_codegen.specs.Compiled.{of_lex, of_parse, of_names};
ghost use Rattle.pb_codegen.specs.declared.fault.CompileFault.TheVariants.{Memory};

use pb_base::NoMemory;
use pb_lexer::LexFault;
use pb_names::NameFault;
use pb_parser::ParseFault;
use std::alloc::AllocError;

/// A process whose claim on a resource is over the capital: even alone it could not always be served. It is
/// the first such process, and the resource the first of that process, in the order in which the text
/// declares them.
#[derive(Debug, Drop, PartialEq, Eq, thiserror::Error)]
#[error("a process claims {claim} of a resource, of which there are {capital}")]
pub struct ClaimsFault {
    /// The name of the process.
    pub process: Vec<u8>,
    /// The name of the resource.
    pub resource: Vec<u8>,
    /// What the process may hold of the resource at most.
    pub claim: u64,
    /// How much of the resource there is.
    pub capital: u32,
}

/// Why a text is not compiled, by the part that refused it. The parts are asked in this order, and out of
/// memory anywhere is `Memory`.
// To add a refusal: its crate, specs/Compiled, Causes and cause.rt of pb_accept; docs/CHANGING.md.
#[derive(Debug, Drop, PartialEq, Eq, thiserror::Error)]
pub enum CompileFault {
    #[error("{0}")]
    Lex(LexFault),
    #[error("{0}")]
    Parse(ParseFault),
    #[error("{0}")]
    Names(NameFault),
    #[error("{0}")]
    Claims(ClaimsFault),
    #[error("out of memory")]
    Memory,
}

impl From<LexFault> for CompileFault {
    ghost from_gives = { λ fault e. e ≡ of_lex fault };

    fn from(fault: LexFault) -> CompileFault {
        match fault {
            LexFault::NoMemory => CompileFault::Memory,
            _ => CompileFault::Lex(fault),
        }
    }
}

impl From<ParseFault> for CompileFault {
    ghost from_gives = { λ fault e. e ≡ of_parse fault };

    fn from(fault: ParseFault) -> CompileFault {
        match fault {
            ParseFault::NoMemory => CompileFault::Memory,
            _ => CompileFault::Parse(fault),
        }
    }
}

impl From<NameFault> for CompileFault {
    ghost from_gives = { λ fault e. e ≡ of_names fault };

    fn from(fault: NameFault) -> CompileFault {
        match fault {
            NameFault::NoMemory => CompileFault::Memory,
            _ => CompileFault::Names(fault),
        }
    }
}

impl From<NoMemory> for CompileFault {
    ghost from_gives = { λ _ e. e ≡ Memory };

    fn from(_: NoMemory) -> CompileFault {
        CompileFault::Memory
    }
}

impl From<AllocError> for CompileFault {
    ghost from_gives = { λ _ e. e ≡ Memory };

    fn from(_: AllocError) -> CompileFault {
        CompileFault::Memory
    }
}
