//! What a plan says.

use pb_codegen::CompileFault;
use pb_joint::FullName;
use pb_plan::Part;

/// Why a text is refused.
#[derive(Drop)]
pub struct Refusal {
    /// The number of the text, from 1, if there are several.
    pub text: Option<u128>,
    pub fault: CompileFault,
}

/// The most that a process may hold of a resource, and the holds that it comes from.
#[derive(Drop)]
pub struct Claim {
    pub process: FullName,
    pub amount: u64,
    pub resource: Vec<u8>,
    pub parts: Vec<Part>,
}

/// How much there is of a resource, and how much is needed: for the greatest claim, and for all claims at once.
#[derive(Drop)]
pub struct Need {
    pub name: Vec<u8>,
    pub capital: u32,
    pub least: u64,
    pub free: u128,
}

/// A hold of a resource inside a hold of another one, and the line of each.
#[derive(Drop)]
pub struct Nested {
    pub process: FullName,
    pub outer: Vec<u8>,
    pub outer_line: u32,
    pub inner: Vec<u8>,
    pub inner_line: u32,
}

/// One thing that is said.
// To add one: specs/{Sayings,Objects,View}, `tell_line` and `tell_object`.
#[derive(Drop)]
pub enum Said {
    /// A text is refused.
    Refused(Refusal),
    /// A change of the capital names this resource, which there is not.
    Unknown(Vec<u8>),
    /// A process has this claim on a resource.
    Claim(Claim),
    /// So much there is of a resource, and so much is needed.
    Resource(Need),
    /// Most is lacking of this resource.
    Bottleneck(Vec<u8>),
    /// All processes follow this order of resources.
    Order(Vec<Vec<u8>>),
    /// A hold of a circle.
    Nest(Nested),
    /// There is enough for all claims at once.
    NoRequestWaits,
    /// There is no order that all processes follow.
    NoOrder,
    /// The input is too long.
    TooLong,
    /// Out of memory.
    NoMemory,
}
