//! What a request asks for.

ghost use Rattle.std.specs.Prelude.{◌≡◌};
ghost use Rattle.std.specs.Str.{bytes_eq};
ghost use Rattle.pb_adapter_requests.specs.Kinds as spec;

/// What a request asks for.
#[derive(Clone, Copy, Debug, PartialEq, Eq)]
pub enum Kind {
    /// What the adapter can do.
    Initialize,
    /// A text to debug.
    Launch,
    /// Lines to stop at.
    SetBreakpoints,
    /// That the run stands at its first position.
    ConfigurationDone,
    /// Whether to stop at events.
    SetEvents,
    /// The end of the session.
    Disconnect,
    /// The end of the run.
    Terminate,
    /// The arms.
    Threads,
    /// The line of an arm.
    StackTrace,
    /// What can be shown of an arm.
    Scopes,
    /// Integers, loans or cash.
    Variables,
    /// The answer to a command of a session.
    Evaluate,
    /// A move to the next breakpoint.
    Continue,
    /// A move to the last breakpoint.
    ReverseContinue,
    /// A move to where an arm is at another line.
    Step,
    /// A move back to where an arm was at another line.
    StepBack,
    /// A move to the first position.
    Restart,
    /// That the run stands where it stands.
    Pause,
    /// Something that is not known.
    Unknown,
}

/// Returns whether a word is this text.
fn is(word: &str, text: &str) -> bool
    ensures { result ≡ bytes_eq word.now text.now }
{
    word.as_bytes() == text.as_bytes()
}

/// Returns what a command that moves the run asks for.
fn move_of(command: &str) -> Kind
    ensures { result ≡ spec.move_or command.now Kind.Unknown }
{
    if is(command, "continue") {
        Kind::Continue
    } else if is(command, "reverseContinue") {
        Kind::ReverseContinue
    } else if is(command, "next") || is(command, "stepIn") || is(command, "stepOut") {
        Kind::Step
    } else if is(command, "stepBack") {
        Kind::StepBack
    } else if is(command, "restart") {
        Kind::Restart
    } else if is(command, "pause") {
        Kind::Pause
    } else {
        Kind::Unknown
    }
}

/// Returns what a command that shows the state or moves the run asks for.
fn shown_of(command: &str) -> Kind
    ensures { result ≡ spec.shows_or command.now (spec.move_or command.now Kind.Unknown) }
{
    if is(command, "threads") {
        Kind::Threads
    } else if is(command, "stackTrace") {
        Kind::StackTrace
    } else if is(command, "scopes") {
        Kind::Scopes
    } else if is(command, "variables") {
        Kind::Variables
    } else if is(command, "evaluate") {
        Kind::Evaluate
    } else {
        move_of(command)
    }
}

/// Returns what a command asks for.
pub fn kind_of(command: &str) -> Kind
    ensures { result ≡ spec.kind_of command.now }
{
    if is(command, "initialize") {
        Kind::Initialize
    } else if is(command, "launch") {
        Kind::Launch
    } else if is(command, "setBreakpoints") {
        Kind::SetBreakpoints
    } else if is(command, "setExceptionBreakpoints") {
        Kind::SetEvents
    } else if is(command, "disconnect") {
        Kind::Disconnect
    } else if is(command, "configurationDone") {
        Kind::ConfigurationDone
    } else if is(command, "terminate") {
        Kind::Terminate
    } else {
        shown_of(command)
    }
}
