//! What each reserved word means.

ghost use Rattle.std.specs.Prelude.{◌≡◌, option_map};
ghost use Rattle.pb_server_claims.specs.Words as spec;

use pb_lexer::Mark;

/// Returns what a reserved word means; none of the other symbols.
pub(crate) fn meaning(mark: Mark) -> Option<&'static str>
    ensures { option_map (λ words. words.now) result ≡ spec.meaning mark }
{
    match mark {
        Mark::And => Some("1 if both sides are not 0, otherwise 0. Both sides are evaluated."),
        Mark::Begin => Some("Begins the body of a process, or a list of statements, up to `end`."),
        Mark::Div => Some(
            "The quotient, cut toward zero: -7 div 2 is -3. By zero the process ends with the fault `divide`.",
        ),
        Mark::Do => Some("Begins the statements of a `while` or a `hold`, up to `od`."),
        Mark::Else => Some("Begins the statements that run if the test is 0, up to `fi`."),
        Mark::End => Some("Ends what `begin` began."),
        Mark::Fi => Some("Ends an `if`."),
        Mark::Hold => Some(
            "Has these amounts lent while its statements run. It is entered when the banker lends them.",
        ),
        Mark::If => Some(
            "Runs the statements after `then` if the test is not 0, otherwise those after `else`.",
        ),
        Mark::Integer => Some("Declares the integers of the process, which are 0 at first."),
        Mark::Mod => Some(
            "The remainder, with the sign of the left side: -7 mod 2 is -1. By zero the process ends with the fault `divide`.",
        ),
        Mark::Not => Some("1 if what follows is 0, otherwise 0."),
        Mark::Od => Some("Ends a `while`, or a `hold`, which gives back what it was lent."),
        Mark::Of => Some("Stands between an amount and its resource."),
        Mark::Or => Some(
            "1 if one side is not 0, or both are not, otherwise 0. Both sides are evaluated.",
        ),
        Mark::Parbegin => Some(
            "Runs the statements up to `parend` side by side, each as an arm, which share the integers of the process.",
        ),
        Mark::Parend => Some("Ends a `parbegin`: what follows runs when all its arms have ended."),
        Mark::Print => Some("Prints the value of the expression."),
        Mark::Process => Some("Declares a process, which runs beside the others."),
        Mark::Resource => Some("Declares a resource, and how much of it there is in all."),
        Mark::Skip => Some("Does nothing."),
        Mark::Then => Some("Begins the statements that run if the test is not 0."),
        Mark::While => Some(
            "Runs the statements up to `od` as long as the test is not 0. The test comes before each time.",
        ),
        Mark::Assign
        | Mark::Semicolon
        | Mark::Comma
        | Mark::Open
        | Mark::Close
        | Mark::Plus
        | Mark::Minus
        | Mark::Star
        | Mark::Equal
        | Mark::NotEqual
        | Mark::Less
        | Mark::AtMost
        | Mark::Greater
        | Mark::AtLeast => None,
    }
}
