//! What a session may not say.

ghost use Rattle.std.specs.Prelude.{◌≡◌, ◌++◌, OnOk};
ghost use Rattle.pb_desk.specs.Refusals as spec;

use pb_base::NoMemory;
use pb_base::writing::put_line;

/// Why a session may not say something. The bank is not asked then.
#[derive(Clone, Copy, Debug, PartialEq, Eq)]
pub enum Refusal {
    /// The job belongs to another session.
    OfAnother,
    /// The capital is changed by operators alone, and resources are declared at the first start.
    OfOperators,
    /// There is no such session.
    NoSession,
    /// The request was carried out, and its answer is no longer kept.
    NotKept,
    /// The name is one of the server's.
    Reserved,
}

/// Returns the words of a refusal.
fn words_of(refusal: Refusal) -> &'static [u8]
    ensures { result.now ≡ spec.words_of_refusal refusal }
{
    match refusal {
        Refusal::OfAnother => b"refused S3 the job belongs to another session",
        Refusal::OfOperators =>
            b"refused S4 only an operator changes the capital, and resources are declared at the first start",
        Refusal::NoSession => b"refused S5 no such session, or not its key",
        Refusal::NotKept => b"refused S6 the answer to this request is no longer kept",
        Refusal::Reserved => b"refused S11 names that begin with -hole- are the server's",
    }
}

/// Appends the answer that a refusal is to `out`.
pub(crate) fn put_refusal(out: &mut Vec<u8>, refusal: Refusal) -> Result<(), NoMemory>
    ensures { OnOk result (out.new.items ≡ out.old.items ++ spec.refusal_text refusal) }
{
    put_line(out, words_of(refusal))?;
    put_line(out, b"ready")
}
