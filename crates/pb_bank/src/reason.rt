//! Why a request is granted or not, as it is said.

ghost use Rattle.std.specs.Prelude.{◌≡◌, ◌++◌, ◌∷◌, [], OnOk};
ghost use Rattle.pb_bank.specs.Refusals as spec;

use crate::said::{Jobs, Said, say};
use pb_banker::{Bank, Reason};
use pb_base::NoMemory;
use pb_base::limits::MAX_PROCESSES;

/// Returns the jobs of a bank that are marked.
pub(crate) fn jobs_of(bank: &Bank, marks: &[bool; MAX_PROCESSES]) -> Jobs
    ensures { result ≡ spec.jobs_of bank.now.state marks.now }
{
    Jobs {
        marks: *marks,
        count: bank.slots(),
    }
}

/// Says a reason; what is said of a request that is allowed is given.
pub(crate) fn say_reason(
    out: &mut Vec<Said>,
    allowed: Said,
    bank: &Bank,
    reason: &Reason,
) -> Result<(), NoMemory>
    requires { spec.IsReasonOf bank.now.state reason.now }
    ensures { OnOk result (out.new.items ≡ out.old.items ++ spec.reason_said allowed bank.now.state reason.now ∷ []) }
{
    match reason {
        Reason::Allowed => say(out, allowed),
        Reason::OverClaim(r) => say(out, Said::OverClaim(*r)),
        Reason::OverCash(r) => say(out, Said::WaitCash(*r, bank.cash(*r))),
        Reason::Rest(slots) => say(out, Said::WaitRest(jobs_of(bank, slots))),
    }
}
