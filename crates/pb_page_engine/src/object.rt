//! The object of some code.

ghost use Rattle.std.specs.Prelude.{IfOk};
ghost use Rattle.pb_code.specs.Limits.{AreLabels};
ghost use Rattle.pb_code.specs.View.{labels_view};
ghost use Rattle.pb_object.specs.Answers.{SpellsCode};
ghost use Rattle.pb_code.specs.declared.format.Format.TheVariants.{Two};

use pb_base::NoMemory;
use pb_code::Labels;
use pb_object::write_object2;
use pb_verifier::Verified;
use std::alloc::Global;

/// Returns the object of verified code in the second format.
pub(crate) fn object_of(
    alloc: Global,
    verified: &Verified,
    labels: &Labels,
) -> Result<Vec<u8>, NoMemory>
    requires { AreLabels verified.now.code (labels_view labels.now) }
    ensures { IfOk result (λ object.
        SpellsCode Two verified.now.code (labels_view labels.now) object.items) }
{
    let code = verified.code();
    write_object2(alloc, code, labels)
}
