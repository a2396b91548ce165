//! Who lends, in a document.

ghost use Rattle.std.specs.Prelude.{◌≡◌, ◌++◌, OnOk};
ghost use Rattle.pb_page.specs.Lends.{lend_part, lend_text};

use pb_base::writing::put;
use pb_base::{Lending, NoMemory};

/// Returns the word for who lends.
fn lend_word(lending: Lending) -> &'static [u8]
    ensures { result.now ≡ lend_text lending }
{
    match lending {
        Lending::ByBanker => b"banker",
        Lending::ByCash => b"cash",
    }
}

/// Appends who lends, after a comma.
pub fn put_lend(out: &mut Vec<u8>, lending: Lending) -> Result<(), NoMemory>
    ensures { OnOk result (out.new.items ≡ out.old.items ++ lend_part lending) }
{
    put(out, b",\"lend\":\"")?;
    put(out, lend_word(lending))?;
    put(out, b"\"")
}
