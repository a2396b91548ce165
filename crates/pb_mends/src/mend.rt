//! An edit, and the text that it leaves.

ghost use Rattle.std.specs.Prelude.{◌≡◌, ◌≤◌, IfOk, length};
ghost use Rattle.pb_mends.specs.Mends.{edit_of, edited as edited_text};

use pb_base::NoMemory;
use std::alloc::Global;

/// An edit of a text, with what it does in words.
#[derive(Drop)]
pub struct Mend {
    /// What it does, in a few words.
    pub title: String,
    /// The offset of the first byte that is replaced.
    pub start: usize,
    /// The offset after the last byte that is replaced.
    pub end: usize,
    /// The bytes in their place.
    pub bytes: String,
}

/// Returns the text that an edit leaves.
pub fn edited(alloc: Global, text: &[u8], mend: &Mend) -> Result<Vec<u8>, NoMemory>
    requires order { mend.now.start ≤ mend.now.end }
    requires within { mend.now.end ≤ length text.now }
    ensures { IfOk result (λ v. v.items ≡ edited_text text.now (edit_of mend.now)) }
{
    let mut out = Vec::new(alloc);
    out.extend_from_slice(&text[..mend.start])?;
    out.extend_from_slice(mend.bytes.as_bytes())?;
    out.extend_from_slice(&text[mend.end..])?;
    Ok(out)
}
