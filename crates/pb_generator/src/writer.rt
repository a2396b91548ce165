//! The code of a process while it is written.

ghost use Rattle.std.specs.Prelude.{◌≡◌, ◌<◌, ◌≤◌, [], ◌∷◌, length, slice_get, IfOk, OnOk, Some};
ghost use Rattle.pb_code.specs.Code.{Take};
ghost use Rattle.pb_code.specs.Bundles.{IsPlain, NamesBelow};
ghost use Rattle.pb_code.specs.View.{instr_view};
ghost use Rattle.pb_generator.specs.Emitted.{Adds, HasRoom, IsSound, Replaces, place};

use pb_base::limits::MAX_PLACES;
use pb_base::{Bundle, NoMemory};
use pb_code::Instr;
use std::alloc::Global;

/// The instructions so far, the source line of each, and the bundles that they name.
#[derive(Drop)]
pub(crate) struct Writer {
    pub(crate) instrs: Vec<Instr>,
    pub(crate) lines: Vec<Option<u32>>,
    pub(crate) bundles: Vec<Bundle>,
}

impl Writer {
    /// Returns a writer that has written nothing.
    pub(crate) fn new(alloc: Global) -> Writer
        ensures instrs { result.instrs.items ≡ [] }
        ensures lines { result.lines.items ≡ [] }
        ensures bundles { result.bundles.items ≡ [] }
    {
        Writer {
            instrs: Vec::new(alloc),
            lines: Vec::new(alloc),
            bundles: Vec::new(alloc),
        }
    }

    /// Returns the place of the next instruction.
    pub(crate) fn place(&self) -> u16
        requires { place self.now ≤ MAX_PLACES }
        ensures { result ≡ place self.now }
    {
        self.instrs.len() as u16
    }

    /// Appends an instruction. A bundle that it names is there.
    pub(crate) fn put(&mut self, line: Option<u32>, instr: Instr) -> Result<(), NoMemory>
        requires sound { IsSound self.old }
        requires named { NamesBelow (length self.old.bundles.items) instr }
        ensures { OnOk result
            (Adds self.old self.new (instr_view self.old.bundles.items instr ∷ []) (line ∷ [])) }
    {
        self.instrs.push(instr)?;
        self.lines.push(line)?;
        Ok(())
    }

    /// Appends a `take`, and returns the place of its bundle.
    pub(crate) fn put_take(&mut self, line: u32, bundle: &Bundle) -> Result<u16, NoMemory>
        requires { HasRoom self.old (Take bundle.now ∷ []) }
        ensures added { OnOk result (Adds self.old self.new (Take bundle.now ∷ []) (Some line ∷ [])) }
        ensures bundle { IfOk result (λ k. slice_get self.new.bundles.items k ≡ Some bundle.now) }
    {
        let place = self.bundles.len() as u16;
        self.bundles.push(*bundle)?;
        self.instrs.push(Instr::Take(place))?;
        self.lines.push(Some(line))?;
        Ok(place)
    }

    /// Writes an instruction that names no bundle in place of one that is there.
    pub(crate) fn patch(&mut self, place: u16, instr: Instr)
        requires sound { IsSound self.old }
        requires there { place < length self.old.instrs.items }
        requires plain { IsPlain instr }
        ensures { Replaces self.old self.new place (instr_view [] instr) }
    {
        self.instrs[place as usize] = instr;
    }
}
