//! One text, spelled again.
ghost use Rattle.std.specs.Prelude.{◌≡◌, ◌≢◌, IfErr, OnOk};
ghost use Rattle.ir_text_run.specs.declared.fault.Fault.TheVariants.{Unwritable, Unreadable};
ghost use Rattle.ir_text_run.specs.Faults.{IsFaultOf, StandsWithin};
ghost use Rattle.ir_text_run.specs.Respellings.{Respells, RespellsFront};

use crate::fault::Fault;
use ir_text_names::resolve;
use ir_text_reader::parse;
use ir_text_spelling::spell_to;
use std::alloc::Global;
use std::io::Write;

/// Reads a text, resolves its names, and writes the text of its tree. The writer isn't flushed.
///
/// # Errors
/// The first fault that stops the reading, or else the first of the names; want of memory; and `Unwritable` where the writer doesn't take the text.
pub fn respell<W: Write>(alloc: Global, text: &[u8], output: &mut W) -> Result<(), Fault>
    // The text spells a tree none of whose names is wrong, and what was written is the text of that tree.
    ensures spelled { OnOk result (Respells text.now (W.contents output.old) (W.contents output.new)) }
    // Of a text with a fault nothing is written.
    ensures nothing_written { IfErr result (λ e. e ≢ Unwritable → output.new ≡ output.old) }
    // Where the writer failed, what it took is a front part of that text.
    ensures front { IfErr result (λ e. e ≡ Unwritable → RespellsFront text.now (W.contents output.old) (W.contents output.new)) }
    // Which fault it is.
    ensures fault { IfErr result (IsFaultOf text.now) }
    // It stands in the text, or at its end.
    ensures placed { IfErr result (StandsWithin text.now) }
{
    let tree = parse(alloc, text)?;
    let rows = tree.rows.as_slice();
    resolve(alloc, text, rows)?;
    match spell_to(text, rows, output) {
        Ok(()) => Ok(()),
        Err(_) => Err(Fault::Unwritable),
    }
}
