//! Writing a text, of which only a beginning is written if a write fails.
ghost use Rattle.std.specs.Prelude.{◌≡◌, OnOk, IfErr};
ghost use Rattle.std.specs.Io.KnownBytes.{Appends};
ghost use Rattle.vecscript.specs.Print.{AppendsBeginning};
ghost use Rattle.vecscript.specs.declared.script.Fault.TheVariants.{InputOutput};

use crate::script::Fault;
use std::io::{ErrorKind, Write};

/// Writes the whole text.
///
/// An interrupted write is tried again. Does not allocate.
///
/// # Errors
/// `Fault::InputOutput` if another write fails, or returns 0. A beginning of the text was written.
#[tactic(auto, using(crate::proofs::Beginnings::written))]
pub fn write_text<W: Write>(text: &[u8], output: &mut W) -> Result<(), Fault>
    ensures written { OnOk result (Appends (W.contents output.old)
        (W.contents output.new) text.now) }
    ensures part { AppendsBeginning (W.contents output.old) (W.contents output.new) text.now }
    ensures error { IfErr result (λ fault. fault ≡ InputOutput) }
{
    let mut rest = text;
    'tries: for _ in 0..u64::MAX {
        if rest.is_empty() {
            return Ok(());
        }
        match output.write(rest) {
            Ok(0) => return Err(Fault::InputOutput),
            Ok(count) => rest = &rest[count..],
            Err(error) => {
                if error.kind() != ErrorKind::Interrupted {
                    return Err(Fault::InputOutput);
                }
            }
        }
    }
    Err(Fault::InputOutput)
}
