// Printing an update as a script.
ghost use Rattle.std.specs.Prelude.{◌≡◌, [], ◌∷◌, ◌++◌, IfOk, Ok, OnOk};
ghost use Rattle.format.specs.Writing.{decimal};
ghost use Rattle.scripts.specs.Reads.{update_of};
ghost use Rattle.scripts.specs.Rows.{change_of};
ghost use Rattle.scripts.specs.Scripts.{change_bytes, print_script, read_script};

use crate::change::Change;
use crate::dots::add_text;
use crate::script::Script;
use std::alloc::{AllocError, Global};
use writer::ten_digits::TenDigits;

// Appends a number in decimal. `write!` into a Vec fails by an `io::Error`, and all that can fail here is to get memory: the writer's `decimal` goes
// into a draft, which has it already.
fn add_decimal(out: &mut Vec<u8>, n: TenDigits) -> Result<(), AllocError>
    ensures { OnOk result (out.new.items ≡ out.old.items ++ decimal n.value) }
{
    if n.value < 10 {
        // `as`, here and below: what is cast is below 10, and `u8::try_from` would have an answer to what cannot be.
        out.push(b'0' + n.value as u8)?;
        return Ok(());
    }
    add_decimal(out, n.tens())?;
    out.push(b'0' + (n.value % 10) as u8)?;
    Ok(())
}

// Appends a line of a word and a number.
fn add_head(out: &mut Vec<u8>, word: &[u8], n: TenDigits) -> Result<(), AllocError>
    ensures { OnOk result (out.new.items ≡ out.old.items ++ (word.now ++ (decimal n.value ++ (10 ∷ [])))) }
{
    out.extend_from_slice(word)?;
    add_decimal(out, n)?;
    out.push(b'\n')?;
    Ok(())
}

// Appends a change.
fn add_change(
    out: &mut Vec<u8>,
    number: TenDigits,
    change: &Change<Vec<u8>>,
) -> Result<(), AllocError>
    ensures { OnOk result (out.new.items ≡ out.old.items ++ change_bytes number.value (change_of change.now)) }
{
    match change {
        Change::Removed => {
            add_head(out, b"remove ", number)?;
            Ok(())
        }
        Change::Body(bytes) => {
            add_head(out, b"put ", number)?;
            add_text(out, bytes.as_slice())?;
            out.extend_from_slice(b"\n.\n")?;
            Ok(())
        }
    }
}

// The script of an update.
pub fn print(heap: Global, script: &Script) -> Result<Vec<u8>, AllocError>
    ensures bytes { IfOk result (λ v. v.items ≡ print_script (update_of script.now)) }
    ensures back { IfOk result (λ v. read_script v.items ≡ Ok (update_of script.now)) }
{
    let mut out = Vec::new(heap);
    for (number, change) in &script.changes {
        add_change(&mut out, TenDigits { value: *number }, change)?;
    }
    Ok(out)
}
