// The dots of a body: in a script, a line of a body that starts with a dot is written with one dot more.
ghost use Rattle.std.specs.Prelude.{◌≡◌, true, ◌++◌, OnOk};
ghost use Rattle.scripts.specs.Dots.{dot_as, dotted, each_byte, undotted};

use std::alloc::AllocError;

// Appends a byte, or this in its place where it is a dot that starts a line.
fn push_byte(out: &mut Vec<u8>, dot: &[u8], starts: bool, b: u8) -> Result<(), AllocError>
    ensures { OnOk result (out.new.items ≡ out.old.items ++ dot_as dot.now starts b) }
{
    if starts && b == b'.' {
        out.extend_from_slice(dot)?;
        return Ok(());
    }
    out.push(b)?;
    Ok(())
}

// Appends bytes, with this in the place of each dot that starts a line.
fn add_bytes(out: &mut Vec<u8>, dot: &[u8], bytes: &[u8]) -> Result<(), AllocError>
    ensures { OnOk result (out.new.items ≡ out.old.items ++ each_byte (dot_as dot.now) true bytes.now) }
{
    let mut starts = true;
    for b in bytes {
        push_byte(out, dot, starts, *b)?;
        starts = *b == b'\n';
    }
    Ok(())
}

// Appends a body as a script has it.
pub fn add_text(out: &mut Vec<u8>, bytes: &[u8]) -> Result<(), AllocError>
    ensures { OnOk result (out.new.items ≡ out.old.items ++ dotted bytes.now) }
{
    add_bytes(out, b"..", bytes)
}

// Appends the body that a script has as this text.
pub fn add_body(out: &mut Vec<u8>, text: &[u8]) -> Result<(), AllocError>
    ensures { OnOk result (out.new.items ≡ out.old.items ++ undotted text.now) }
{
    add_bytes(out, b"", text)
}
