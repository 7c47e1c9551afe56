//! Prints what connections were sent.
ghost use Rattle.std.specs.Prelude.{◌≡◌, ◌++◌, ◌∷◌, [], ◌<◌, ◌≤◌, IfOk, OnOk, ℕ};
ghost use Rattle.tc_script.specs.Printing.{lower_hex, escape_of, escaped, phase_text, output_line, printed};

use std::alloc::Global;
use tc_core::{Output, Outputs};
use tc_item::NoMemory;

/// Returns a hexadecimal digit in lower case.
fn lower_hex(number: u8) -> u8
    requires { number < 16 }
    ensures { result ≡ lower_hex number }
{
    if number < 10 {
        b'0' + number
    } else {
        b'a' + (number - 10)
    }
}

/// Appends a byte in its printed form: as it is if it is printable, otherwise as an escape.
fn write_byte(text: &mut Vec<u8>, byte: u8) -> Result<(), NoMemory>
    ensures { OnOk result (text.new.items ≡ text.old.items ++ escape_of byte) }
{
    match byte {
        b'\\' => text.extend_from_slice(b"\\\\")?,
        b'\r' => text.extend_from_slice(b"\\r")?,
        b'\n' => text.extend_from_slice(b"\\n")?,
        32..=126 => text.push(byte)?,
        _ => {
            let digits = [b'\\', b'x', lower_hex(byte / 16), lower_hex(byte % 16)];
            text.extend_from_slice(&digits)?;
        }
    }
    Ok(())
}

/// Appends bytes in their printed form.
pub fn write_bytes(text: &mut Vec<u8>, bytes: &[u8]) -> Result<(), NoMemory>
    ensures { OnOk result (text.new.items ≡ text.old.items ++ escaped bytes.now) }
{
    for byte in bytes {
        write_byte(text, *byte)?;
    }
    Ok(())
}

/// Returns the words for whether a connection is closed at the end.
fn phase_text(closed: bool) -> &'static [u8]
    ensures { result.now ≡ phase_text closed }
{
    if closed { b" closed =" } else { b" open =" }
}

/// Appends a connection's line.
fn write_line(text: &mut Vec<u8>, output: &Output) -> Result<(), NoMemory>
    ensures { OnOk result (text.new.items ≡ text.old.items ++ output_line output.now) }
{
    text.extend_from_slice(b"conn ")?;
    tc_counter::write_into(output.connection as u64, text)?;
    text.extend_from_slice(phase_text(output.closed))?;
    write_bytes(text, output.bytes.as_bytes())?;
    text.push(b'\n')?;
    Ok(())
}

/// Returns a line for each connection, by rising number.
pub fn print(alloc: Global, outputs: &Outputs) -> Result<Vec<u8>, NoMemory>
    ensures { IfOk result (λ text. text.items ≡ printed outputs.now) }
{
    let mut text = Vec::new(alloc);
    for output in outputs.as_slice() {
        write_line(&mut text, output)?;
    }
    Ok(text)
}
