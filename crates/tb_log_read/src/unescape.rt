//! Decodes the escapes of a string.
ghost use Rattle.std.specs.Prelude.{◌≡◌, false, IfOk};
ghost use Rattle.tb_log_read.specs.Helpers.Unescaping.{unescaped_from, letter_byte};

use std::alloc::Global;
use tb_terms::NoMemory;

/// Returns the bytes of a string, of which `bytes` is the text without its quotes.
pub(crate) fn unescape(alloc: Global, bytes: &[u8]) -> Result<Vec<u8>, NoMemory>
    ensures { IfOk result (λ text. text.items ≡ unescaped_from false bytes.now) }
{
    let mut text = Vec::new(alloc);
    let mut is_escaped = false;
    for byte in bytes {
        if is_escaped {
            text.push(letter_byte(*byte))?;
            is_escaped = false;
        } else if *byte == b'\\' {
            is_escaped = true;
        } else {
            text.push(*byte)?;
        }
    }
    Ok(text)
}

/// Returns the byte that this letter represents after a backslash.
fn letter_byte(letter: u8) -> u8
    ensures { result ≡ letter_byte letter }
{
    match letter {
        b'n' => b'\n',
        b'r' => b'\r',
        b't' => b'\t',
        _ => letter,
    }
}
