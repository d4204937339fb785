//! Whitespace and comments.
ghost use Rattle.std.specs.Prelude.{◌≡◌, ◌≤◌, length, false};
ghost use Rattle.tb_lex.specs.Helpers.Scanning.{gap_step, skip_gap};

use crate::symbol::begins_with;
use tb_read::is_blank;

/// Returns the bytes after the whitespace and the comments with which the bytes begin.
pub(crate) fn skip_gap(bytes: &[u8]) -> &[u8]
    ensures rest { result.now ≡ skip_gap false bytes.now }
    ensures shorter { length result.now ≤ length bytes.now }
{
    let mut in_comment = false;
    for (position, byte) in bytes.iter().enumerate() {
        match gap_step(in_comment, *byte, &bytes[position + 1..]) {
            None => return &bytes[position..],
            Some(next) => in_comment = next,
        }
    }
    &bytes[bytes.len()..]
}

/// Returns none if the byte belongs neither to whitespace nor to a comment. Otherwise, returns whether a comment continues after
/// it.
fn gap_step(in_comment: bool, byte: u8, behind: &[u8]) -> Option<bool>
    ensures { result ≡ gap_step in_comment byte behind.now }
{
    if in_comment {
        Some(byte != b'\n')
    } else if byte == b'%' && begins_with(b'%', behind) {
        Some(true)
    } else if is_blank(byte) {
        Some(false)
    } else {
        None
    }
}
