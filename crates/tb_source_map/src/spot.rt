//! The line and the column of a byte.
ghost use Rattle.std.specs.Prelude.{◌≡◌, ◌+◌, ◌≤◌, ◌<◌, ◌^◌, length, take};
ghost use Rattle.tb_source_map.specs.Spots.{spot_of, spot_behind, spot_after};

/// The line and the column of a byte of a text. Both count from 1.
#[derive(Clone, Copy, Debug, PartialEq, Eq)]
pub struct Spot {
    /// One more than the number of lines that end before the byte.
    pub line: usize,
    /// One more than the number of characters before the byte on its line. A tab and a wide character each count as one.
    pub column: usize,
}

/// Returns the line and the column of the byte at this position. A position after the end counts as the end.
pub fn spot_at(text: &[u8], byte: usize) -> Spot
    ensures { result ≡ spot_of text.now byte }
{
    spot_behind(bytes_before(text, byte))
}

/// Returns the bytes before this position.
fn bytes_before(text: &[u8], byte: usize) -> &[u8]
    ensures { result.now ≡ take byte text.now }
{
    if byte < text.len() {
        return &text[..byte];
    }
    text
}

/// Returns the line and the column of a byte that comes after these bytes.
fn spot_behind(before: &[u8]) -> Spot
    ensures { result ≡ spot_behind before.now }
{
    let mut spot = Spot { line: 1, column: 1 };
    for byte in before {
        spot = after(spot, *byte);
    }
    spot
}

/// Returns the line and the column of the next byte, from those of this byte.
fn after(spot: Spot, byte: u8) -> Spot
    requires line { spot.line + 1 < 2 ^ 64 }
    requires column { spot.column + 1 < 2 ^ 64 }
    ensures { result ≡ spot_after spot byte }
{
    if byte == b'\n' {
        return Spot {
            line: spot.line + 1,
            column: 1,
        };
    }
    if 128 <= byte && byte < 192 {
        return spot;
    }
    Spot {
        line: spot.line,
        column: spot.column + 1,
    }
}
