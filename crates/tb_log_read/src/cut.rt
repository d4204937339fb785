//! Splits bytes at a separator, and removes the last byte.
ghost use Rattle.std.specs.Prelude.{◌≡◌, ◌≤◌, length};
ghost use Rattle.tb_log_read.specs.Helpers.Cutting.{prefix, behind, without_last};

/// Returns the bytes before the first separator, and the bytes after it. If there is no separator, returns all bytes and no bytes.
pub(crate) fn cut(separator: u8, bytes: &[u8]) -> (&[u8], &[u8])
    ensures prefix { result.0.now ≡ prefix separator bytes.now }
    ensures behind { result.1.now ≡ behind separator bytes.now }
{
    for (place, byte) in bytes.iter().enumerate() {
        if *byte == separator {
            return (&bytes[..place], &bytes[place + 1..]);
        }
    }
    (bytes, &bytes[bytes.len()..])
}

/// Returns all bytes except the last one.
pub(crate) fn without_last(bytes: &[u8]) -> &[u8]
    ensures { result.now ≡ without_last bytes.now }
{
    &bytes[..bytes.len().saturating_sub(1)]
}
