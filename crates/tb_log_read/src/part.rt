//! Finds the next part of a list of terms. A part ends at a comma outside brackets and strings.
ghost use Rattle.std.specs.Prelude.{◌≡◌, ◌≤◌, ◌<◌, ◌+◌, ◌∷◌, length, IfSome};
ghost use Rattle.std.specs.Option.{option_copied};
ghost use Rattle.tb_log_read.specs.Helpers.Parts.{depth_of, after, plain_after, is_cut, part_len, parts, more_parts};

/// The state of a reader of terms, with the number of open brackets.
#[derive(Clone, Copy, PartialEq, Eq)]
pub(crate) enum Standing {
    /// Outside strings.
    Plain(usize),
    /// Within a string.
    Quoted(usize),
    /// Within a string, after a backslash.
    Escaped(usize),
}

/// Returns the bytes before the first comma outside brackets and strings, and the bytes after that comma.
pub(crate) fn next_part(bytes: &[u8]) -> (&[u8], Option<&[u8]>)
    ensures parts { parts bytes.now ≡ result.0.now ∷ more_parts (option_copied result.1) }
    ensures shorter { IfSome result.1 (λ more. length more.now < length bytes.now) }
{
    let (part, behind) = bytes.split_at(part_len(bytes));
    match behind.split_first() {
        Some((_comma, more)) => (part, Some(more)),
        None => (part, None),
    }
}

fn part_len(bytes: &[u8]) -> usize
    ensures value { result ≡ part_len (Standing.Plain 0) bytes.now }
    ensures within { result ≤ length bytes.now }
{
    let mut standing = Standing::Plain(0);
    for (place, byte) in bytes.iter().enumerate() {
        if is_cut(standing, *byte) {
            return place;
        }
        standing = after(standing, *byte);
    }
    bytes.len()
}

/// Returns whether a part ends before this byte.
fn is_cut(standing: Standing, byte: u8) -> bool
    ensures { result ≡ is_cut standing byte }
{
    match standing {
        Standing::Plain(depth) => depth == 0 && byte == b',',
        Standing::Quoted(_) | Standing::Escaped(_) => false,
    }
}

fn after(standing: Standing, byte: u8) -> Standing
    requires { depth_of standing < usize.MAX }
    ensures value { result ≡ after standing byte }
    ensures near { depth_of result ≤ depth_of standing + 1 }
{
    match standing {
        Standing::Plain(depth) => plain_after(depth, byte),
        Standing::Quoted(depth) => match byte {
            b'"' => Standing::Plain(depth),
            b'\\' => Standing::Escaped(depth),
            _ => standing,
        },
        Standing::Escaped(depth) => Standing::Quoted(depth),
    }
}

fn plain_after(depth: usize, byte: u8) -> Standing
    requires { depth < usize.MAX }
    ensures value { result ≡ plain_after depth byte }
    ensures near { depth_of result ≤ depth + 1 }
{
    match byte {
        b'"' => Standing::Quoted(depth),
        b'(' | b'[' => Standing::Plain(depth + 1),
        b')' | b']' => Standing::Plain(depth.saturating_sub(1)),
        _ => Standing::Plain(depth),
    }
}
