//! Files that are held in memory, and the search for a name among them.
ghost use Rattle.std.specs.Prelude.{◌≡◌, IfOk};
ghost use Rattle.std.specs.Option.{option_copied, option_map};
ghost use Rattle.tb_edge.specs.InMemory.{held_in, loaded_of};

use crate::{Bytes, Loaded};
use sqlite_items::Items;
use std::alloc::{AllocError, Global};
use tb_terms::Text;

/// A file in memory.
#[derive(Drop)]
pub struct HeldFile {
    /// The name by which the file is requested.
    pub name: Text,
    /// The content of the file.
    pub bytes: Bytes,
}

/// Files in memory. If two files have the same name, the first one is used.
pub type HeldFiles = Items<HeldFile>;

/// Returns the bytes of the first file with this name.
pub(crate) fn held_in<'a>(files: &'a HeldFiles, name: &str) -> Option<&'a [u8]>
    ensures { option_copied result ≡ held_in files.now name.now }
{
    let found = files
        .as_slice()
        .iter()
        .find(|file| file.name.as_str() == name)?;
    Some(found.bytes.as_slice())
}

/// Copies the bytes, if there are at most `most`. Otherwise, returns their number.
pub(crate) fn load_bytes(alloc: Global, bytes: &[u8], most: usize) -> Result<Loaded, AllocError>
    ensures { IfOk result (λ loaded. loaded ≡ loaded_of most bytes.now) }
{
    if bytes.len() <= most {
        return Ok(Loaded::Bytes(Bytes::from_slice(alloc, bytes)?));
    }
    Ok(Loaded::TooLong(bytes.len()))
}

/// Loads the file with this name, if there is one.
pub(crate) fn load_held(
    alloc: Global,
    files: &HeldFiles,
    name: &str,
    most: usize,
) -> Result<Option<Loaded>, AllocError>
    ensures { IfOk result
        (λ loaded. loaded ≡ option_map (loaded_of most) (held_in files.now name.now)) }
{
    match held_in(files, name) {
        Some(bytes) => Ok(Some(load_bytes(alloc, bytes, most)?)),
        None => Ok(None),
    }
}
