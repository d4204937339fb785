//! Whether a tool has the name that an entry has.
ghost use Rattle.std.specs.Prelude.{◌≡◌};
ghost use Rattle.tb_chart.specs.Terms.{is_declared, speaks_of};

use sqlite_items::at;
use tb_log::Entry;
use tb_terms::{Name, Term};

/// Whether the entry is a step whose first term has the name of this tool. `tools` are the names of the declarations of tools.
pub(crate) fn speaks_of(tools: &[Name], entry: &Entry, kind: Option<u32>) -> bool
    ensures { result ≡ speaks_of tools.now entry.now kind }
{
    let Entry::Did(label) = entry else {
        return false;
    };
    match label.terms.as_slice() {
        [Term::Appl(name, _), ..] => is_declared(tools, kind, name.as_bytes()),
        _ => false,
    }
}

/// Whether the tool with this position has this name.
pub(crate) fn is_declared(tools: &[Name], kind: Option<u32>, name: &[u8]) -> bool
    ensures { result ≡ is_declared tools.now kind name.now }
{
    let Some(kind) = kind else {
        return false;
    };
    match at(tools, kind as usize) {
        Some(found) => found.as_bytes() == name,
        None => false,
    }
}
