//! The errors of loading the file of a script.
use tb_script::ScriptFault;

/// The reason why the file of a script gives no program.
#[derive(Drop)]
pub enum LoadFault {
    /// The script was rejected. Out of memory is never a reason for this.
    Script(ScriptFault),
    /// The file could not be read.
    File,
    /// Memory ran out.
    NoMemory,
}
