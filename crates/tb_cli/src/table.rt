//! The table of commands. A row has a command and its form, and the form says how arguments are read.

ghost use Rattle.std.specs.Prelude.{◌≡◌, option_map, option_copied, find, bytes_eq, map};
ghost use Rattle.tb_cli.specs.Table.{Row as RowWords, option_named};
ghost use Rattle.tb_cli.specs.Helpers.Tables.{row_of, setting_of};

/// A command, as the first argument names it.
#[derive(Clone, Copy)]
pub(crate) enum Verb {
    Check,
    Sim,
    Run,
    Verify,
    Iface,
    Ring,
}

/// The kind of value of an operand or of an option.
#[derive(Clone, Copy)]
pub(crate) enum Kind {
    /// The name of a file, or of a tool: any string.
    File,
    /// A command to connect, one of several.
    Command,
    /// A number from `least` to `most`.
    Number { least: u32, most: u32 },
    /// A number from 1. Its product with the first value under the same name is at most `most`.
    Factor { most: u32 },
}

/// An option of a command: its name, and the kind of its value. If the value is a number, `usual` is the default.
#[derive(Clone, Copy)]
pub(crate) struct Setting {
    pub(crate) name: &'static str,
    pub(crate) kind: Kind,
    pub(crate) usual: u32,
}

/// The form of arguments: the kinds of their operands, in order, and their options.
#[derive(Clone, Copy)]
pub(crate) struct Form {
    pub(crate) operands: &'static [Kind],
    pub(crate) options: &'static [Setting],
}

/// A command: its first argument, and the form of the arguments after it.
#[derive(Clone, Copy)]
pub(crate) struct Row {
    pub(crate) verb: Verb,
    pub(crate) word: &'static str,
    pub(crate) form: Form,
}

/// Returns the first of these rows whose first argument is this word, if there is one.
pub(crate) fn find_row<'a>(rows: &'a [Row], word: &str) -> Option<&'a Row>
    ensures { option_map row_of (option_copied result)
        ≡ find (λ (row : RowWords). bytes_eq row.word word.now) (map row_of rows.now) }
{
    for row in rows {
        if row.word == word {
            return Some(row);
        }
    }
    None
}

/// Returns the first of these options with this name, if there is one.
pub(crate) fn option_named<'a>(options: &'a [Setting], name: &str) -> Option<&'a Setting>
    ensures { option_map setting_of (option_copied result)
        ≡ option_named (map setting_of options.now) name.now }
{
    for option in options {
        if option.name == name {
            return Some(option);
        }
    }
    None
}
