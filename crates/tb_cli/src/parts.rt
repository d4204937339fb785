//! Splits arguments into parts (options with their values, and operands), and finds the values of the parts.

ghost use Rattle.std.specs.Prelude.{◌≡◌, ◌≤◌, [], map, length, string_bytes, option_map, option_copied, option_to_list, slice_get, get_or, unwrap_or, Some};
ghost use Rattle.tb_cli.specs.Parts.{is_option, parts_of, given_by, given};
ghost use Rattle.tb_cli.specs.Helpers.Scanning.{part_of, part_len, is_found};

/// The name under which operands are looked up: they have none.
pub(crate) const OPERANDS: Option<&str> = None;

pub(crate) fn is_option(word: &str) -> bool
    ensures { result ≡ is_option word.now }
{
    word.as_bytes().starts_with(b"--")
}

/// Returns the number of arguments of the part that begins with this one.
pub(crate) fn part_len(word: &str) -> usize
    ensures { result ≡ part_len word.now }
{
    if is_option(word) { 2 } else { 1 }
}

/// Returns the value that the part which begins with `word` gives under this name. `next` is the argument after `word`.
fn value_under<'w>(word: &'w str, next: Option<&'w String>, name: Option<&str>) -> Option<&'w str>
    ensures { option_to_list (option_copied result) ≡ given_by (option_copied name.entry)
        (part_of word.now (option_map string_bytes (option_copied next.entry))) }
{
    match name {
        None if is_option(word) => None,
        None => Some(word),
        Some(name) => option_under(word, next, name),
    }
}

fn option_under<'w>(word: &str, next: Option<&'w String>, name: &str) -> Option<&'w str>
    ensures { option_to_list (option_copied result) ≡ given_by (Some name.now)
        (part_of word.now (option_map string_bytes (option_copied next.entry))) }
{
    match next {
        Some(value) if is_option(word) && word == name => Some(value.as_str()),
        Some(_) | None => None,
    }
}

/// Returns the number of values under this name.
pub(crate) fn count_values(words: &[String], name: Option<&str>) -> usize
    ensures { result
        ≡ length (given (option_copied name.entry) (parts_of (map string_bytes words.now))) }
{
    let mut count = 0;
    let mut index = 0;
    while index < words.len() {
        let word = words[index].as_str();
        count += count_value(value_under(word, words.get(index + 1), name));
        index += part_len(word);
    }
    count
}

fn count_value(value: Option<&str>) -> usize
    ensures few { result ≤ 1 }
    ensures is { result ≡ length (option_to_list (option_copied value.entry)) }
{
    if value.is_some() { 1 } else { 0 }
}

/// Returns the value at this place, from 0, among the values under this name.
pub(crate) fn find_value<'w>(
    words: &'w [String],
    name: Option<&str>,
    place: usize,
) -> Option<&'w str>
    ensures { option_copied result ≡ slice_get
        (given (option_copied name.entry) (parts_of (map string_bytes words.now))) place }
{
    let mut index = 0;
    let mut left = place;
    while index < words.len() {
        let word = words[index].as_str();
        let value = value_under(word, words.get(index + 1), name);
        if is_found(value, left) {
            return value;
        }
        left -= count_value(value);
        index += part_len(word);
    }
    None
}

fn is_found(value: Option<&str>, left: usize) -> bool
    ensures { result ≡ is_found (option_copied value.entry) left }
{
    match value {
        Some(_) => left == 0,
        None => false,
    }
}

/// Returns the value at this place among the values under this name, or an empty string if there is none.
pub(crate) fn find_or_empty<'w>(words: &'w [String], name: Option<&str>, place: usize) -> &'w str
    ensures { result.now ≡ get_or
        (given (option_copied name.entry) (parts_of (map string_bytes words.now))) place [] }
{
    or_empty(find_value(words, name, place))
}

fn or_empty(word: Option<&str>) -> &str
    ensures { result.now ≡ unwrap_or (option_copied word.entry) [] }
{
    match word {
        Some(word) => word,
        None => "",
    }
}
