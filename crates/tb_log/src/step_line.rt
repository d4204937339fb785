//! Writes the line of a step from its end to its start, since the last digit of a number is known first.
ghost use Rattle.std.specs.Prelude.{◌≡◌, ◌+◌, ◌<◌, ◌≤◌, ◌++◌, ◌∷◌, [], drop, length, decimal, IfSome};
ghost use Rattle.std.specs.Fmt.{signed_decimal};
ghost use Rattle.std.specs.List.{flat_map};
ghost use Rattle.tb_terms.specs.Texts.{term_text};
ghost use Rattle.tb_terms.specs.declared.term.Term.TheVariants.{Int};
ghost use Rattle.tb_log.specs.Seens.{number_terms, terms_seen};
ghost use Rattle.tb_log.specs.LogText.{kind_word, label_words, place_words, term_words};
ghost use Rattle.tb_log.specs.Helpers.StepText.{shown_places, shown_terms};

use crate::entry::{LabelKind, Place};
use crate::seen::{SeenLabel, SeenTerms};
use crate::text::kind_word;
use itoa::write_digits;
use tb_terms::Term;

/// The greatest number of bytes of a short line.
pub(crate) const LINE_BYTES: usize = 192;

/// The greatest number of bytes of a line before its terms: a number and a space, a word, and two places of two numbers each.
const HEAD_BYTES: usize = 120;

/// The greatest number of bytes of a short term. A number of 64 bits has at most this many.
const TERM_BYTES: usize = 20;

/// Writes the line of a step at the end of the array, and returns where the line begins. Returns `None` if a term isn't short or the
/// array has too little space. Then the content of the array has no meaning.
pub(crate) fn put_line(number: u64, label: &SeenLabel, line: &mut [u8; LINE_BYTES]) -> Option<usize>
    ensures { IfSome result (λ start. (start ≤ LINE_BYTES) × (drop start line.new ≡ decimal number
        ++ 32 ∷ label_words label.now.kind label.now.from label.now.to (terms_seen label.now.terms)
        ++ 10 ∷ [])) }
{
    let end = put_byte(b'\n', line, LINE_BYTES);
    let end = put_terms(shown_terms(label), line, end)?;
    let end = put_head(label, line, end);
    let end = put_byte(b' ', line, end);
    Some(put_number(number, line, end))
}

/// Returns the terms that the line of a step shows.
fn shown_terms<'a>(label: &SeenLabel<'a>) -> SeenTerms<'a>
    ensures { terms_seen result ≡ shown_terms label.now.kind (terms_seen label.now.terms) }
{
    match label.kind {
        LabelKind::Finish | LabelKind::Halt => SeenTerms::Numbers(&[]),
        _ => label.terms,
    }
}

/// Writes the word and the places of a step before `end`, and returns where they begin.
#[inline(always)]
pub(crate) fn put_head(label: &SeenLabel, line: &mut [u8; LINE_BYTES], end: usize) -> usize
    requires { (HEAD_BYTES ≤ end) × (end ≤ LINE_BYTES) }
    ensures room { (end ≤ result + 98) × (result ≤ end) }
    ensures written { drop result line.new ≡ kind_word label.now.kind
        ++ shown_places label.now.kind label.now.from label.now.to ++ drop end line.old }
{
    let end = put_places(label.kind, label.from, label.to, line, end);
    put_word(label.kind, line, end)
}

#[inline(always)]
fn put_places(
    kind: LabelKind,
    from: Place,
    to: Place,
    line: &mut [u8; LINE_BYTES],
    end: usize,
) -> usize
    requires { (84 ≤ end) × (end ≤ LINE_BYTES) }
    ensures room { (end ≤ result + 84) × (result ≤ end) }
    ensures written { drop result line.new ≡ shown_places kind from to ++ drop end line.old }
{
    match kind {
        LabelKind::Msg => {
            let end = put_place(to, line, end);
            put_place(from, line, end)
        }
        LabelKind::Finish | LabelKind::Halt => end,
        _ => put_place(from, line, end),
    }
}

#[inline(always)]
fn put_place(place: Place, line: &mut [u8; LINE_BYTES], end: usize) -> usize
    requires { (42 ≤ end) × (end ≤ LINE_BYTES) }
    ensures room { (end ≤ result + 42) × (result ≤ end) }
    ensures written { drop result line.new ≡ place_words place ++ drop end line.old }
{
    let end = put_number(u64::from(place.atom), line, end);
    let end = put_byte(b'.', line, end);
    let end = put_number(u64::from(place.proc), line, end);
    put_byte(b' ', line, end)
}

#[inline(always)]
fn put_word(kind: LabelKind, line: &mut [u8; LINE_BYTES], end: usize) -> usize
    requires { (14 ≤ end) × (end ≤ LINE_BYTES) }
    ensures room { (end ≤ result + 14) × (result ≤ end) }
    ensures written { drop result line.new ≡ kind_word kind ++ drop end line.old }
{
    // Words of a known length are written without a function call.
    match kind {
        LabelKind::Msg => put_text(b"msg", line, end),
        LabelKind::Tau => put_text(b"tau", line, end),
        _ => put_text(kind_word(kind), line, end),
    }
}

/// Writes the terms before `end` and returns where they begin. A space comes before the first term, and a comma before each other
/// term. Returns `None` if a term isn't short or there is too little space. Then some of the terms may be written.
fn put_terms(terms: SeenTerms, line: &mut [u8; LINE_BYTES], end: usize) -> Option<usize>
    requires { (HEAD_BYTES ≤ end) × (end ≤ LINE_BYTES) }
    ensures { IfSome result (λ start. (HEAD_BYTES ≤ start) × (start ≤ end)
        × (drop start line.new ≡ term_words (terms_seen terms.entry) ++ drop end line.old)) }
{
    match terms {
        SeenTerms::Terms(terms) => put_all(terms, line, end),
        SeenTerms::Numbers(numbers) => put_numbers(numbers, line, end),
    }
}

fn put_all(terms: &[Term], line: &mut [u8; LINE_BYTES], end: usize) -> Option<usize>
    requires { (HEAD_BYTES ≤ end) × (end ≤ LINE_BYTES) }
    ensures { IfSome result (λ start. (HEAD_BYTES ≤ start) × (start ≤ end)
        × (drop start line.new ≡ term_words terms.now ++ drop end line.old)) }
{
    match terms.split_first() {
        None => Some(end),
        Some((first, others)) => {
            let end = put_others(others, line, end)?;
            let end = put_term(first, line, end)?;
            Some(put_byte(b' ', line, end))
        }
    }
}

/// Writes a comma and the term, for each term, before `end`.
fn put_others(terms: &[Term], line: &mut [u8; LINE_BYTES], end: usize) -> Option<usize>
    requires { (HEAD_BYTES ≤ end) × (end ≤ LINE_BYTES) }
    ensures { IfSome result (λ start. (HEAD_BYTES ≤ start) × (start ≤ end) × (drop start line.new
        ≡ flat_map (λ term. 44 ∷ term_text term) terms.now ++ drop end line.old)) }
{
    let mut start = end;
    let mut left = terms.len();
    while left > 0 {
        left -= 1;
        start = put_other(&terms[left], line, start)?;
    }
    Some(start)
}

fn put_numbers(numbers: &[i64], line: &mut [u8; LINE_BYTES], end: usize) -> Option<usize>
    requires { (HEAD_BYTES ≤ end) × (end ≤ LINE_BYTES) }
    ensures { IfSome result (λ start. (HEAD_BYTES ≤ start) × (start ≤ end) × (drop start line.new
        ≡ term_words (number_terms numbers.now) ++ drop end line.old)) }
{
    match numbers.split_first() {
        None => Some(end),
        Some((first, others)) => {
            let end = put_other_numbers(others, line, end)?;
            let end = put_term(&Term::Int(*first), line, end)?;
            Some(put_byte(b' ', line, end))
        }
    }
}

/// Writes a comma and the number, for each number, before `end`.
fn put_other_numbers(numbers: &[i64], line: &mut [u8; LINE_BYTES], end: usize) -> Option<usize>
    requires { (HEAD_BYTES ≤ end) × (end ≤ LINE_BYTES) }
    ensures { IfSome result (λ start. (HEAD_BYTES ≤ start) × (start ≤ end) × (drop start line.new
        ≡ flat_map (λ number. 44 ∷ term_text (Int number)) numbers.now ++ drop end line.old)) }
{
    let mut start = end;
    let mut left = numbers.len();
    while left > 0 {
        left -= 1;
        start = put_other(&Term::Int(numbers[left]), line, start)?;
    }
    Some(start)
}

#[inline(always)]
fn put_other(term: &Term, line: &mut [u8; LINE_BYTES], end: usize) -> Option<usize>
    requires { (HEAD_BYTES ≤ end) × (end ≤ LINE_BYTES) }
    ensures { IfSome result (λ start. (HEAD_BYTES ≤ start) × (start ≤ end)
        × (drop start line.new ≡ 44 ∷ term_text term.now ++ drop end line.old)) }
{
    let end = put_term(term, line, end)?;
    Some(put_byte(b',', line, end))
}

/// Writes a number, or a short name without arguments, before `end`. Returns `None` for any other term, or if there is too little
/// space: space for the head and one more byte must remain.
#[inline(always)]
fn put_term(term: &Term, line: &mut [u8; LINE_BYTES], end: usize) -> Option<usize>
    requires { end ≤ LINE_BYTES }
    ensures { IfSome result (λ start. (HEAD_BYTES < start) × (start ≤ end)
        × (drop start line.new ≡ term_text term.now ++ drop end line.old)) }
{
    if end <= HEAD_BYTES + TERM_BYTES {
        return None;
    }
    match term {
        Term::Int(number) => Some(put_integer(*number, line, end)),
        Term::Appl(name, parts) => {
            if !parts.is_empty() || name.as_bytes().len() > TERM_BYTES {
                return None;
            }
            Some(put_text(name.as_bytes(), line, end))
        }
        Term::Str(_) | Term::List(_) => None,
    }
}

fn put_integer(number: i64, line: &mut [u8; LINE_BYTES], end: usize) -> usize
    requires { (TERM_BYTES ≤ end) × (end ≤ LINE_BYTES) }
    ensures room { (end ≤ result + TERM_BYTES) × (result ≤ end) }
    ensures written { drop result line.new ≡ signed_decimal number ++ drop end line.old }
{
    if number >= 0 {
        return put_number(number.unsigned_abs(), line, end);
    }
    let start = write_digits(number.unsigned_abs(), line, end);
    put_byte(b'-', line, start)
}

/// Writes a number in decimal before `end`. A number of one digit is written as one byte.
#[inline(always)]
fn put_number(number: u64, line: &mut [u8; LINE_BYTES], end: usize) -> usize
    requires { (20 ≤ end) × (end ≤ LINE_BYTES) }
    ensures room { (end ≤ result + 20) × (result ≤ end) }
    ensures written { drop result line.new ≡ decimal number ++ drop end line.old }
{
    if number < 10 {
        return put_byte(b'0' + number as u8, line, end);
    }
    write_digits(number, line, end)
}

#[inline(always)]
fn put_byte(byte: u8, line: &mut [u8; LINE_BYTES], end: usize) -> usize
    requires { (0 < end) × (end ≤ LINE_BYTES) }
    ensures room { result + 1 ≡ end }
    ensures written { drop result line.new ≡ byte ∷ drop end line.old }
{
    line[end - 1] = byte;
    end - 1
}

#[inline(always)]
fn put_text(text: &[u8], line: &mut [u8; LINE_BYTES], end: usize) -> usize
    requires { (length text.now ≤ end) × (end ≤ LINE_BYTES) }
    ensures room { result + length text.now ≡ end }
    ensures written { drop result line.new ≡ text.now ++ drop end line.old }
{
    let start = end - text.len();
    line[start..end].copy_from_slice(text);
    start
}
