//! Appends texts, numbers and terms to bytes.

use itoa::Buffer;
use tb_terms::{NoMemory, Term, write_term};

/// Appends a text.
pub fn put(text: &[u8], into: &mut Vec<u8>) -> Result<(), NoMemory> {
    into.extend_from_slice(text)?;
    Ok(())
}

/// Appends a number in decimal.
pub fn put_number(number: u64, into: &mut Vec<u8>) -> Result<(), NoMemory> {
    let mut buffer = Buffer::new();
    into.extend_from_slice(buffer.format(number).as_bytes())?;
    Ok(())
}

/// Appends a number and a word, with an `s` after the word unless the number is 1.
pub fn put_count(number: u64, word: &[u8], into: &mut Vec<u8>) -> Result<(), NoMemory> {
    put_number(number, into)?;
    put(b" ", into)?;
    put(word, into)?;
    if number != 1 {
        put(b"s", into)?;
    }
    Ok(())
}

/// Appends terms, joined by commas.
pub fn put_terms(terms: &[Term], into: &mut Vec<u8>) -> Result<(), NoMemory> {
    for (place, term) in terms.iter().enumerate() {
        put_comma(place, into)?;
        write_term(term, into)?;
    }
    Ok(())
}

/// Appends a comma, unless `place` is 0: a caller writes it before each element of a sequence.
pub fn put_comma(place: usize, into: &mut Vec<u8>) -> Result<(), NoMemory> {
    if place > 0 {
        put(b",", into)?;
    }
    Ok(())
}
