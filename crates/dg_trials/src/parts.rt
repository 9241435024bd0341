//! The parts of a text.
use std::alloc::{AllocError, Global};

/// The parts between bytes of a kind.
pub fn parts<'a>(alloc: Global, text: &'a [u8], between: u8) -> Result<Vec<&'a [u8]>, AllocError> {
    text.split(|byte| *byte == between).collect(alloc)
}

/// A word and what stands behind its first space.
pub fn cut(text: &[u8]) -> (&[u8], &[u8]) {
    match text.iter().position(|byte| *byte == b' ') {
        Some(place) => {
            let (word, rest) = text.split_at(place);
            (word, rest.strip_prefix(b" ").unwrap_or(rest))
        }
        None => (text, b""),
    }
}

/// The rows of a file, each with the number of its line. Empty lines and those that begin with `#` are none.
pub fn rows_of<'a>(alloc: Global, text: &'a [u8]) -> Result<Vec<(u64, &'a [u8])>, AllocError> {
    let mut line = 0u64;
    let mut rows = Vec::new(alloc);
    for row in &parts(alloc, text, b'\n')? {
        line = line.wrapping_add(1);
        if !row.is_empty() && !row.starts_with(b"#") {
            rows.push((line, *row))?;
        }
    }
    Ok(rows)
}

/// How many lines of a text are this one.
pub fn count_of(alloc: Global, text: &[u8], wanted: &[u8]) -> Result<usize, AllocError> {
    let mut count = 0usize;
    for line in &parts(alloc, text, b'\n')? {
        if *line == wanted {
            count = count.wrapping_add(1);
        }
    }
    Ok(count)
}
