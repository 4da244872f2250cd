//! The rows of a text, and their lines.
use std::alloc::{AllocError, Global};

/// A row of a text.
#[derive(Clone, Copy)]
pub struct Row<'a> {
    /// The number in the text of the line that begins it, counted from 1.
    pub number: usize,
    /// What follows `== ` in that line.
    pub name: &'a str,
    /// The lines up to the next row.
    pub lines: &'a str,
}

/// The rows of a text. What stands before the first one is left out.
pub fn rows_of(alloc: Global, text: &str) -> Result<Vec<Row<'_>>, AllocError> {
    let mut rows = Vec::new(alloc);
    let Some((head, text)) = text.split_once("\n== ") else {
        return Ok(rows);
    };
    let mut number = line_count(head).saturating_add(1);
    for row in text.split("\n== ") {
        rows.push(row_of(number, row))?;
        number = number.saturating_add(line_count(row));
    }
    Ok(rows)
}

/// How many lines a text has.
fn line_count(text: &str) -> usize {
    let mut count = 0usize;
    for _ in text.split('\n') {
        count = count.saturating_add(1);
    }
    count
}

/// A row by its text, without the `== ` that begins it.
fn row_of(number: usize, text: &str) -> Row<'_> {
    let (name, lines) = match text.split_once('\n') {
        Some(parts) => parts,
        None => (text, ""),
    };
    Row {
        number,
        name,
        lines,
    }
}

/// A first word, and what follows its space.
pub fn part(line: &str) -> (&str, &str) {
    match line.split_once(' ') {
        Some(parts) => parts,
        None => (line, ""),
    }
}

/// Whether a line says something: it is no comment.
pub fn says_something(line: &str) -> bool {
    !line.is_empty() && !line.starts_with('#')
}

/// What follows a word in the first of the lines that begins with it.
pub fn after<'a>(lines: &'a str, word: &str) -> Option<&'a str> {
    for line in lines.lines() {
        let (first, rest) = part(line);
        if first == word {
            return Some(rest);
        }
    }
    None
}

/// Whether a line begins as the declaration of a loop, a node or an edge.
pub fn is_declaration(line: &str) -> bool {
    let word = part(line).0;
    word == "loop" || word == "node" || word == "edge"
}

/// The declarations among the lines, as the text of a flow.
pub fn declarations(alloc: Global, lines: &str) -> Result<String, AllocError> {
    let mut text = String::new(alloc);
    for line in lines.lines() {
        if is_declaration(line) {
            text.push_str(line)?;
            text.push('\n')?;
        }
    }
    Ok(text)
}
