//! How files of rows are told.
use crate::answers::tell_name;
use crate::rows::{Row, rows_of};
use std::alloc::{AllocError, Global};
use std::rt::{Env, Files};
use std::{env, fs, io};

/// What tells rows, by the ending of their file.
pub trait Families {
    /// Tells the answers to the lines of a row of a file with this ending. The error is want of memory.
    fn tell(&self, ending: &str, row: Row<'_>, told: &mut String) -> Result<(), AllocError>;
}

/// Prints for each file that the arguments name, in their order, its name, and for each of its rows the name and the answers to
/// its lines.
pub fn tell_files<R: AllocGlobal + Env + Files + Print, F: Families>(
    rt: &R,
    families: &F,
) -> io::Result<()> {
    for path in env::args(rt)?.skip(1) {
        tell_path(rt, families, path.as_str())?;
    }
    Ok(())
}

/// Tells the rows of the file at a path.
fn tell_path<R: AllocGlobal + Files + Print, F: Families>(
    rt: &R,
    families: &F,
    path: &str,
) -> io::Result<()> {
    println!(rt; "# {path}")?;
    let text = fs::read_to_string(rt, path)?;
    let told = tell_text(rt.alloc(), families, ending_of(path), &text)?;
    print!(rt; "{told}")?;
    Ok(())
}

/// What stands behind the last dot of a path; all of it where there is none.
fn ending_of(path: &str) -> &str {
    match path.rsplit_once('.') {
        Some((_, ending)) => ending,
        None => path,
    }
}

/// Tells the rows of the text of a file with this ending.
fn tell_text<F: Families>(
    alloc: Global,
    families: &F,
    ending: &str,
    text: &str,
) -> Result<String, AllocError> {
    let rows = rows_of(alloc, text)?;
    let mut told = String::new(alloc);
    for row in &rows {
        tell_name(row.name, &mut told)?;
        families.tell(ending, *row, &mut told)?;
    }
    Ok(told)
}
