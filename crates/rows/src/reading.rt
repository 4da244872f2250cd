//! Reads files of rows.
use crate::directive::{Directive, said};
use crate::outcome::tell_row;
use crate::run::Run;
use fw_outside::MemText;
use row_words::{Row, rows_of};
use std::alloc::{AllocError, Global};

/// The rows that were read so far.
#[derive(Drop)]
pub struct Reader {
    alloc: Global,
    runs: Vec<Run>,
}

impl Reader {
    /// A reader that has read nothing.
    pub fn new(alloc: Global) -> Self {
        Reader {
            alloc,
            runs: Vec::new(alloc),
        }
    }

    /// Reads a file, and tells its rows.
    pub fn tell(&mut self, text: &str) -> Result<String, AllocError> {
        let first = self.runs.len();
        for row in &rows_of(self.alloc, text)? {
            self.read(*row)?;
        }
        self.tell_from(first)
    }

    /// Tells the rows from one on.
    fn tell_from(&self, first: usize) -> Result<String, AllocError> {
        let mut told = String::new(self.alloc);
        for run in self.runs.iter().skip(first) {
            tell_row(self.alloc, run, &mut told)?;
        }
        Ok(told)
    }

    /// Reads a row. Lines without bytes are not looked at.
    fn read(&mut self, row: Row<'_>) -> Result<(), AllocError> {
        self.runs.push(Run::new(self.alloc, row.name)?)?;
        let mut number = row.number;
        for line in row.lines.lines() {
            number = number.saturating_add(1);
            if !line.is_empty() {
                self.read_line(number, line)?;
            }
        }
        Ok(())
    }

    /// Reads a line of the last row, and notes its number there if it says nothing known.
    fn read_line(&mut self, number: usize, line: &str) -> Result<(), AllocError> {
        let is_known = match line.strip_prefix("-- ") {
            None => self.add_line(line)?,
            Some(rest) => match said(rest) {
                Some(directive) => self.follow(directive)?,
                None => false,
            },
        };
        if let Some(run) = self.runs.last_mut() {
            if !is_known && run.mistake.is_none() {
                run.mistake = Some(number);
            }
        }
        Ok(())
    }

    /// Adds a line to the last row; whether it says something known.
    fn add_line(&mut self, line: &str) -> Result<bool, AllocError> {
        match self.runs.last_mut() {
            Some(run) => run.add_line(self.alloc, line),
            None => Ok(false),
        }
    }

    /// Does for the last row what a directive asks for; whether it could.
    fn follow(&mut self, directive: Directive<'_>) -> Result<bool, AllocError> {
        let alloc = self.alloc;
        if let Directive::As { text, row } = directive {
            return self.begin_as(text, row);
        }
        let Some(run) = self.runs.last_mut() else {
            return Ok(false);
        };
        match directive {
            Directive::Text(name) => {
                run.begin_text(MemText::new(alloc, name, b"")?)?;
                Ok(true)
            }
            Directive::As { .. } => Ok(false),
            Directive::Words(words) => {
                run.add_command(alloc, words)?;
                Ok(true)
            }
            Directive::Failing { object, calls } => run.add_failing(object, calls),
            Directive::FailingEach => {
                run.fail_each();
                Ok(true)
            }
            Directive::StoppedEach => {
                run.stop_each();
                Ok(true)
            }
            Directive::OneStore => {
                run.keep_store();
                Ok(true)
            }
            Directive::Foul { call, bytes } => run.add_foul(alloc, call, bytes),
            Directive::Records => {
                run.tell_records();
                Ok(true)
            }
            Directive::Repeat { times, line } => run.add_lines(alloc, times, line),
            Directive::Line { place, line } => run.replace_line(alloc, place, line),
            Directive::BeforeEach(line) => run.put_before_each(alloc, line),
        }
    }

    /// Begins a text of the last row with that of an earlier one; whether there is one.
    fn begin_as(&mut self, text: &str, row: &str) -> Result<bool, AllocError> {
        let Some(copy) = self.copy_of(text, row)? else {
            return Ok(false);
        };
        if let Some(run) = self.runs.last_mut() {
            run.begin_text(copy)?;
        }
        Ok(true)
    }

    /// A copy of a text of the first row of a name.
    fn copy_of(&self, text: &str, name: &str) -> Result<Option<MemText>, AllocError> {
        for run in &self.runs {
            if run.name.as_str() == name {
                return match run.text(text) {
                    Some(bytes) => Ok(Some(MemText::new(self.alloc, text, bytes)?)),
                    None => Ok(None),
                };
            }
        }
        Ok(None)
    }
}
