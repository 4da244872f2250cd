//! The runs of a row: the texts of a folder, the commands that are run over them, and which calls fail.
use crate::directive::Object;
use fw_outside::{FoulBytes, MemText};
use row_words::{NoAnswer, bytes_of, spelled};
use std::alloc::{AllocError, Global};

/// Which calls fail, by number from 0, of each object of the outside.
#[derive(Drop)]
pub struct Failing {
    pub folder: Vec<u64>,
    pub store: Vec<u64>,
    pub out: Vec<u64>,
    pub notes: Vec<u64>,
}

/// What a row says of its runs.
#[derive(Drop)]
pub struct Run {
    pub name: String,
    pub texts: Vec<MemText>,
    /// The words of each command; where there is none, a run of the texts `flow`, `inputs` and `schedule` is meant.
    pub commands: Vec<String>,
    pub failing: Failing,
    /// Whether the row stands for a run with each call of the store failing.
    pub fails_each: bool,
    /// Whether the row stands for a run that is stopped at each call of the store, and started again.
    pub stops_each: bool,
    /// Whether the commands run over one store, which tells nothing.
    pub has_one_store: bool,
    /// What a store gives that tells nothing; with none the store tells its records.
    pub foul: Vec<FoulBytes>,
    /// Whether the records are told that are left in the store.
    pub tells_records: bool,
    /// What stands before one line of the schedule, in a run for each.
    pub before_each: Option<Vec<u8>>,
    /// Whether the lines that follow go on with the last text.
    pub is_open: bool,
    /// The first line that says nothing known, by its number in the file.
    pub mistake: Option<usize>,
}

impl Run {
    /// One that has nothing but its name.
    pub fn new(alloc: Global, name: &str) -> Result<Self, AllocError> {
        Ok(Run {
            name: String::from_str(alloc, name)?,
            texts: Vec::new(alloc),
            commands: Vec::new(alloc),
            failing: Failing {
                folder: Vec::new(alloc),
                store: Vec::new(alloc),
                out: Vec::new(alloc),
                notes: Vec::new(alloc),
            },
            fails_each: false,
            stops_each: false,
            has_one_store: false,
            foul: Vec::new(alloc),
            tells_records: false,
            before_each: None,
            is_open: false,
            mistake: None,
        })
    }

    /// The bytes of the first text of a name.
    pub fn text(&self, name: &str) -> Option<&[u8]> {
        for text in &self.texts {
            if text.name.as_str() == name {
                return Some(&text.bytes);
            }
        }
        None
    }

    /// Begins a text; the lines that follow go on with it.
    pub fn begin_text(&mut self, text: MemText) -> Result<(), AllocError> {
        self.is_open = true;
        self.texts.push(text)?;
        Ok(())
    }

    /// The text with which lines go on.
    fn open_text(&mut self) -> Option<&mut Vec<u8>> {
        if !self.is_open {
            return None;
        }
        let text = self.texts.last_mut()?;
        Some(&mut text.bytes)
    }

    /// Adds a line, which outside texts is a comment; whether it says something known, as below.
    pub fn add_line(&mut self, alloc: Global, line: &str) -> Result<bool, AllocError> {
        let Some(text) = self.open_text() else {
            return Ok(line.starts_with('#'));
        };
        let Some(bytes) = spelled(alloc, line)? else {
            return Ok(false);
        };
        text.extend_from_slice(&bytes)?;
        Ok(true)
    }

    /// Adds a line so often to the text.
    pub fn add_lines(&mut self, alloc: Global, times: u32, line: &str) -> Result<bool, AllocError> {
        let Some(text) = self.open_text() else {
            return Ok(false);
        };
        if !line.contains("%i") {
            return add_copies(alloc, times, line, text);
        }
        for i in 0..times {
            let number = format!(in alloc; "{i}")?;
            let line = line.replace(alloc, "%i", &number)?;
            if !add_copies(alloc, 1, &line, text)? {
                return Ok(false);
            }
        }
        Ok(true)
    }

    /// Puts a line in the place of one of the text.
    pub fn replace_line(
        &mut self,
        alloc: Global,
        place: usize,
        line: &str,
    ) -> Result<bool, AllocError> {
        let Some(text) = self.open_text() else {
            return Ok(false);
        };
        let Some(bytes) = spelled(alloc, line)? else {
            return Ok(false);
        };
        match with_line(alloc, text, place, &bytes, false)? {
            Some(other) => *text = other,
            None => return Ok(false),
        }
        Ok(true)
    }

    /// Notes what stands before each line of the schedule.
    pub fn put_before_each(&mut self, alloc: Global, line: &str) -> Result<bool, AllocError> {
        self.is_open = false;
        self.before_each = spelled(alloc, line)?;
        Ok(self.before_each.is_some())
    }

    /// Adds the words of a command.
    pub fn add_command(&mut self, alloc: Global, words: &str) -> Result<(), AllocError> {
        self.is_open = false;
        self.commands.push(String::from_str(alloc, words)?)?;
        Ok(())
    }

    /// Adds the numbers of calls that fail.
    pub fn add_failing(&mut self, object: Object, calls: &str) -> Result<bool, AllocError> {
        self.is_open = false;
        let failing = match object {
            Object::Folder => &mut self.failing.folder,
            Object::Store => &mut self.failing.store,
            Object::Out => &mut self.failing.out,
            Object::Notes => &mut self.failing.notes,
        };
        for word in calls.split_whitespace() {
            let Ok(call) = word.parse::<u64>() else {
                return Ok(false);
            };
            failing.push(call)?;
        }
        Ok(true)
    }

    /// Adds the bytes that the store gives at a call of `get`; whether they are spelled right.
    pub fn add_foul(&mut self, alloc: Global, call: u64, bytes: &str) -> Result<bool, AllocError> {
        self.is_open = false;
        match bytes_of(alloc, bytes) {
            Ok(bytes) => {
                self.foul.push(FoulBytes { call, bytes })?;
                Ok(true)
            }
            Err(NoAnswer::NoMemory) => Err(AllocError),
            Err(_) => Ok(false),
        }
    }

    /// Notes that each call of the store is to fail, in a run of its own.
    pub fn fail_each(&mut self) {
        self.is_open = false;
        self.fails_each = true;
    }

    /// Notes that the run is to be stopped at each call of the store, and started again.
    pub fn stop_each(&mut self) {
        self.is_open = false;
        self.stops_each = true;
    }

    /// Notes that the commands run over one store.
    pub fn keep_store(&mut self) {
        self.is_open = false;
        self.has_one_store = true;
    }

    /// Notes that the records are told that are left.
    pub fn tell_records(&mut self) {
        self.is_open = false;
        self.tells_records = true;
    }
}

/// Adds what a line spells so often; whether it spells something.
fn add_copies(
    alloc: Global,
    times: u32,
    line: &str,
    text: &mut Vec<u8>,
) -> Result<bool, AllocError> {
    let Some(bytes) = spelled(alloc, line)? else {
        return Ok(false);
    };
    for _ in 0..times {
        text.extend_from_slice(&bytes)?;
    }
    Ok(true)
}

/// The text with more before one of its lines, counted from 1; or in its place, where the line does not stay. None where it
/// has no such line.
pub fn with_line(
    alloc: Global,
    text: &[u8],
    place: usize,
    more: &[u8],
    stays: bool,
) -> Result<Option<Vec<u8>>, AllocError> {
    let mut result = Vec::new(alloc);
    let mut is_there = false;
    for (line, number) in text
        .split_inclusive(|byte| *byte == b'\n')
        .zip(1..=usize::MAX)
    {
        if number == place {
            is_there = true;
            result.extend_from_slice(more)?;
        }
        if stays || number != place {
            result.extend_from_slice(line)?;
        }
    }
    Ok(if is_there { Some(result) } else { None })
}
