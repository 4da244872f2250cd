//! What is wrong at a place of a line, and how it is told.
use crate::form::Wrong;
use crate::near::{nearest_among, nearest_of};
use crate::shown::Shown;
use crate::slot::{Slot, is_one_of};
use crate::word::Word;
use std::alloc::{AllocError, Global};

/// What is wrong on a line.
#[derive(Drop)]
pub(crate) struct Slip<'a> {
    /// The word that is wrong; none for the line's end or all of it.
    pub(crate) word: Option<Word<'a>>,
    /// What was expected, and why.
    pub(crate) said: String,
    /// Whether this says how to mend it too.
    pub(crate) is_cured: bool,
}

impl<'a> Slip<'a> {
    /// At this word.
    pub(crate) fn at(word: Word<'a>, said: String) -> Self {
        Slip {
            word: Some(word),
            said,
            is_cured: false,
        }
    }

    /// Of a line as a whole.
    pub(crate) fn of_line(said: String) -> Self {
        Slip {
            word: None,
            said,
            is_cured: false,
        }
    }
}

/// The slip of a line that leaves its form.
pub(crate) fn form_slip<'a>(alloc: Global, wrong: Wrong<'a>) -> Result<Slip<'a>, AllocError> {
    let quote = wrong.slot.quote();
    let wants = wrong.slot.wants();
    let Some(word) = wrong.word else {
        return Ok(Slip::of_line(format!(in alloc;
            "the line ends too early: expected {quote}{wants}{quote}"
        )?));
    };
    let mut said = format!(in alloc; "expected {quote}{wants}{quote}")?;
    said.push_str(spelling_note(wrong.slot, word.bytes))?;
    add_near(
        alloc,
        nearest_of(alloc, word.bytes, wrong.slot.words())?,
        &mut said,
    )?;
    Ok(Slip::at(word, said))
}

/// Adds which word was perhaps meant.
pub(crate) fn add_near(
    _alloc: Global,
    near: Option<&[u8]>,
    said: &mut String,
) -> Result<(), AllocError> {
    if let Some(near) = near {
        let near = Shown(near);
        write!(said, "; did you mean `{near}`?")?;
    }
    Ok(())
}

/// Adds which of these names was perhaps meant.
pub(crate) fn add_near_name(
    alloc: Global,
    word: &[u8],
    names: &[&[u8]],
    said: &mut String,
) -> Result<(), AllocError> {
    let near = nearest_among(alloc, word, names)?;
    add_near(alloc, near, said)
}

// How a name, a number or a word of the grammar is spelled, where that is the slip.
fn spelling_note(slot: Slot, word: &[u8]) -> &'static str {
    match slot {
        Slot::FullName(_) if word.contains(&b'.') =>
            ": behind a name stands at most `.` or `.out.` and a number",
        Slot::Name(_) | Slot::FullName(_) => name_note(word),
        Slot::Number(_) | Slot::Term => number_note(word),
        Slot::Record => record_note(word),
        Slot::Field | Slot::Comparison => glued_note(word),
        Slot::Kind | Slot::PolicyName | Slot::Verb | Slot::Declaration => case_note(word),
        _ => "",
    }
}

fn name_note(word: &[u8]) -> &'static str {
    if word.len() > 32 {
        return " of at most 32 characters";
    }
    match word {
        [b'a'..=b'z', ..] => ": it has only a to z, 0 to 9 and _",
        [b'A'..=b'Z', ..] => ": it has small letters only",
        _ => ": it begins with a letter from a to z, and has only a to z, 0 to 9 and _",
    }
}

fn number_note(word: &[u8]) -> &'static str {
    match word {
        [b'0', ..] => ": without a zero in front",
        [b'-' | b'+', ..] => ": without a sign, from 0 on",
        [b'0'..=b'9', ..] => ": digits alone, without a comma or a point",
        _ => "",
    }
}

fn record_note(word: &[u8]) -> &'static str {
    match colons_in(word) {
        0 => return ": there is no colon in it",
        1 => {}
        _ => return ": it has more than one colon",
    }
    if word.contains(&b'-') {
        return ": no number has a sign";
    }
    ": digits on both sides, without a zero in front"
}

// How many colons a word has.
fn colons_in(word: &[u8]) -> usize {
    let mut count: usize = 0;
    for byte in word {
        if *byte == b':' {
            count = count.saturating_add(1);
        }
    }
    count
}

fn glued_note(word: &[u8]) -> &'static str {
    if word.len() <= 2 {
        return "";
    }
    for byte in word {
        if matches!(*byte, b'<' | b'>' | b'=' | b'!') {
            return "; words are separated by spaces, as in `value >= 10`";
        }
    }
    ""
}

fn case_note(word: &[u8]) -> &'static str {
    for byte in word {
        if byte.is_ascii_uppercase() {
            return "; words are written in small letters";
        }
    }
    if is_one_of(word, b"// -- ; %".as_slice()) {
        return "; a comment begins with #";
    }
    ""
}

/// The slip of a byte that no line may have, if there is one.
pub(crate) fn byte_slip<'a>(
    alloc: Global,
    line: &'a [u8],
    number: u32,
) -> Result<Option<Slip<'a>>, AllocError> {
    let Some(at) = place_of_foreign(line) else {
        return Ok(None);
    };
    let rest = Word {
        bytes: line,
        from: 0,
    }
    .from_place(at);
    let what = name_of_byte(rest.bytes, number == 1 && at == 0);
    let said = format!(in alloc; "a line has only the bytes from 32 to 126, and this is {what}")?;
    Ok(Some(Slip {
        word: Some(rest.first_byte()),
        said,
        is_cured: true,
    }))
}

// The place of the first byte that no line may have.
fn place_of_foreign(line: &[u8]) -> Option<usize> {
    for (place, byte) in line.iter().enumerate() {
        if !matches!(*byte, 32..=126) {
            return Some(place);
        }
    }
    None
}

// What a byte is that no line may have, by it and those that follow.
fn name_of_byte(bytes: &[u8], is_first: bool) -> &'static str {
    match bytes {
        [0xef, 0xbb, 0xbf, ..] if is_first => {
            "a byte order mark, which an editor put in front: save the file as plain UTF-8 without it (sed -i '1s/^\\xef\\xbb\\xbf//' FILE)"
        }
        [0xff, 0xfe, ..] | [0xfe, 0xff, ..] if is_first => {
            "the mark of a file in UTF-16: save it as plain text (iconv -f utf-16 -t ascii FILE)"
        }
        [b'\r'] => {
            "a carriage return: the lines end as on Windows, by CR LF (to mend: sed -i 's/\\r$//' FILE)"
        }
        [b'\r', ..] =>
            "a carriage return: lines end by LF alone, so write each on a line of its own",
        [b'\t', ..] => "a tab: words are separated by spaces (to mend: expand FILE)",
        [0xc2, 0xa0, ..] => "a no-break space: write a plain one",
        [0xe2, 0x80, 0x90..=0x95, ..] => "a dash as a word processor writes it: write -",
        [0xe2, 0x80, 0x98..=0x9f, ..] =>
            "a quotation mark as a word processor writes it: no word has one",
        [0xe2, 0x80, 0x8b..=0x8f, ..] =>
            "a character of no width, which is not shown: take it away",
        [0x1b, ..] => "an escape, as of a terminal's colours: take it away",
        [0, ..] => "a zero byte: is this the file that was meant?",
        [0x80..=0xff, ..] => "no ASCII, as an accented letter: write a to z, in comments too",
        _ => "a control byte: take it away",
    }
}

impl<'a> Word<'a> {
    /// What of the word stands from this place on.
    fn from_place(self, place: usize) -> Word<'a> {
        let (_, rest) = self.bytes.split_at(place.min(self.bytes.len()));
        Word {
            bytes: rest,
            from: self.from.saturating_add(place),
        }
    }

    /// The word's first byte.
    fn first_byte(self) -> Word<'a> {
        let (first, _) = self.bytes.split_at(self.bytes.len().min(1));
        Word {
            bytes: first,
            from: self.from,
        }
    }
}
