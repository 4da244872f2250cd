//! What a person is told of a text that is refused.
ghost use Rattle.std.specs.Prelude.{IfOk, All};
ghost use Rattle.fw_advice.specs.Plain.{IsPlain};

use crate::circle::circle;
use crate::declared::Declarations;
use crate::expansion::expansion;
use crate::flow_rules::{
    deep_slip, domains_slip, edges_slip, lacks, large_slip, policy_slip, range_slip, twice_slip,
    undeclared_slip,
};
use crate::form::{Wrong, flow_form, inputs_form, schedule_form};
use crate::rules::{cure, rule};
use crate::shown::{Shown, plain};
use crate::slip::{Slip, byte_slip, form_slip};
use crate::step_rules::{many_batches, many_steps, name_slip, stamp_slip};
use crate::word::{Word, line_of, rows, words_of};
use fw_lines::{Code, Refusal};
use std::alloc::{AllocError, Global};

/// The longest line that is shown.
const LINE_SHOWN: usize = 160;

/// A text that is refused.
#[derive(Clone, Copy, Debug)]
pub struct Refused<'a> {
    /// The rule that it breaks, and its line.
    pub refusal: Refusal,
    /// The text's name.
    pub name: &'a str,
    /// The text.
    pub text: &'a [u8],
    /// The text of the flow.
    pub flow: &'a [u8],
}

type Found<'a> = Result<Option<Slip<'a>>, AllocError>;

/// What a person is told of it: the file and the line, the word that is wrong and what was expected, the rule, and how to mend it.
/// It is printed characters and ends of lines alone, whatever the texts hold.
pub fn advice(alloc: Global, refused: &Refused<'_>) -> Result<Vec<u8>, AllocError>
    ensures { IfOk result (λ bytes. All IsPlain bytes.items) }
{
    let told = told(alloc, refused)?;
    plain(alloc, told.as_str())
}

fn told<'a>(alloc: Global, refused: &Refused<'a>) -> Result<String, AllocError> {
    let flow_rows = rows(alloc, refused.flow)?;
    let written = Declarations::of(alloc, flow_rows.as_slice())?;
    let mut told = String::new(alloc);
    if is_of_schedule(refused.refusal.code) {
        let text = expansion(alloc, flow_rows.as_slice(), &written)?;
        let expanded_rows = rows(alloc, text.as_bytes())?;
        let expanded = Declarations::of(alloc, expanded_rows.as_slice())?;
        add_all(alloc, refused, &expanded, &mut told)?;
    } else {
        add_all(alloc, refused, &written, &mut told)?;
    }
    Ok(told)
}

// Whether a schedule is refused by this rule; its names are those of the expansion.
fn is_of_schedule(code: Code) -> bool {
    matches!(code, Code::S1 | Code::S2 | Code::S3 | Code::S4)
}

// Adds what is wrong, the rule, and how to mend it.
fn add_all<'a>(
    alloc: Global,
    refused: &Refused<'a>,
    all: &Declarations<'a>,
    told: &mut String,
) -> Result<(), AllocError> {
    let code = refused.refusal.code;
    let is_cured = if refused.refusal.line == 0 {
        add_whole(alloc, refused, all, told)?;
        false
    } else {
        add_line(alloc, refused, all, told)?
    };
    let rule = rule(code);
    let word = code.as_str();
    write!(told, "  the rule: {word}, {rule} (docs/refusals.md)\n")?;
    if !is_cured {
        let cure = cure(code);
        write!(told, "  to mend it: {cure}\n")?;
    }
    Ok(())
}

// Adds what is wrong with a text as a whole.
fn add_whole<'a>(
    alloc: Global,
    refused: &Refused<'a>,
    all: &Declarations<'a>,
    told: &mut String,
) -> Result<(), AllocError> {
    let name = Shown(refused.name.as_bytes());
    let bytes = refused.text.len();
    match refused.refusal.code {
        Code::F6 => {
            let said = circle(alloc, all)?;
            write!(told, "{name}: {said}\n")
        }
        Code::F9 => {
            let said = lacks(all);
            write!(told, "{name}: {said}\n")
        }
        Code::F11 => write!(told, "{name}: expected at most 1048576 bytes\n"),
        _ => write!(
            told,
            "{name}: expected at most 16777216 bytes ({bytes} were read)\n"
        ),
    }
}

// Adds what is wrong on the line, and says whether that says how to mend it too.
fn add_line<'a>(
    alloc: Global,
    refused: &Refused<'a>,
    all: &Declarations<'a>,
    told: &mut String,
) -> Result<bool, AllocError> {
    let number = refused.refusal.line;
    let name = Shown(refused.name.as_bytes());
    let Some(line) = line_of(refused.text, number) else {
        write!(
            told,
            "{name}:{number}: the file has changed since it was read, or can be read once alone\n"
        )?;
        return Ok(true);
    };
    let words = words_of(alloc, line)?;
    let slip = slip_of(alloc, refused, all, line, words.as_slice())?;
    write!(told, "{name}:{number}: ")?;
    add_slip(line, slip.as_ref(), told)
}

// Adds what is wrong on this line, and says whether that says how to mend it too.
fn add_slip(line: &[u8], slip: Option<&Slip<'_>>, told: &mut String) -> Result<bool, AllocError> {
    let Some(slip) = slip else {
        told.push_str("this line breaks the rule\n")?;
        add_text(line, None, told)?;
        return Ok(false);
    };
    if let Some(word) = slip.word {
        let word = Shown(word.bytes);
        write!(told, "`{word}`: ")?;
    }
    told.push_str(slip.said.as_str())?;
    told.push_str("\n")?;
    add_text(line, slip.word, told)?;
    Ok(slip.is_cured)
}

// Adds the line, and points at the word.
fn add_text(line: &[u8], word: Option<Word<'_>>, told: &mut String) -> Result<(), AllocError> {
    if line.len() > LINE_SHOWN {
        return Ok(());
    }
    told.push_str("    ")?;
    for byte in line {
        told.push(char::from(visible(*byte)))?;
    }
    told.push_str("\n")?;
    let Some(word) = word else {
        return Ok(());
    };
    told.push_str("    ")?;
    for _ in 0..word.from.min(LINE_SHOWN) {
        told.push(' ')?;
    }
    for _ in 0..word.bytes.len().clamp(1, LINE_SHOWN) {
        told.push('^')?;
    }
    told.push_str("\n")
}

// A byte as one character.
fn visible(byte: u8) -> u8 {
    match byte {
        32..=126 => byte,
        _ => b'?',
    }
}

// What is wrong on a line that breaks a rule.
fn slip_of<'a>(
    alloc: Global,
    refused: &Refused<'a>,
    all: &Declarations<'a>,
    line: &'a [u8],
    words: &[Word<'a>],
) -> Found<'a> {
    let number = refused.refusal.line;
    match refused.refusal.code {
        Code::F1 => form_or_byte(alloc, line, number, flow_form(words)),
        Code::I1 | Code::I4 => form_or_byte(alloc, line, number, inputs_form(words)),
        Code::S1 => form_or_byte(alloc, line, number, schedule_form(words)),
        Code::F10 | Code::I3 => large_slip(alloc, words),
        Code::F2 => twice_slip(alloc, all, words),
        Code::F3 => undeclared_slip(alloc, all, number),
        Code::F4 => edges_slip(alloc, all, number),
        Code::F5 => domains_slip(alloc, all, number),
        Code::F7 => policy_slip(alloc, all, number),
        Code::F8 => range_slip(alloc, all, number),
        Code::F12 => deep_slip(alloc, all, number),
        Code::I2 => batch_slip(alloc, all, words),
        Code::I5 => many_batches(alloc, words),
        Code::S2 => name_slip(alloc, all, words),
        Code::S3 => stamp_slip(alloc, all, words),
        Code::S4 => many_steps(alloc, words),
        Code::F6 | Code::F9 | Code::F11 => Ok(None),
    }
}

// The name of a batch that is no input.
fn batch_slip<'a>(alloc: Global, all: &Declarations<'a>, words: &[Word<'a>]) -> Found<'a> {
    match words {
        [verb, name, ..] => name_slip(alloc, all, &[*verb, *name]),
        _ => Ok(None),
    }
}

// A byte that no line may have, else where the line leaves its form.
fn form_or_byte<'a>(
    alloc: Global,
    line: &'a [u8],
    number: u32,
    form: Result<(), Wrong<'a>>,
) -> Found<'a> {
    if let Some(slip) = byte_slip(alloc, line, number)? {
        return Ok(Some(slip));
    }
    match form {
        Ok(()) => Ok(None),
        Err(wrong) => Ok(Some(form_slip(alloc, wrong)?)),
    }
}
