//! The directives of rows: the lines that begin with `-- `.
use row_words::part;

/// What a run reaches of the outside.
#[derive(Clone, Copy)]
pub enum Object {
    Folder,
    Store,
    Out,
    Notes,
}

/// What a directive asks for.
#[derive(Clone, Copy)]
pub enum Directive<'a> {
    /// The lines that follow are a text of this name.
    Text(&'a str),
    /// A text of this name is that of an earlier row, and the lines that follow go on with it.
    As { text: &'a str, row: &'a str },
    /// These words are run.
    Words(&'a str),
    /// The calls of these numbers fail.
    Failing { object: Object, calls: &'a str },
    /// The row stands for runs in which the first call of the store fails, then the second, and so on up to one in which none
    /// does.
    FailingEach,
    /// The row stands for runs that are stopped at the first call of the store, at the second, and so on, each started again over what
    /// the store holds then, up to one that is not stopped.
    StoppedEach,
    /// The commands run over one store, each as the next start.
    OneStore,
    /// The store tells nothing, and gives these bytes at this call of `get`, counted from 1.
    Foul { call: u64, bytes: &'a str },
    /// The records that are left in the store are told too.
    Records,
    /// So often this line, in which `%i` is the number of the time, from 0.
    Repeat { times: u32, line: &'a str },
    /// In place of a line of the text, counted from 1.
    Line { place: usize, line: &'a str },
    /// The row stands for one run for each line of its schedule, with this before that line.
    BeforeEach(&'a str),
}

/// What a directive says, without its `-- `.
pub fn said(line: &str) -> Option<Directive<'_>> {
    let (word, rest) = part(line);
    match word {
        "flow" | "inputs" | "schedule" => text(word, rest),
        "text" => Some(Directive::Text(rest)),
        "words" => Some(Directive::Words(rest)),
        "failing" if rest == "store each" => Some(Directive::FailingEach),
        "failing" => failing(rest),
        "stopped" if rest == "each" => Some(Directive::StoppedEach),
        "one" if rest == "store" => Some(Directive::OneStore),
        "foul" => foul(rest),
        "records" => Some(Directive::Records),
        "repeat" => repeat(rest),
        "line" => line_at(rest),
        "before" => before(rest),
        _ => None,
    }
}

fn text<'a>(name: &'a str, rest: &'a str) -> Option<Directive<'a>> {
    if rest.is_empty() {
        return Some(Directive::Text(name));
    }
    let row = rest.strip_prefix("as ")?;
    Some(Directive::As { text: name, row })
}

fn failing(rest: &str) -> Option<Directive<'_>> {
    let (word, calls) = part(rest);
    let object = match word {
        "folder" => Object::Folder,
        "store" => Object::Store,
        "out" => Object::Out,
        "notes" => Object::Notes,
        _ => return None,
    };
    Some(Directive::Failing { object, calls })
}

fn foul(rest: &str) -> Option<Directive<'_>> {
    let (number, bytes) = part(rest);
    let call = number.parse::<u64>().ok()?;
    Some(Directive::Foul { call, bytes })
}

fn repeat(rest: &str) -> Option<Directive<'_>> {
    let (number, line) = part(rest);
    let times = number.parse::<u32>().ok()?;
    Some(Directive::Repeat { times, line })
}

fn line_at(rest: &str) -> Option<Directive<'_>> {
    let (number, line) = part(rest);
    let place = number.parse::<usize>().ok()?;
    Some(Directive::Line { place, line })
}

fn before(rest: &str) -> Option<Directive<'_>> {
    let line = rest.strip_prefix("each ")?;
    Some(Directive::BeforeEach(line))
}
