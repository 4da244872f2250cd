//! The words of a session's command.
ghost use Rattle.std.specs.Prelude.{◌≡◌, option_map};
ghost use Rattle.fw_command.specs.Words.{is_operand, words_in};
ghost use Rattle.fw_live.specs.Words as spec;
ghost use Rattle.fw_live.specs.Words.{live_in, live_of};

/// The name of the flow's text, and whether each line that is accepted, but `show`, ends with steps to rest.
#[derive(Clone, Copy, Debug)]
pub struct LiveWords<'a> {
    pub flow: &'a str,
    pub rests: bool,
}

/// Whether words are for `falkirk_live`: the first of them is `live`.
pub fn is_live(words: &[&str]) -> bool
    ensures { result ≡ spec.is_live (words_in words.now) }
{
    match words {
        [] => false,
        [word, ..] => *word == "live",
    }
}

/// What the words ask for, if they are a command: `live FLOW`, or `live FLOW auto`.
pub fn parse<'a>(words: &'a [&'a str]) -> Option<LiveWords<'a>>
    ensures { option_map live_in result ≡ live_of (words_in words.now) }
{
    match words {
        [command, flow] => live_words(command, flow, false),
        [command, flow, mode] => resting_words(command, flow, mode),
        _ => None,
    }
}

/// The name of the text that the words ask for, if they are a command.
pub fn name_of_text<'a>(words: &'a [&'a str]) -> Option<&'a str>
    ensures { option_map (λ name. name.now) result ≡ option_map (λ live. live.flow) (live_of (words_in words.now)) }
{
    match parse(words) {
        Some(words) => Some(words.flow),
        None => None,
    }
}

// The words of a session whose lines end with steps to rest.
fn resting_words<'a>(command: &str, flow: &'a str, mode: &str) -> Option<LiveWords<'a>>
    ensures { option_map live_in result ≡ spec.resting_by command.now flow.now mode.now }
{
    if mode == "auto" {
        live_words(command, flow, true)
    } else {
        None
    }
}

// The words of a session.
fn live_words<'a>(command: &str, flow: &'a str, rests: bool) -> Option<LiveWords<'a>>
    ensures { option_map live_in result ≡ spec.live_by command.now flow.now rests }
{
    if command == "live" && is_operand(flow) {
        Some(LiveWords { flow, rests })
    } else {
        None
    }
}

// An operand is not empty, and no option.
fn is_operand(word: &str) -> bool
    ensures { result ≡ is_operand word.now }
{
    match word.as_bytes() {
        [] => false,
        [first, ..] => *first != b'-',
    }
}
