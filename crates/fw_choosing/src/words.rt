//! The words of the commands over texts of choices.
ghost use Rattle.std.specs.Prelude.{◌≡◌, [], is_some, option_map};
ghost use Rattle.std.specs.Option.{option_map_or};
ghost use Rattle.fw_command.specs.Words.{is_operand, words_in};
ghost use Rattle.fw_choosing.specs.Words as spec;
ghost use Rattle.fw_choosing.specs.Words.{choosing_in, choosing_of, names_in};

/// A command with the names of its texts.
#[derive(Clone, Copy, Debug)]
pub enum ChoosingWords<'a> {
    /// The largest choice of what the nodes of the flow offer is asked for.
    Choose {
        /// The name of the flow's text.
        flow: &'a str,
        /// The name of the offers' text.
        offers: &'a str,
    },
    /// A certificate over these offers is to be verified.
    Verify {
        /// The name of the flow's text.
        flow: &'a str,
        /// The name of the offers' text.
        offers: &'a str,
        /// The name of the certificate's text.
        certificate: &'a str,
    },
}

/// Whether words are for `falkirk_choose`: the first of them is `choose` or `verify`.
pub fn is_choosing(words: &[&str]) -> bool
    ensures { result ≡ spec.is_choosing (words_in words.now) }
{
    match words {
        [] => false,
        [word, ..] => *word == "choose" || *word == "verify",
    }
}

/// What the words ask for, if they are a command.
pub(crate) fn parse<'a>(words: &'a [&'a str]) -> Option<ChoosingWords<'a>>
    ensures { option_map choosing_in result ≡ choosing_of (words_in words.now) }
{
    match words {
        [command, flow, offers] => choose_words(command, flow, offers),
        [command, flow, offers, certificate] => verify_words(command, flow, offers, certificate),
        _ => None,
    }
}

/// The names of the texts of a command, in the order in which they are read; none where the words are no command.
pub fn names_of_texts<'a>(words: &'a [&'a str]) -> &'a [&'a str]
    ensures { words_in result.now ≡ option_map_or names_in (choosing_of (words_in words.now)) [] }
{
    match words {
        [_, names @ ..] if parse(words).is_some() => names,
        _ => &[],
    }
}

// The words of a choice.
fn choose_words<'a>(command: &str, flow: &'a str, offers: &'a str) -> Option<ChoosingWords<'a>>
    ensures { option_map choosing_in result ≡ spec.choose_by command.now flow.now offers.now }
{
    if command == "choose" && is_operand(flow) && is_operand(offers) {
        Some(ChoosingWords::Choose { flow, offers })
    } else {
        None
    }
}

// The words of a verification.
fn verify_words<'a>(
    command: &str,
    flow: &'a str,
    offers: &'a str,
    certificate: &'a str,
) -> Option<ChoosingWords<'a>>
    ensures { option_map choosing_in result ≡ spec.verify_by command.now flow.now offers.now certificate.now }
{
    if command == "verify" && is_operand(flow) && is_operand(offers) && is_operand(certificate) {
        Some(ChoosingWords::Verify {
            flow,
            offers,
            certificate,
        })
    } else {
        None
    }
}

// An operand is not empty, and no option.
fn is_operand(word: &str) -> bool
    ensures { result ≡ is_operand word.now }
{
    match word.as_bytes() {
        [] => false,
        [first, ..] => *first != b'-',
    }
}
