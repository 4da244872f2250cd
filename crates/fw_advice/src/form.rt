//! Where a line leaves the forms of its text.
use crate::slot::Slot;
use crate::word::{Word, str_of};

/// The first place of a line at which it leaves its form.
#[derive(Clone, Copy)]
pub(crate) struct Wrong<'a> {
    /// The word there; none where the line ends too early.
    pub(crate) word: Option<Word<'a>>,
    /// What was expected there.
    pub(crate) slot: Slot,
}

type Rest<'w, 'a> = Result<&'w [Word<'a>], Wrong<'a>>;

// The words behind the first one, which fits.
fn take<'w, 'a>(words: &'w [Word<'a>], slot: Slot) -> Rest<'w, 'a> {
    match words {
        [] => Err(Wrong { word: None, slot }),
        [first, rest @ ..] => {
            if slot.accepts(first.bytes) {
                Ok(rest)
            } else {
                Err(Wrong {
                    word: Some(*first),
                    slot,
                })
            }
        }
    }
}

// No word is left.
fn end<'a>(words: &[Word<'a>], why: &'static str) -> Result<(), Wrong<'a>> {
    match words {
        [] => Ok(()),
        [first, ..] => Err(Wrong {
            word: Some(*first),
            slot: Slot::End(why),
        }),
    }
}

// Whether the first word is this one.
fn begins(words: &[Word<'_>], wanted: &[u8]) -> bool {
    match words {
        [] => false,
        [first, ..] => first.bytes == wanted,
    }
}

/// Where a line of a flow leaves the forms.
pub(crate) fn flow_form<'a>(words: &[Word<'a>]) -> Result<(), Wrong<'a>> {
    let rest = take(words, Slot::Declaration)?;
    if begins(words, b"node".as_slice()) {
        node_form(rest)
    } else if begins(words, b"edge".as_slice()) {
        edge_form(rest)
    } else {
        loop_form(rest)
    }
}

// `edge E SRC DST`
fn edge_form<'a>(words: &[Word<'a>]) -> Result<(), Wrong<'a>> {
    let rest = take(words, Slot::Name("the edge's name"))?;
    let rest = take(rest, Slot::Name("the name of the node that sends"))?;
    let rest = take(rest, Slot::Name("the name of the node that receives"))?;
    end(
        rest,
        "the end of the line: an edge leads from one node to one (a comment is a line of its own)",
    )
}

// `loop L max NUMBER [in L2]`
fn loop_form<'a>(words: &[Word<'a>]) -> Result<(), Wrong<'a>> {
    let rest = take(words, Slot::Name("the loop's name"))?;
    let rest = take(rest, Slot::Keyword("max"))?;
    let rest = take(
        rest,
        Slot::Number("the loop's greatest counter, a number from 1 to 1024"),
    )?;
    if rest.is_empty() {
        return Ok(());
    }
    let rest = take(rest, Slot::Keyword("in"))?;
    let rest = take(rest, Slot::Name("the name of the loop that it lies in"))?;
    end(
        rest,
        "the end of the line: a loop lies in one other (a comment is a line of its own)",
    )
}

// `node N KIND ..`
fn node_form<'a>(words: &[Word<'a>]) -> Result<(), Wrong<'a>> {
    let rest = take(words, Slot::Name("the node's name"))?;
    let behind = take(rest, Slot::Kind)?;
    let [kind, ..] = rest else {
        return Ok(());
    };
    match str_of(kind.bytes) {
        "input" => end(behind, "the end of the line: an input has no policy"),
        "output" => output_form(behind),
        "select" => select_form(behind),
        "concat" => standing_form(behind, Slot::PolicyOrLoop),
        "distinct" | "join" | "sum" => keyed_form(behind),
        "total" => split_form(behind, Slot::PolicyOrSplit),
        "enter" | "feedback" | "leave" => {
            policy_form(take(
                behind,
                Slot::Name("the loop's name, without the word `loop`"),
            )?)
        }
        "regroup" => {
            policy_form(take(
                behind,
                Slot::Number("how many numbers make an epoch, a number"),
            )?)
        }
        _ => policy_form(behind),
    }
}

// `epoch` or `number`
fn output_form<'a>(words: &[Word<'a>]) -> Result<(), Wrong<'a>> {
    let rest = take(words, Slot::Domain)?;
    end(rest, "the end of the line: an output has no policy")
}

// `FIELD CMP TERM [set FIELD VALUE] [loop L] policy P`
fn select_form<'a>(words: &[Word<'a>]) -> Result<(), Wrong<'a>> {
    let rest = take(words, Slot::Field)?;
    let rest = take(rest, Slot::Comparison)?;
    let rest = take(rest, Slot::Term)?;
    if !begins(rest, b"set".as_slice()) {
        return standing_form(rest, Slot::PolicyOrSet);
    }
    let rest = take(rest, Slot::Keyword("set"))?;
    let rest = take(rest, Slot::Field)?;
    let rest = take(rest, Slot::Term)?;
    if !begins(rest, b"plus".as_slice()) {
        return standing_form(rest, Slot::PolicyOrLoop);
    }
    let rest = take(rest, Slot::Keyword("plus"))?;
    let rest = take(rest, Slot::Number("the number that is added"))?;
    standing_form(rest, Slot::PolicyOrLoop)
}

// `[loop L] policy P`; where neither stands there, this was expected.
fn standing_form<'a>(words: &[Word<'a>], wanted: Slot) -> Result<(), Wrong<'a>> {
    if begins(words, b"loop".as_slice()) {
        let rest = take(words, Slot::Keyword("loop"))?;
        let rest = take(
            rest,
            Slot::Name("the name of the loop in which the node stands"),
        )?;
        return policy_form(rest);
    }
    take(words, wanted)?;
    policy_form(words)
}

// `[loop L] [split NUMBER] policy P`
fn keyed_form<'a>(words: &[Word<'a>]) -> Result<(), Wrong<'a>> {
    if !begins(words, b"loop".as_slice()) {
        return split_form(words, Slot::PolicyOrLoopOrSplit);
    }
    let rest = take(words, Slot::Keyword("loop"))?;
    let rest = take(
        rest,
        Slot::Name("the name of the loop in which the node stands"),
    )?;
    split_form(rest, Slot::PolicyOrSplit)
}

// `[split NUMBER] policy P`; where neither stands there, this was expected.
fn split_form<'a>(words: &[Word<'a>], wanted: Slot) -> Result<(), Wrong<'a>> {
    if begins(words, b"split".as_slice()) {
        let rest = take(words, Slot::Keyword("split"))?;
        let rest = take(
            rest,
            Slot::Number("how many replicas share the keys, a number from 2 to 64"),
        )?;
        return policy_form(rest);
    }
    take(words, wanted)?;
    policy_form(words)
}

// `policy P`
fn policy_form<'a>(words: &[Word<'a>]) -> Result<(), Wrong<'a>> {
    let rest = take(words, Slot::Policy)?;
    let rest = take(rest, Slot::PolicyName)?;
    end(
        rest,
        "the end of the line: the policy is its last word (a comment is a line of its own)",
    )
}

/// Where a line of inputs leaves the form.
pub(crate) fn inputs_form<'a>(words: &[Word<'a>]) -> Result<(), Wrong<'a>> {
    let rest = take(words, Slot::Batch)?;
    let rest = take(rest, Slot::Name("the name of an input"))?;
    for word in rest {
        if !Slot::Record.accepts(word.bytes) {
            return Err(Wrong {
                word: Some(*word),
                slot: Slot::Record,
            });
        }
    }
    Ok(())
}

/// Where a line of a schedule leaves the forms.
pub(crate) fn schedule_form<'a>(words: &[Word<'a>]) -> Result<(), Wrong<'a>> {
    let rest = take(words, Slot::Verb)?;
    let [verb, ..] = words else {
        return Ok(());
    };
    match str_of(verb.bytes) {
        "inject" => named(rest, Slot::FullName("the name of an input")),
        "ack" => named(rest, Slot::FullName("the name of an output")),
        "checkpoint" => named(rest, Slot::FullName("the name of a node")),
        "deliver" => stamped(rest, Slot::FullName("the name of an edge")),
        "notify" => stamped(rest, Slot::FullName("the name of a node")),
        "fail" => failing(rest),
        "auto" => named(rest, Slot::Number("at most how many steps, a number")),
        _ => end(rest, "the end of the line: this step has no operand"),
    }
}

// One operand.
fn named<'a>(words: &[Word<'a>], slot: Slot) -> Result<(), Wrong<'a>> {
    let rest = take(words, slot)?;
    end(rest, "the end of the line: this step has one operand")
}

// A name, and perhaps `at` and a stamp.
fn stamped<'a>(words: &[Word<'a>], slot: Slot) -> Result<(), Wrong<'a>> {
    let rest = take(words, slot)?;
    if rest.is_empty() {
        return Ok(());
    }
    let rest = take(rest, Slot::Keyword("at"))?;
    let rest = take(rest, Slot::Stamp)?;
    end(rest, "the end of the line: the stamp is its last word")
}

// One or more names.
fn failing<'a>(words: &[Word<'a>]) -> Result<(), Wrong<'a>> {
    let rest = take(words, Slot::FullName("the name of a node"))?;
    for word in rest {
        if !Slot::FullName("").accepts(word.bytes) {
            return Err(Wrong {
                word: Some(*word),
                slot: Slot::FullName("the name of a node"),
            });
        }
    }
    Ok(())
}
