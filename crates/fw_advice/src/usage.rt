//! What a person is told of words that are no command.
use crate::near::nearest_of;
use crate::shown::Shown;
use crate::slip::add_near;
use std::alloc::{AllocError, Global};

/// Which program was called.
#[derive(Clone, Copy, Debug, PartialEq, Eq)]
pub enum Program {
    /// Over a store in memory.
    Falkirk,
    /// Over a store in a folder of real files, which its first word names.
    FalkirkDisk,
}

impl Program {
    // What is written before a command's word.
    fn head(self) -> &'static str {
        match self {
            Program::Falkirk => "falkirk",
            Program::FalkirkDisk => "falkirk_disk FOLDER",
        }
    }
}

/// The commands.
const COMMANDS: [Command; 9] = [
    Command {
        word: "run",
        operands: "FLOW INPUTS SCHEDULE",
        count: 3,
        does: "take the steps of a schedule, and print what is acknowledged",
    },
    Command {
        word: "endure",
        operands: "FLOW INPUTS SCHEDULE",
        count: 3,
        does: "the same, and go on where the store fails",
    },
    Command {
        word: "explain",
        operands: "FLOW INPUTS SCHEDULE",
        count: 3,
        does: "as run, and tell of each recovery why its cuts are the largest",
    },
    Command {
        word: "hold",
        operands: "FLOW INPUTS SCHEDULE",
        count: 3,
        does: "as run, and go on where an earlier start of the same texts was stopped",
    },
    Command {
        word: "gen",
        operands: "SEED SIZE",
        count: 2,
        does: "run generated work, and print one line on it",
    },
    Command {
        word: "denote",
        operands: "FLOW INPUTS",
        count: 2,
        does: "print what a flow means of its inputs",
    },
    Command {
        word: "check",
        operands: "FLOW",
        count: 1,
        does: "print the nodes of a flow",
    },
    Command {
        word: "choose",
        operands: "FLOW OFFERS",
        count: 2,
        does: "print the largest choice of what the nodes of any engine offer",
    },
    Command {
        word: "verify",
        operands: "FLOW OFFERS CERTIFICATE",
        count: 3,
        does: "tell whether such an answer is right",
    },
];

/// A command.
#[derive(Clone, Copy)]
struct Command {
    word: &'static str,
    operands: &'static str,
    // How many operands there are.
    count: usize,
    does: &'static str,
}

// The command of a word.
fn command_of(word: &str) -> Option<Command> {
    for it in COMMANDS.iter() {
        if it.word == word {
            return Some(*it);
        }
    }
    None
}

/// Why the words are no command, and which there are.
pub(crate) fn usage(alloc: Global, program: Program, words: &[&str]) -> Result<String, AllocError> {
    let mut told = String::new(alloc);
    add_reason(alloc, program, words, &mut told)?;
    let head = program.head();
    told.push_str("  these are the commands:\n")?;
    for it in COMMANDS.iter() {
        let word = it.word;
        let operands = it.operands;
        let does = it.does;
        write!(told, "    {head} {word} {operands}\n        {does}\n")?;
    }
    told.push_str("  (bin/falkirk --help, before any command, tells more)\n")?;
    Ok(told)
}

// Adds why the words are no command.
fn add_reason(
    alloc: Global,
    program: Program,
    words: &[&str],
    told: &mut String,
) -> Result<(), AllocError> {
    let [first, operands @ ..] = words else {
        return told.push_str(match program {
            Program::Falkirk => "  no command is given\n",
            Program::FalkirkDisk =>
                "  a folder and a command are to be given, and the folder's name does not begin with `-`\n",
        });
    };
    let Some(it) = command_of(first) else {
        let word = Shown(first.as_bytes());
        write!(told, "  `{word}`: expected a command")?;
        add_near(
            alloc,
            nearest_of(
                alloc,
                first.as_bytes(),
                b"run endure explain hold gen denote check choose verify".as_slice(),
            )?,
            told,
        )?;
        return told.push_str("\n");
    };
    add_operands(it, operands, told)
}

// Adds what is wrong with a command's operands.
fn add_operands(it: Command, operands: &[&str], told: &mut String) -> Result<(), AllocError> {
    let word = it.word;
    let wanted = it.operands;
    let count = operands.len();
    if count != it.count {
        let needed = it.count;
        return write!(told, "  `{word}` takes {needed}: {wanted}; given {count}\n");
    }
    if word == "gen" {
        return told.push_str(
            "  SEED is a number below 2^64 and SIZE one from 1 to 100000, both without a zero in front\n",
        );
    }
    for operand in operands {
        if operand.is_empty() {
            return told.push_str("  a name of a file is empty\n");
        }
        if operand.as_bytes().starts_with(b"-".as_slice()) {
            let name = Shown(operand.as_bytes());
            return write!(
                told,
                "  `{name}`: a name of a file does not begin with `-`: write `./{name}`, or `-` before the command of bin/falkirk for standard input\n"
            );
        }
    }
    told.push_str("  the words are not UTF-8\n")
}
