//! The words of a command.
ghost use Rattle.std.specs.Prelude.{◌≡◌, ◌≢◌, ◌≤◌, [], ◌∷◌, codes, is_some, None, false, option_map, IfOk, IfSome, IsErr};
ghost use Rattle.clap.specs.Matches.{found_of};
ghost use Rattle.clap.specs.Simple.{app_of, shape_of, subcommand_rows_of};
ghost use Rattle.clap.specs.Values.{kind_of};
ghost use Rattle.clap.specs.Walk.{rule_of, rows_of, first_of};
ghost use Rattle.fw_command.specs.Command.{generate};
ghost use Rattle.fw_command.specs.Forms as spec;
ghost use Rattle.fw_command.specs.Forms.{forms, matched_command};
ghost use Rattle.fw_command.specs.Words.{IsOfSize, is_operand, check_of, denote_of, gen_of, held_of, run_of, command_of, command_in, generate_by, text_names_in, system_names_in, words_in};
ghost use Rattle.fw_command.specs.Manner.{seeded_in};
ghost use Rattle.fw_lines.specs.Spelling.{number_of};
ghost use Rattle.fw_generate.specs.Laws.{accepted_size_limit as greatest_size};
ghost use Rattle.clap.specs.declared.builder.command.Command.TheViews.{out-Command as fields_of};

use crate::manner::{Manner, manner_of};
use clap::error::ErrorKind;
use clap::{Arg, ArgMatches, Command, Error};
use fw_generate::size_limit;
use fw_lines::{Number, number};
use std::alloc::{AllocError, Global};

/// The names of the three texts of a run.
#[derive(Clone, Copy, Debug)]
pub struct RunWords<'a> {
    pub flow: &'a str,
    pub inputs: &'a str,
    pub schedule: &'a str,
}

/// The names of the texts of a flow and its inputs.
#[derive(Clone, Copy, Debug)]
pub struct DenoteWords<'a> {
    pub flow: &'a str,
    pub inputs: &'a str,
}

/// The seed and the size of generated texts.
#[derive(Clone, Copy, Debug)]
pub struct GenerateWords {
    pub seed: u64,
    pub size: u32,
}

/// A command with its operands.
#[derive(Clone, Copy, Debug)]
pub enum CommandWords<'a> {
    /// The three texts are run, and the steps are taken and told in this manner.
    Run(Manner, RunWords<'a>),
    /// Generated texts are run, and it is told what came of them.
    Generate(GenerateWords),
    /// It is told what the flow denotes of its inputs.
    Denote(DenoteWords<'a>),
    /// The flow of this name is checked.
    Check(&'a str),
}

/// What the words ask for, if they are a command. The error is want of memory.
pub fn parse<'a>(
    alloc: Global,
    words: &'a [&'a str],
) -> Result<Option<CommandWords<'a>>, AllocError>
    ensures command { IfOk result (λ parsed. option_map command_in parsed ≡ command_of (words_in words.now)) }
    ensures size { IfOk result (λ parsed. IfSome parsed IsOfSize) }
    ensures no_memory { IsErr result → command_of (words_in words.now) ≢ None }
{
    if !is_command(words) {
        return Ok(None);
    }
    let forms = commands(alloc)?;
    match forms.try_get_matches_from(words) {
        Ok(matches) => Ok(named(&matches)),
        Err(error) => refused(&error),
    }
}

/// The names of the three texts of a held run, if the words are `hold` and three operands.
pub fn held_words<'a>(words: &'a [&'a str]) -> Option<RunWords<'a>>
    ensures { option_map text_names_in result ≡ held_of (words_in words.now) }
{
    let [command, flow, inputs, schedule] = words else {
        return None;
    };
    if *command == "hold" && is_operand(flow) && is_operand(inputs) && is_operand(schedule) {
        Some(RunWords {
            flow,
            inputs,
            schedule,
        })
    } else {
        None
    }
}

// Words that `clap` refuses are no command, but where memory was refused.
fn refused<'a>(error: &Error) -> Result<Option<CommandWords<'a>>, AllocError>
    ensures none { IfOk result (λ command. command ≡ None) }
    ensures no_memory { kind_of error.now ≡ ErrorKind.OutOfMemory → IsErr result }
{
    match error.kind() {
        ErrorKind::OutOfMemory => Err(AllocError),
        _ => Ok(None),
    }
}

// Whether the words are a command: the word of a form, and as many operands.
fn is_command(words: &[&str]) -> bool
    ensures { result ≡ is_some (command_of (words_in words.now)) }
{
    is_check(words) || is_denote(words) || is_gen(words) || is_run(words)
}

// Whether the words are `check` and an operand.
fn is_check(words: &[&str]) -> bool
    ensures { result ≡ is_some (check_of (words_in words.now)) }
{
    let [command, flow] = words else {
        return false;
    };
    *command == "check" && is_operand(flow)
}

// Whether the words are `denote` and two operands.
fn is_denote(words: &[&str]) -> bool
    ensures { result ≡ is_some (denote_of (words_in words.now)) }
{
    let [command, flow, inputs] = words else {
        return false;
    };
    *command == "denote" && is_operand(flow) && is_operand(inputs)
}

// Whether the words are `gen`, a number and a size.
fn is_gen(words: &[&str]) -> bool
    ensures { result ≡ is_some (gen_of (words_in words.now)) }
{
    let [command, seed, size] = words else {
        return false;
    };
    *command == "gen" && generate_words(seed, size).is_some()
}

// Whether the words are that of a run and three operands.
fn is_run(words: &[&str]) -> bool
    ensures { result ≡ is_some (run_of (words_in words.now)) }
{
    let [command, flow, inputs, schedule] = words else {
        return false;
    };
    is_operand(flow) && is_operand(inputs) && is_operand(schedule) && manner_of(*command).is_some()
}

// An operand is not empty, and no option.
fn is_operand(word: &str) -> bool
    ensures { result ≡ is_operand word.now }
{
    match word.as_bytes() {
        [] => false,
        [first, ..] => *first != b'-',
    }
}

// The forms of the commands. The words hold no name of the program, and none asks for help.
fn commands<'a>(alloc: Global) -> Result<Command<'a>, AllocError>
    ensures { IfOk result (λ command. app_of command ≡ forms) }
{
    program(alloc)
        .subcommand(run_form(alloc, "run")?)?
        .subcommand(run_form(alloc, "endure")?)?
        .subcommand(run_form(alloc, "explain")?)?
        .subcommand(gen_form(alloc)?)?
        .subcommand(denote_form(alloc)?)?
        .subcommand(check_form(alloc)?)
}

// The program, without a command.
fn program<'a>(alloc: Global) -> Command<'a>
    ensures { app_of result ≡ record { top = spec.program; subs = [] } }
{
    Command::new(alloc, "falkirk")
        .no_binary_name(true)
        .disable_help_flag(true)
        .disable_help_subcommand(true)
}

// The form `WORD FLOW INPUTS SCHEDULE`.
fn run_form<'a>(alloc: Global, word: &'a str) -> Result<Command<'a>, AllocError>
    ensures shape { IfOk result (λ form. shape_of form ≡ spec.form word.entry.now spec.three_names) }
    ensures local { IfOk result (λ form. (fields_of form).has_globals ≡ false) }
{
    Command::new(alloc, word)
        .arg(operand(alloc, "flow"))?
        .arg(operand(alloc, "inputs"))?
        .arg(operand(alloc, "schedule"))
}

// The form `gen SEED SIZE`.
fn gen_form<'a>(alloc: Global) -> Result<Command<'a>, AllocError>
    ensures shape { IfOk result (λ form. shape_of form ≡ spec.form (codes "gen") (codes "seed" ∷ codes "size" ∷ [])) }
    ensures local { IfOk result (λ form. (fields_of form).has_globals ≡ false) }
{
    Command::new(alloc, "gen")
        .arg(operand(alloc, "seed"))?
        .arg(operand(alloc, "size"))
}

// The form `denote FLOW INPUTS`.
fn denote_form<'a>(alloc: Global) -> Result<Command<'a>, AllocError>
    ensures shape { IfOk result (λ form. shape_of form ≡ spec.form (codes "denote") (codes "flow" ∷ codes "inputs" ∷ [])) }
    ensures local { IfOk result (λ form. (fields_of form).has_globals ≡ false) }
{
    Command::new(alloc, "denote")
        .arg(operand(alloc, "flow"))?
        .arg(operand(alloc, "inputs"))
}

// The form `check FLOW`.
fn check_form<'a>(alloc: Global) -> Result<Command<'a>, AllocError>
    ensures shape { IfOk result (λ form. shape_of form ≡ spec.form (codes "check") (codes "flow" ∷ [])) }
    ensures local { IfOk result (λ form. (fields_of form).has_globals ≡ false) }
{
    Command::new(alloc, "check").arg(operand(alloc, "flow"))
}

// An operand of a form, by a name that its matches have.
fn operand<'a>(alloc: Global, name: &'a str) -> Arg<'a>
    ensures rule { rule_of result ≡ spec.operand name.entry.now }
    ensures local { result.global ≡ false }
{
    Arg::new(alloc, name).required(true)
}

// The command that the matches name.
fn named<'a>(matches: &ArgMatches<'a>) -> Option<CommandWords<'a>>
    ensures command { option_map command_in result ≡ matched_command (subcommand_rows_of matches.now) }
    ensures size { IfSome result IsOfSize }
{
    let (word, operands) = matches.subcommand()?;
    match word {
        "gen" => Some(CommandWords::Generate(generate_words(
            given(operands, "seed")?,
            given(operands, "size")?,
        )?)),
        "denote" => Some(CommandWords::Denote(denote_words(operands)?)),
        "check" => Some(CommandWords::Check(given(operands, "flow")?)),
        _ => Some(CommandWords::Run(manner_of(word)?, run_words(operands)?)),
    }
}

// The names of the texts of a run.
fn run_words<'a>(operands: &ArgMatches<'a>) -> Option<RunWords<'a>>
    ensures { option_map text_names_in result ≡ spec.names_matched (rows_of (found_of operands.now)) }
{
    Some(RunWords {
        flow: given(operands, "flow")?,
        inputs: given(operands, "inputs")?,
        schedule: given(operands, "schedule")?,
    })
}

// A seed and a size, if the words spell them.
fn generate_words(seed: &str, size: &str) -> Option<GenerateWords>
    ensures command { option_map (λ words. generate (seeded_in words)) result ≡ generate_by (number_of seed.now) (number_of size.now) }
    ensures size { IfSome result (λ words. words.size ≤ greatest_size) }
{
    let Number::Value(seed) = number(seed.as_bytes()) else {
        return None;
    };
    let Number::Value(size) = number(size.as_bytes()) else {
        return None;
    };
    if size == 0 || size > u64::from(size_limit()) {
        return None;
    }
    Some(GenerateWords {
        seed,
        size: size as u32,
    })
}

// The names of the texts of a flow and its inputs.
fn denote_words<'a>(operands: &ArgMatches<'a>) -> Option<DenoteWords<'a>>
    ensures { option_map system_names_in result ≡ spec.two_names_matched (rows_of (found_of operands.now)) }
{
    Some(DenoteWords {
        flow: given(operands, "flow")?,
        inputs: given(operands, "inputs")?,
    })
}

// What was given for an operand.
fn given<'a>(operands: &ArgMatches<'a>, name: &str) -> Option<&'a str>
    ensures { option_map (λ text. text.now) result ≡ first_of name.now (rows_of (found_of operands.now)) }
{
    operands.get_str(name)
}
