//! The generated schedule.
ghost use Rattle.std.specs.Prelude.{◌≡◌, ◌<◌, [], OnOk, string_bytes, slice_index_or};
ghost use Rattle.std.specs.List.{flat_map};
ghost use Rattle.fw_generate.specs.Draws.{drawn_times, words_drawn};
ghost use Rattle.fw_lines.specs.Written.{line_text, text_of};
ghost use Rattle.fw_generate.specs.Texts.{auto_line, failure_lines, lines_for, generated_node_names, round_lines, schedule_lines};
ghost use Rattle.fw_generate.specs.Writes.{WritesDrawn};

use crate::draws::draw;
use rand_pcg::Lcg64Xsh32;
use std::alloc::AllocError;

// The lines of four checkpoints.
const CHECKPOINTS: &str = "checkpoint add\ncheckpoint run\ncheckpoint mix\ncheckpoint led\n";

// Writes so many rounds, and the last lines.
pub fn write_schedule(
    generator: &mut Lcg64Xsh32,
    size: u32,
    text: &mut String,
) -> Result<(), AllocError>
    ensures { OnOk result (WritesDrawn (schedule_lines size) text_of
        (words_drawn generator.old) (words_drawn generator.new) (string_bytes text.old) (string_bytes text.new)) }
{
    write_rounds(generator, size, text)?;
    text.push_str("auto 1000000000\ncollect\n")
}

// Writes so many rounds.
fn write_rounds(generator: &mut Lcg64Xsh32, size: u32, text: &mut String) -> Result<(), AllocError>
    ensures { OnOk result (WritesDrawn (drawn_times size round_lines) (flat_map text_of)
        (words_drawn generator.old) (words_drawn generator.new) (string_bytes text.old) (string_bytes text.new)) }
{
    for _ in 0..size {
        write_round(generator, text)?;
    }
    Ok(())
}

// Writes a round: steps that are enabled, and what a number that is drawn asks for.
fn write_round(generator: &mut Lcg64Xsh32, text: &mut String) -> Result<(), AllocError>
    ensures { OnOk result (WritesDrawn round_lines text_of
        (words_drawn generator.old) (words_drawn generator.new) (string_bytes text.old) (string_bytes text.new)) }
{
    write_auto(generator, text)?;
    let number = draw(generator, 16);
    write_lines_for(number, generator, text)
}

// Writes the line of steps that are enabled.
fn write_auto(generator: &mut Lcg64Xsh32, text: &mut String) -> Result<(), AllocError>
    ensures { OnOk result (WritesDrawn auto_line line_text
        (words_drawn generator.old) (words_drawn generator.new) (string_bytes text.old) (string_bytes text.new)) }
{
    let most = 8 + draw(generator, 32);
    writeln!(text, "auto {most}")
}

// Writes what the number asks for.
fn write_lines_for(
    number: u32,
    generator: &mut Lcg64Xsh32,
    text: &mut String,
) -> Result<(), AllocError>
    ensures { OnOk result (WritesDrawn (lines_for number) text_of
        (words_drawn generator.old) (words_drawn generator.new) (string_bytes text.old) (string_bytes text.new)) }
{
    match number {
        0 => write_failure(generator, text),
        1 => text.push_str(CHECKPOINTS),
        2 => text.push_str("collect\n"),
        _ => Ok(()),
    }
}

// Writes the failure of a node, and a recovery.
fn write_failure(generator: &mut Lcg64Xsh32, text: &mut String) -> Result<(), AllocError>
    ensures { OnOk result (WritesDrawn failure_lines text_of
        (words_drawn generator.old) (words_drawn generator.new) (string_bytes text.old) (string_bytes text.new)) }
{
    let name = node_name(draw(generator, 12));
    write!(text, "fail {name}\nrecover\n")
}

// The name of the node at a place.
fn node_name(place: u32) -> &'static str
    requires { place < 12 }
    ensures { result.now ≡ slice_index_or generated_node_names place [] }
{
    match place {
        0 => "src",
        1 => "ent",
        2 => "mix",
        3 => "inc",
        4 => "fb",
        5 => "lv",
        6 => "add",
        7 => "seq",
        8 => "led",
        9 => "out",
        10 => "run",
        _ => "tot",
    }
}
