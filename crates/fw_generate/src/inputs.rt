//! The generated inputs.
ghost use Rattle.std.specs.Prelude.{OnOk, string_bytes};
ghost use Rattle.std.specs.List.{flat_map};
ghost use Rattle.fw_generate.specs.Draws.{drawn_times, words_drawn};
ghost use Rattle.fw_lines.specs.Written.{behind_space, spaced, line_text};
ghost use Rattle.fw_generate.specs.Texts.{batch_line, rec_word};
ghost use Rattle.fw_generate.specs.Writes.{WritesDrawn};

use crate::draws::draw;
use rand_pcg::Lcg64Xsh32;
use std::alloc::AllocError;

// Writes so many batches, each a line.
pub fn write_batches(
    generator: &mut Lcg64Xsh32,
    size: u32,
    text: &mut String,
) -> Result<(), AllocError>
    ensures { OnOk result (WritesDrawn (drawn_times size batch_line) (flat_map line_text)
        (words_drawn generator.old) (words_drawn generator.new) (string_bytes text.old) (string_bytes text.new)) }
{
    for _ in 0..size {
        write_batch(generator, text)?;
    }
    Ok(())
}

// Writes the line of a batch.
fn write_batch(generator: &mut Lcg64Xsh32, text: &mut String) -> Result<(), AllocError>
    ensures { OnOk result (WritesDrawn batch_line line_text
        (words_drawn generator.old) (words_drawn generator.new) (string_bytes text.old) (string_bytes text.new)) }
{
    let count = draw(generator, 8);
    text.push_str("batch src")?;
    write_recs(generator, count, text)?;
    text.push_str("\n")
}

// Writes so many recs, each behind a space.
fn write_recs(generator: &mut Lcg64Xsh32, count: u32, text: &mut String) -> Result<(), AllocError>
    ensures { OnOk result (WritesDrawn (drawn_times count rec_word) spaced
        (words_drawn generator.old) (words_drawn generator.new) (string_bytes text.old) (string_bytes text.new)) }
{
    for _ in 0..count {
        write_rec(generator, text)?;
    }
    Ok(())
}

// Writes a rec behind a space.
fn write_rec(generator: &mut Lcg64Xsh32, text: &mut String) -> Result<(), AllocError>
    ensures { OnOk result (WritesDrawn rec_word behind_space
        (words_drawn generator.old) (words_drawn generator.new) (string_bytes text.old) (string_bytes text.new)) }
{
    let key = draw(generator, 16);
    let value = draw(generator, 1000);
    write!(text, " {key}:{value}")
}
