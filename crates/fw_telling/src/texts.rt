//! The files that the words of the top call name.
ghost use Rattle.std.specs.Prelude.{IfOk, ◌^◌};
ghost use Rattle.fw_command.specs.Command.{three_texts};
ghost use Rattle.fw_command.specs.Words.{text_names_in, words_in};
ghost use Rattle.fw_telling.specs.Names.{names_called, names_in};
ghost use Rattle.fw_telling.specs.Read.{AreTextsOf};

use crate::{NamedFiles, ReadFolder};
use fw_command::{CommandWords, RunWords, held_words, parse};
use fw_lines::INPUTS_LIMIT;
use std::alloc::{AllocError, Global};

/// The files of the texts that these words name, read; none where they are no command, or one without texts. Of no file more is read
/// than the greatest text that any command takes, and one byte.
///
/// # Errors
///
/// Memory was refused for the names. Where it is refused for the bytes of a file, the calls that ask for it answer so.
#[tactic(auto, using(crate::proofs::CalledLaws::called_held, crate::proofs::CalledLaws::called_command, crate::proofs::CalledLaws::called_none))]
pub fn read_texts<T: NamedFiles>(
    alloc: Global,
    files: &T,
    words: &[&str],
) -> Result<ReadFolder, AllocError>
    ensures { IfOk result (λ folder. AreTextsOf (T.bytes files.now) (2 ^ 24) (names_called (words_in words.now)) folder.texts.items) }
{
    if let Some(texts) = held_words(words) {
        return read_three(alloc, files, texts);
    }
    match parse(alloc, words)? {
        Some(CommandWords::Run(_, texts)) => read_three(alloc, files, texts),
        Some(CommandWords::Denote(texts)) => read(alloc, files, &[texts.flow, texts.inputs]),
        Some(CommandWords::Check(flow)) => read(alloc, files, &[flow]),
        Some(CommandWords::Generate(_)) | None => read(alloc, files, &[]),
    }
}

fn read_three<T: NamedFiles>(
    alloc: Global,
    files: &T,
    texts: RunWords<'_>,
) -> Result<ReadFolder, AllocError>
    ensures { IfOk result (λ folder. AreTextsOf (T.bytes files.now) (2 ^ 24) (names_in (three_texts (text_names_in texts.entry))) folder.texts.items) }
{
    read(alloc, files, &[texts.flow, texts.inputs, texts.schedule])
}

fn read<T: NamedFiles>(alloc: Global, files: &T, names: &[&str]) -> Result<ReadFolder, AllocError>
    ensures { IfOk result (λ folder. AreTextsOf (T.bytes files.now) (2 ^ 24) (words_in names.now) folder.texts.items) }
{
    ReadFolder::read(alloc, files, names, INPUTS_LIMIT)
}
