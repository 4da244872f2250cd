//! The names of the files in a folder.
ghost use Rattle.std.specs.Prelude.{◌≡◌, ℕ, ◌<◌, ◌^◌, [], ◌∷◌, ◌++◌, map, IfOk, IfSome, OnOk, string_bytes};
ghost use Rattle.std.specs.Char.{is_ascii_digit};
ghost use Rattle.std.specs.Fmt.{decimal};
ghost use Rattle.std.specs.List.{filter, list_all};
ghost use Rattle.fw_disk.specs.declared.cause.DiskPlace.TheVariants.{Record};
ghost use Rattle.fw_disk.specs.Names.{is_digit_name, digit_names};

use crate::cause::DiskPlace;
use crate::cuts::first_piece;
use crate::lines::number_in;
use std::alloc::{AllocError, Global};
use std::io::{self, ErrorKind, Read};

/// What a directory gives as it is read to its end: its names, each with a zero byte behind it.
pub(crate) fn read_names<D: Read>(alloc: Global, dir: &mut D) -> io::Result<Vec<u8>>
    ensures { IfOk result (λ read. IfSome (D.remaining dir.old) (λ bytes. read.items ≡ bytes)) }
{
    let mut read = Vec::new(alloc);
    let mut some = [0u8; 4096];
    for _ in 0..u64::MAX {
        let count = dir.read(&mut some)?;
        if count == 0 {
            return Ok(read);
        }
        read.extend_from_slice(&some[..count])?;
    }
    Err(io::Error::from(ErrorKind::Other))
}

/// The names of digits alone among those that reading a directory gave.
pub(crate) fn names_of_digits(alloc: Global, read: &[u8]) -> Result<Vec<String>, AllocError>
    ensures { IfOk result (λ names. map string_bytes names.items ≡ digit_names read.now) }
{
    let mut names = Vec::new(alloc);
    let mut rest = read;
    while let Some((name, later)) = first_piece(rest, 0) {
        add_if_digits(alloc, name, &mut names)?;
        rest = later;
    }
    Ok(names)
}

// Adds a name, if it has digits alone.
fn add_if_digits(alloc: Global, name: &[u8], names: &mut Vec<String>) -> Result<(), AllocError>
    ensures { OnOk result (map string_bytes names.new.items ≡ map string_bytes names.old.items ++ filter is_digit_name (name.now ∷ [])) }
{
    if !has_digits_alone(name) {
        return Ok(());
    }
    if let Ok(text) = str::from_utf8(name) {
        names.push(String::from_str(alloc, text)?)?;
    }
    Ok(())
}

// Whether a name has digits alone, and some.
fn has_digits_alone(name: &[u8]) -> bool
    ensures { result ≡ is_digit_name name.now }
{
    match name {
        [] => false,
        [_, ..] => are_digits(name),
    }
}

// Whether all bytes are digits.
fn are_digits(bytes: &[u8]) -> bool
    ensures { result ≡ list_all is_ascii_digit bytes.now }
{
    bytes.iter().all(|byte| byte.is_ascii_digit())
}

/// The place that a name of digits has, which is the folder where no id has it.
pub(crate) fn place_named(alloc: Global, name: &str) -> Result<DiskPlace, AllocError>
    ensures record { IfOk result (λ place. (id : ℕ) → place ≡ Record id → name.now ≡ decimal id) }
    ensures named { IfOk result (λ place. (id : ℕ) → id < 2 ^ 64 → name.now ≡ decimal id → place ≡ Record id) }
{
    let Some(id) = number_in(name) else {
        return Ok(DiskPlace::Folder);
    };
    if format!(in alloc; "{id}")?.as_str() == name {
        Ok(DiskPlace::Record(id))
    } else {
        Ok(DiskPlace::Folder)
    }
}
