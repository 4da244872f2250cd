//! The texts of a seed and a size.
ghost use Rattle.std.specs.Prelude.{◌≡◌, IfOk};
ghost use Rattle.fw_generate.specs.Draws.{words_from};
ghost use Rattle.fw_generate.specs.Laws.{accepted_size_limit};
ghost use Rattle.fw_generate.specs.Texts.{texts_of};

use crate::generated::Texts;
use crate::inputs::write_batches;
use crate::schedule::write_schedule;
use rand_pcg::Lcg64Xsh32;
use std::alloc::{AllocError, Global};

/// The greatest size up to which the readers accept the texts, whatever is drawn
/// ([`generated_texts_are_accepted`](crate::laws::generated_texts_are_accepted)).
pub fn size_limit() -> u32
    ensures { result ≡ accepted_size_limit }
{
    100_000
}

// The stream of the generator of words.
const STREAM: u64 = 54;

/// The texts of a size, drawn from a seed: the flow, which is the same for all; `size` batches of up to seven recs; and a
/// schedule of `size` rounds, in some of which nodes fail.
///
/// It takes the memory of the texts. The readers accept those of each size up to [`size_limit`]; those of much greater sizes
/// can be longer than they allow.
pub fn generate(alloc: Global, seed: u64, size: u32) -> Result<Texts, AllocError>
    ensures { IfOk result (λ texts. texts ≡ texts_of size (words_from seed)) }
{
    let mut generator = Lcg64Xsh32::new(seed, STREAM);
    let mut inputs = String::new(alloc);
    write_batches(&mut generator, size, &mut inputs)?;
    let mut schedule = String::new(alloc);
    write_schedule(&mut generator, size, &mut schedule)?;
    Ok(Texts::of(inputs, schedule))
}
