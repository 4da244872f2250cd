//! Numbers that are drawn.
ghost use Rattle.std.specs.Prelude.{◌≡◌, ◌<◌};
ghost use Rattle.fw_generate.specs.Draws.{draw, words_drawn};

use rand_core::utils::NextWord;
use rand_pcg::Lcg64Xsh32;

// The next word modulo `limit`.
pub fn draw(generator: &mut Lcg64Xsh32, limit: u32) -> u32
    requires { 0 < limit }
    ensures below { result < limit }
    ensures value { (result, words_drawn generator.new) ≡ draw limit (words_drawn generator.old) }
{
    generator.next_word() % limit
}
