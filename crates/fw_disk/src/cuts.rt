//! Bytes that are cut at a byte.
ghost use Rattle.std.specs.Prelude.{◌≡◌, ℕ, ◌<◌, ◌≤◌, ◌==◌, [], ◌∷◌, length, IfNone, IfSome};
ghost use Rattle.std.specs.List.{position_or_len, before_first, after_first};
ghost use Rattle.fw_disk.specs.Pieces.{pieces};

/// What stands before the first such byte, and what behind it; none, where the byte is not there.
pub(crate) fn split_at_byte(text: &[u8], byte: u8) -> Option<(&[u8], &[u8])>
    ensures none { IfNone result (position_or_len (λ b. b == byte) text.now ≡ length text.now) }
    ensures before { IfSome result (λ parts. parts.0.now ≡ before_first (λ b. b == byte) text.now) }
    ensures behind { IfSome result (λ parts. parts.1.now ≡ after_first (λ b. b == byte) text.now) }
    ensures there { IfSome result (λ parts. position_or_len (λ b. b == byte) text.now < length text.now) }
{
    let at = front_len(text, byte);
    if at == text.len() {
        return None;
    }
    Some((&text[..at], &text[at + 1..]))
}

/// The first piece of a text that has this byte behind it, without it, and what stands behind; none, where the byte is not there.
pub(crate) fn first_piece(text: &[u8], byte: u8) -> Option<(&[u8], &[u8])>
    ensures none { IfNone result (pieces byte text.now ≡ []) }
    ensures first { IfSome result (λ parts. pieces byte text.now ≡ parts.0.now ∷ pieces byte parts.1.now) }
    ensures shorter { IfSome result (λ parts. length parts.1.now < length text.now) }
{
    let (piece, later) = split_at_byte(text, byte)?;
    Some((piece, later))
}

// How many bytes stand before the first such byte, or all of them.
fn front_len(text: &[u8], byte: u8) -> usize
    ensures value { result ≡ position_or_len (λ b. b == byte) text.now }
    ensures bound { result ≤ length text.now }
{
    text.iter().take_while(|other| **other != byte).count()
}
