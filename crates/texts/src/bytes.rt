// The bytes that clause text gives a meaning to, and the search for the next byte of a kind.
ghost use Rattle.std.specs.Prelude.{◌≡◌, ◌≤◌, length};
ghost use Rattle.texts.specs.Bytes.{blank, gap, word, line};

/// Whether a byte parts tokens.
#[tactic(auto, unfolding(crate::specs::Bytes::blank))]
pub fn is_blank(byte: u8) -> bool
    ensures { result ≡ blank byte }
{
    matches!(byte, b' ' | b'\t' | b'\r' | b'\n')
}

/// How many bytes stand before the first token.
pub fn gap(text: &[u8]) -> usize
    ensures is { result ≡ gap text.now }
    ensures within { result ≤ length text.now }
{
    text.iter().take_while(|&&byte| is_blank(byte)).count()
}

/// How many bytes the token has that starts the text.
#[tactic(auto, unfolding(crate::specs::Bytes::solid))]
pub fn word(text: &[u8]) -> usize
    ensures is { result ≡ word text.now }
    ensures within { result ≤ length text.now }
{
    text.iter().take_while(|&&byte| !is_blank(byte)).count()
}

/// How many bytes stand before the first line feed.
#[tactic(auto, unfolding(crate::specs::Bytes::feed))]
pub fn line(text: &[u8]) -> usize
    ensures is { result ≡ line text.now }
    ensures within { result ≤ length text.now }
{
    text.iter().take_while(|&&byte| byte != b'\n').count()
}
