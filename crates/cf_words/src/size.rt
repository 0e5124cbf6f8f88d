//! The operand of `gen`.
ghost use Rattle.std.specs.Prelude.{◌≡◌, ◌≤◌, IfSome};
ghost use Rattle.cf_words.specs.Words.{size_of as the_size_of};

use itoa::Buffer;

const MOST_SIZE: u32 = 100;

/// The number from 1 to 100 that a word spells in decimal digits without leading zeros.
pub(crate) fn size_of(word: &str) -> Option<u32>
    ensures size { result ≡ the_size_of word.now }
    ensures fits { IfSome result (λ n. (1 ≤ n) × (n ≤ 100)) }
{
    let mut buffer = Buffer::new();
    for i in 0..MOST_SIZE {
        if word == buffer.format(1 + i) {
            return Some(1 + i);
        }
    }
    None
}
