//! The sum of a message: 64 bits, which differ for different messages but by chance.

ghost use Rattle.std.specs.Prelude.{◌≡◌, ◌-◌, ◌/◌, ◌<◌, length};
ghost use Rattle.std.specs.List.{fold};
ghost use Rattle.line_copies.specs.Sums.{mixed, sum_of, summed};

use pitch_fields::get_u64;

// An odd number with its bits spread over the word: 2^64 divided by the golden ratio.
const FACTOR: u64 = 0x9e37_79b9_7f4a_7c15;

// A sum with eight bytes more.
#[inline(always)]
#[tactic(auto, unfolding(crate::specs::Sums::mixed))]
fn mix(sum: u64, word: u64) -> u64
    ensures { result ≡ mixed sum word }
{
    let both = sum ^ word;
    (both ^ (both >> 32)).wrapping_mul(FACTOR)
}

// The sum of the words of eight bytes from the front, but for the last eight bytes or fewer.
#[inline(always)]
fn sum_of_words(raw: &[u8]) -> u64
    ensures { result ≡ summed ((length raw.now - 1) / 8) 0 raw.now }
{
    let mut sum = 0;
    let mut rest = raw;
    'words: while rest.len() > 8 {
        sum = mix(sum, get_u64(rest, 0));
        let (_, following) = rest.split_at(8);
        rest = following;
    }
    sum
}

// The sum of bytes, one at a time.
fn sum_of_bytes(raw: &[u8]) -> u64
    ensures { result ≡ fold mixed 0 raw.now }
{
    raw.iter().fold(0, |sum, byte| mix(sum, u64::from(*byte)))
}

/// The sum of a message. Two different messages that nobody chose for it have the same sum once in
/// 2^64.
#[inline]
#[tactic(auto, unfolding(crate::specs::Sums::sum_of))]
pub fn sum_of(raw: &[u8]) -> u64
    ensures { result ≡ sum_of raw.now }
{
    if raw.len() < 8 {
        return sum_of_bytes(raw);
    }
    mix(sum_of_words(raw), get_u64(raw, raw.len() - 8))
}
