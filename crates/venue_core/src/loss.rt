//! Which copies of datagrams are lost, about one in twenty, drawn from a number.

ghost use Rattle.std.specs.Prelude.{◌≡◌};
ghost use Rattle.venue_core.specs.Losses.{mix, draw_of_copy, state_after, is_lost};

// The mixing of a state of SplitMix64.
#[tactic(auto, unfolding(crate::specs::Losses::mix))]
fn mix(x: u64) -> u64
    ensures { result ≡ mix x }
{
    let x = (x ^ (x >> 30)).wrapping_mul(0xbf58_476d_1ce4_e5b9);
    let x = (x ^ (x >> 27)).wrapping_mul(0x94d0_49bb_1331_11eb);
    x ^ (x >> 31)
}

// The state of SplitMix64 from which the loss of a copy is drawn.
fn state_of_copy(number: u64, unit: u8, index: u32, line: u8) -> u64
    ensures { result ≡ state_after number (draw_of_copy unit index line) }
{
    let draws = 1_000_000 * u64::from(unit) + 10 * u64::from(index) + u64::from(line);
    number.wrapping_add(0x9e37_79b9_7f4a_7c15u64.wrapping_mul(draws))
}

/// Whether the copy of datagram `index` of a unit is lost on a line, which is 1 for A and 2 for B.
/// About one copy of twenty is, which ones is fixed by the number.
pub fn lost(number: u64, unit: u8, index: u32, line: u8) -> bool
    ensures { result ≡ is_lost number unit index line }
{
    mix(state_of_copy(number, unit, index, line)) % 20 == 0
}
