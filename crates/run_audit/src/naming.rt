//! Reads the unit and the sequence in the first line of a printed book.

ghost use Rattle.std.specs.Prelude.{◌≡◌, ℕ, ◌<◌, ◌^◌, ◌++◌, ◌∷◌, List, Some, MatchOption, decimal};
ghost use Rattle.run_audit.specs.layers.Lines.{book_front};

use text_lines::kinds::number;
use text_lines::length_before;

// A number that ends at the first space, and what follows its digits.
fn take_number(bytes: &[u8]) -> Option<(u32, &[u8])>
    ensures { (n : ℕ) (more : List ℕ) → n < 2 ^ 32 → bytes.now ≡ decimal n ++ 32 ∷ more
        → MatchOption result ⊥ (λ t. (t.0 ≡ n) × (t.1.now ≡ 32 ∷ more)) }
{
    let (digits, rest) = bytes.split_at(length_before(bytes, b' '));
    match number(digits, 0, 4_294_967_295) {
        Some(value) => {
            if value <= 4_294_967_295 {
                Some((value as u32, rest))
            } else {
                None
            }
        }
        None => None,
    }
}

/// The unit and the number that the first line of a book names. Of a line that is none it may be
/// anything.
pub(crate) fn named_by(line: &[u8]) -> Option<(u8, u32)>
    ensures { (unit n : ℕ) (more : List ℕ) → unit < 256 → n < 2 ^ 32
        → line.now ≡ book_front unit n ++ more → result ≡ Some (unit, n) }
{
    let rest = line.strip_prefix(b"book unit ")?;
    let (unit, rest) = take_number(rest)?;
    let rest = rest.strip_prefix(b" at ")?;
    let (n, _) = take_number(rest)?;
    if unit > 255 {
        return None;
    }
    Some((unit as u8, n))
}
