//! A number in a word.

ghost use Rattle.std.specs.Prelude.{ℕ, IfNone, IfSome};
ghost use Rattle.pitch_words.specs.Numbers.{IsNumber};

/// The number that the text writes by 1 to 20 digits, where it lies within the range.
pub fn number(text: &str, least: u64, most: u64) -> Option<u64>
    ensures some { IfSome result (λ n. IsNumber least most text.now n) }
    ensures none { IfNone result ((n : ℕ) → ¬ IsNumber least most text.now n) }
{
    let bytes = text.as_bytes();
    if bytes.len() > 20 || bytes.first() == Some(&b'+') {
        return None;
    }
    match text.parse::<u64>() {
        Ok(n) if least <= n && n <= most => Some(n),
        _ => None,
    }
}
