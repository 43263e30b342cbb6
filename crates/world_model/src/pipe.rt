//! How much of a pipe is carried.

ghost use Rattle.std.specs.Prelude.{◌≡◌, ◌≤◌, ◌<◌, unwrap_or, IfOk, IfErr};

/// How many bytes are to be carried of so many that wait: a number that is asked for, or all. The
/// error is the number that was asked for, where fewer wait.
pub(crate) fn carry_count(asked: Option<u32>, waiting: usize) -> Result<usize, u32>
    ensures count { IfOk result (λ n. (n ≡ unwrap_or asked waiting) × (n ≤ waiting)) }
    ensures few { IfErr result (λ n. (n ≡ unwrap_or asked waiting) × (waiting < n)) }
{
    match asked {
        None => Ok(waiting),
        Some(n) => {
            if n as usize > waiting {
                return Err(n);
            }
            Ok(n as usize)
        }
    }
}
