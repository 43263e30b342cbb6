//! The bytes that wait for one session.

ghost use Rattle.std.specs.Prelude.{◌≡◌, ◌≤◌, ◌++◌, [], length, min, take, drop, vec_len};
ghost use Rattle.std.specs.Prelude.{if◌then◌else◌};

// Drops the first bytes.
fn drop_front(bytes: &mut Vec<u8>, count: usize)
    requires { count ≤ vec_len bytes.old }
    ensures { bytes.new.items ≡ drop count bytes.old.items }
{
    let left = bytes.len() - count;
    bytes.copy_within(count.., 0);
    bytes.truncate(left);
}

/// Drops so many of the first bytes, or all.
pub(crate) fn drop_sent(bytes: &mut Vec<u8>, count: usize)
    ensures { bytes.new.items ≡ drop count bytes.old.items }
{
    drop_front(bytes, count.min(bytes.len()));
}

/// Takes the first bytes out, as many as there is room for.
pub(crate) fn take_front(bytes: &mut Vec<u8>, into: &mut [u8]) -> usize
    ensures count { result ≡ min (length bytes.old.items) (length into.old) }
    ensures left { bytes.new.items ≡ drop result bytes.old.items }
    ensures into { into.new ≡ take result bytes.old.items ++ drop result into.old }
{
    let count = bytes.len().min(into.len());
    into[..count].copy_from_slice(&bytes[..count]);
    drop_front(bytes, count);
    count
}

/// Drops all, unless a connection stands.
pub(crate) fn keep_where(stands: bool, bytes: &mut Vec<u8>)
    ensures { bytes.new.items ≡ if stands then bytes.old.items else [] }
{
    if !stands {
        bytes.truncate(0);
    }
}
