//! Who is asked, and by what account.

ghost use Rattle.std.specs.Prelude.{◌≡◌, ◌==◌, ℕ, List, IfNone, IfSome, Option, option_map};
ghost use Rattle.std.specs.List.{list_any};
ghost use Rattle.session_ends.specs.declared.account.Account.{Account as AccountOf};
ghost use Rattle.live_words.specs.Options.{IsAccount, IsLoginWord, are_apart as are_units_apart};
ghost use Rattle.live_words.specs.Options.{can_ask as units_can_ask, units_of};

use crate::listen_words::Server;
use session_ends::Account;

// A word of a login with spaces up to its length, where the text has 1 to so many bytes.
fn login_word<const N: usize>(text: &str) -> Option<[u8; N]>
    ensures some { IfSome result (λ word. IsLoginWord N text.now word) }
    ensures none { IfNone result ((word : List ℕ) → ¬ IsLoginWord N text.now word) }
{
    let bytes = text.as_bytes();
    if bytes.is_empty() || bytes.len() > N {
        return None;
    }
    let mut word = [b' '; N];
    word[..bytes.len()].copy_from_slice(bytes);
    Some(word)
}

/// The account of these words: `Some(None)` where none of them is given, and `None` where one of
/// them is missing or no word of a login.
pub(crate) fn account_of(
    sub: Option<&str>,
    user: Option<&str>,
    password: Option<&str>,
) -> Option<Option<Account>>
    ensures some { IfSome result (IsAccount (option_map (λ s. s.now) sub.entry)
        (option_map (λ s. s.now) user.entry) (option_map (λ s. s.now) password.entry)) }
    ensures none { IfNone result ((account : Option AccountOf)
        → ¬ IsAccount (option_map (λ s. s.now) sub.entry)
        (option_map (λ s. s.now) user.entry) (option_map (λ s. s.now) password.entry) account) }
{
    match (sub, user, password) {
        (None, None, None) => Some(None),
        (Some(sub), Some(user), Some(password)) => {
            let sub = login_word(sub)?;
            let user = login_word(user)?;
            let password = login_word(password)?;
            Some(Some(Account {
                sub,
                user,
                password,
            }))
        }
        _ => None,
    }
}

// Whether one of them is of this unit.
pub(crate) fn has_unit(servers: &[Server], unit: u8) -> bool
    ensures { result ≡ list_any (λ other. other == unit) (units_of servers.now) }
{
    servers.iter().any(|server| server.unit == unit)
}

// Whether none of them is of a unit of which another is.
pub(crate) fn are_apart(servers: &[Server]) -> bool
    ensures { result ≡ are_units_apart (units_of servers.now) }
{
    match servers.split_first() {
        Some((first, others)) => !has_unit(others, first.unit) && are_apart(others),
        None => true,
    }
}

/// Whether these servers can be asked: each unit has at most one of a kind, and there is an account
/// where there is any.
pub(crate) fn can_ask(grp: &[Server], spin: &[Server], has_account: bool) -> bool
    ensures { result ≡ units_can_ask (units_of grp.now) (units_of spin.now) has_account }
{
    are_apart(grp) && are_apart(spin) && (has_account || (grp.is_empty() && spin.is_empty()))
}
