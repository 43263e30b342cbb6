//! Whose logins are made, or allowed.

ghost use Rattle.std.specs.Prelude.{◌≡◌, unwrap_or};
ghost use Rattle.live_setups.specs.Accounts.{account_or_nobodys, nobody};

use session_ends::Account;

// An account of spaces.
fn nobodys() -> Account
    ensures { result ≡ nobody }
{
    Account {
        sub: *b"    ",
        user: *b"    ",
        password: *b"          ",
    }
}

/// The account that is given, or nobody's.
pub(crate) fn account_or_nobodys(given: Option<Account>) -> Account
    ensures { result ≡ account_or_nobodys given }
{
    match given {
        Some(account) => account,
        None => nobodys(),
    }
}
