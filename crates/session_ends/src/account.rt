//! The account that a login names: sub id, user and password, filled up with spaces.

/// Who may log in: a sub id, a user and a password, each with spaces up to its length ("Login
/// Message").
#[derive(Clone, Copy, PartialEq, Eq)]
pub struct Account {
    pub sub: [u8; 4],
    pub user: [u8; 4],
    pub password: [u8; 10],
}
