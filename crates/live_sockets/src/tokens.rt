//! The tokens by which a wait tells of peers.

ghost use Rattle.std.specs.Prelude.{◌≡◌, ◌<◌, ℕ, Some, None};
ghost use Rattle.live_sockets.specs.layers.Tokens.{peer_number};

use mio::Token;

// The first ones are of the input and of the lines.
const FIRST_PEER: usize = 2;

/// The token of a peer.
pub(crate) fn peer_token(peer: u16) -> Token
    ensures { result.0 ≡ peer_number peer }
{
    Token(FIRST_PEER + usize::from(peer))
}

/// Whose token this is, where it is one of a peer.
pub(crate) fn peer_told(token: Token) -> Option<usize>
    ensures peer { (peer : ℕ) → token.0 ≡ peer_number peer → result ≡ Some peer }
    ensures other { token.0 < peer_number 0 → result ≡ None }
{
    token.0.checked_sub(FIRST_PEER)
}
