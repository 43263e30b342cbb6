//! The shares of the lines.

ghost use Rattle.std.specs.Prelude.{◌≡◌, IfNone, IfSome};
ghost use Rattle.std.specs.List.{list_any};
ghost use Rattle.pitch_io.specs.declared.line.Line.{Line as LineFor};
ghost use Rattle.live_words.specs.Trials.{HaveShares, is_line as are_one_line, is_share_of};
ghost use Rattle.live_words.specs.Trials.{line_name, share_of as share_of_line};
ghost use Rattle.live_words.specs.declared.trial_words.ShareWords.{ShareWords as SharesFor};

use crate::trial_words::{LineShare, ShareWords};
use pitch_io::Line;

// The line of this name.
#[tactic(auto, using(crate::proofs::Sharing::names_no_line))]
pub(crate) fn line_named(name: &str) -> Option<Line>
    ensures some { IfSome result (λ line. name.now ≡ line_name line) }
    ensures none { IfNone result ((line : LineFor) → ¬ (name.now ≡ line_name line)) }
{
    if name == "a" {
        Some(Line::A)
    } else if name == "b" {
        Some(Line::B)
    } else if name == "gap" {
        Some(Line::Gap)
    } else {
        None
    }
}

// Whether the two are one line.
fn is_line(line: Line, other: Line) -> bool
    ensures { result ≡ are_one_line line other }
{
    line == other
}

// Whether one of the shares is of this line.
fn has_line(shares: &[LineShare], line: Line) -> bool
    ensures { result ≡ list_any (is_share_of line) shares.now }
{
    shares.iter().any(|of| is_line(line, of.line))
}

// The share that is given of a line: 0 where none is, and `None` where two are.
#[tactic(auto, using(crate::proofs::Sharing::share_passed, crate::proofs::Sharing::share_twice, crate::proofs::Sharing::share_once))]
fn share_of(shares: &[LineShare], line: Line) -> Option<u8>
    ensures { result ≡ share_of_line line shares.now }
{
    let Some((first, others)) = shares.split_first() else {
        return Some(0);
    };
    if !is_line(line, first.line) {
        share_of(others, line)
    } else if has_line(others, line) {
        None
    } else {
        Some(first.share)
    }
}

/// The shares of the lines, or `None` where two are given of one.
pub(crate) fn shares_of(given: &[LineShare]) -> Option<ShareWords>
    ensures some { IfSome result (HaveShares given.now) }
    ensures none { IfNone result ((shares : SharesFor) → ¬ HaveShares given.now shares) }
{
    Some(ShareWords {
        a: share_of(given, Line::A)?,
        b: share_of(given, Line::B)?,
        gap: share_of(given, Line::Gap)?,
    })
}
