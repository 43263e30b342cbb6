//! The hold that C asks for.

ghost use Rattle.std.specs.Prelude.{◌≡◌, IfErr, IfOk};
ghost use Rattle.pitch_c.specs.Codes as code;
ghost use Rattle.pitch_c.specs.Answers.{hold_code};

use crate::codes::BAD_HOLD;
use pitch_fields::HoldLimit;

// The limit of a hold of so many messages, or the code for C where there is none.
pub(crate) fn hold_of(hold: u32) -> Result<HoldLimit, u32>
    ensures limit { IfOk result (λ limit. limit ≡ hold) }
    ensures ok { IfOk result (λ limit. hold_code hold ≡ code.ok) }
    ensures err { IfErr result (λ n. n ≡ code.bad_hold) }
    ensures bad { IfErr result (λ n. hold_code hold ≡ code.bad_hold) }
{
    let Some(limit) = HoldLimit::of(hold) else {
        return Err(BAD_HOLD);
    };
    let _within = limit.places();
    Ok(limit)
}
