//! What the words ask of a stream, as it is told to `stream_print`.

ghost use Rattle.std.specs.Prelude.{◌≡◌};
ghost use Rattle.pitch_fields.specs.Limits.{IsHoldLimit};
ghost use Rattle.pitch_words.specs.layers.Commands.{HasHoldLimit};
ghost use Rattle.pitch_tool.specs.Jobs.{carrier_of, printed_of};

use pitch_fields::HoldLimit;
use pitch_words::{Carried, StreamWords};
use stream_print::{Carrier, StreamForm};

// The limit of a hold of so many messages.
fn limit_of(hold: u32) -> HoldLimit
    requires { IsHoldLimit hold }
    ensures { result ≡ hold }
{
    let Some(limit) = HoldLimit::of(hold) else {
        unreachable!();
    };
    limit
}

/// What carries a stream.
pub fn carrier_of(carried: Carried) -> Carrier
    ensures { result ≡ carrier_of carried }
{
    match carried {
        Carried::Bare => Carrier::Bare,
        Carried::Capture { port } => Carrier::Capture { port },
    }
}

/// What is printed of it.
pub fn printed_of(form: StreamWords) -> StreamForm
    requires { HasHoldLimit form }
    ensures { result ≡ printed_of form }
{
    match form {
        StreamWords::Follow { hold } => {
            let hold = limit_of(hold);
            StreamForm::Follow { hold }
        }
        StreamWords::Show => StreamForm::Show,
        StreamWords::Relay { hold } => {
            let hold = limit_of(hold);
            StreamForm::Relay { hold }
        }
        StreamWords::Quotes { hold } => {
            let hold = limit_of(hold);
            StreamForm::Quotes { hold }
        }
    }
}
