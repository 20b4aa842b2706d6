// The library itself: its version, and what its refusals say.
ghost use Rattle.std.specs.Prelude.{◌≡◌};
ghost use Rattle.messages.specs.Messages.{refusal_message};
ghost use Rattle.c_api.specs.Calls.{numbered, version};

use crate::numbers::{byte, number_of};

// The version: 1,000,000 for each major version, 1,000 for each minor one and 1 for each patch. The file VERSION
// has it as text.
pub fn winnathey_version() -> i64
    ensures { result ≡ version }
{
    1_000_000
}

// The message of a refusal, written to the front of `out`. Returns its length, which is 0 for a number that is no
// refusal. Refusal 14.
pub fn winnathey_refusal_message(refusal: u32, out: &mut [u8]) -> i64
    ensures { (result, out.new) ≡ numbered (refusal_message refusal out.old) }
{
    number_of(messages::refusal_message(byte(refusal), out))
}
