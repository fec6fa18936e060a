// Required bytes, and the fault if they are missing.
ghost use Rattle.std.specs.Prelude.{◌≡◌, ◌<◌, length, IfOk};
ghost use Rattle.plan_types.specs.declared.refusal.TextFault.TheVariants.{Bad};
ghost use Rattle.text_grammar.specs.Reading.{Gives};
ghost use Rattle.version_range.specs.Read.{byte_due, cause_at};

use plan_types::{Cause, Spec, TextFault};
use text_grammar::{begins_with, byte_after};

/// The fault at the first byte of the rest. In 2.4 a brace needs a later version.
pub fn fault_at(spec: Spec, cause: Cause, rest: &[u8]) -> TextFault
    ensures { result ≡ Bad (cause_at spec cause rest.now) }
{
    if spec.is_old() && begins_with(rest, b'{') {
        TextFault::Bad(Cause::NeedsVersion)
    } else {
        TextFault::Bad(cause)
    }
}

/// The rest after a required byte.
pub fn byte_due(spec: Spec, text: &[u8], byte: u8) -> Result<&[u8], TextFault>
    ensures gives { Gives (λ rest. rest.now) result (byte_due spec byte text.now) }
    ensures within { IfOk result (λ rest. length rest.now < length text.now) }
{
    match byte_after(text, byte) {
        None => Err(fault_at(spec, Cause::BadRange, text)),
        Some(rest) => Ok(rest),
    }
}
