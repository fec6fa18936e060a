// A value as a line.
ghost use Rattle.std.specs.Prelude.{◌≡◌, IfOk};
ghost use Rattle.serde_json.specs.View.{view};
ghost use Rattle.serde_json.specs.Written.{compact_text};
ghost use Rattle.plan_json.specs.Line.{IsPlain, ReadsAs};
ghost use Rattle.plan_json.specs.Texts.{line};

use plan_types::{NoMemory, Text};
use serde_json::Value;
use std::alloc::Global;

/// The compact text of a value, without blanks, and a line feed.
pub fn line_of(alloc: Global, value: &Value) -> Result<Text, NoMemory>
    requires { IsPlain (view value.now) }
    ensures text { IfOk result (λ text. text ≡ line (compact_text (view value.now))) }
    ensures reads { IfOk result (ReadsAs (view value.now)) }
{
    let mut line = Text::from_string(value.to_string(alloc)?);
    line.push_str("\n")?;
    Ok(line)
}
