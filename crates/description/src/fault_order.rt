// The order of faults.

ghost use Rattle.std.specs.Prelude.{◌≡◌};
ghost use Rattle.plan_types.specs.declared.refusal.Fault.TheVariants.{At as fault_at};
ghost use Rattle.description.specs.FaultOrder.{earlier, is_before, rank};

use plan_types::{Cause, Fault};

/// A cause and its line.
#[derive(Clone, Copy, Debug, PartialEq, Eq)]
pub struct At {
    pub line: u32,
    pub cause: Cause,
}

impl At {
    /// By line, and on one line by the rank of the cause.
    fn is_before(self, other: At) -> bool
        ensures { result ≡ is_before self other }
    {
        self.line < other.line || (self.line == other.line && rank(self.cause) < rank(other.cause))
    }

    pub fn fault(self) -> Fault
        ensures { result ≡ fault_at self.line self.cause }
    {
        Fault::At {
            line: self.line,
            cause: self.cause,
        }
    }
}

/// The rank of a cause among the faults of one line.
fn rank(cause: Cause) -> u8
    ensures { result ≡ rank cause }
{
    match cause {
        Cause::NotUtf8 => 0,
        Cause::StrayBrace => 1,
        Cause::UnclosedBrace => 2,
        Cause::BadName => 3,
        Cause::TooDeep => 4,
        Cause::BadVersion => 5,
        Cause::BadRange => 6,
        Cause::NeedsVersion => 7,
        Cause::BadCond => 8,
        Cause::BadDepend => 9,
        Cause::BadConstraint => 10,
        Cause::MissingField => 11,
        Cause::WrongCabalVersion => 12,
        Cause::BadField => 13,
        Cause::DuplicateName => 14,
        Cause::UnknownStanza => 15,
        Cause::UnknownFlag => 16,
        Cause::ImportNotFirst => 17,
        Cause::ElseWithoutIf => 18,
        Cause::UnknownComponent => 19,
        Cause::ComponentCycle => 20,
        Cause::TooManyPaths => 21,
        Cause::Unsupported => 22,
        Cause::NoMatch => 23,
        Cause::TwoCabalFiles => 24,
        Cause::NoPackages => 25,
        Cause::TooLarge => 26,
        Cause::WrongPlace => 27,
        Cause::BadRecord => 28,
        Cause::DuplicateLocal => 29,
        Cause::DuplicateUnit => 30,
        Cause::TooMany => 31,
        Cause::BadEvent => 32,
    }
}

/// The earlier of two faults, or the only one.
pub fn earlier(one: Option<At>, other: Option<At>) -> Option<At>
    ensures { result ≡ earlier one other }
{
    match (one, other) {
        (Some(a), Some(b)) => { if b.is_before(a) { Some(b) } else { Some(a) } }
        (Some(a), None) => Some(a),
        (None, b) => b,
    }
}
