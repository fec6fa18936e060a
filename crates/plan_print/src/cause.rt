// The words of causes.
ghost use Rattle.std.specs.Prelude.{◌≡◌};
ghost use Rattle.plan_print.specs.Cause.{cause_name};

use plan_types::Cause;

pub fn cause_name(cause: Cause) -> &'static str
    ensures { result.now ≡ cause_name cause }
{
    match cause {
        Cause::NotUtf8 => "NotUtf8",
        Cause::StrayBrace => "StrayBrace",
        Cause::UnclosedBrace => "UnclosedBrace",
        Cause::BadName => "BadName",
        Cause::TooDeep => "TooDeep",
        Cause::BadVersion => "BadVersion",
        Cause::BadRange => "BadRange",
        Cause::NeedsVersion => "NeedsVersion",
        Cause::BadCond => "BadCond",
        Cause::BadDepend => "BadDepend",
        Cause::BadConstraint => "BadConstraint",
        Cause::MissingField => "MissingField",
        Cause::WrongCabalVersion => "WrongCabalVersion",
        Cause::BadField => "BadField",
        Cause::DuplicateName => "DuplicateName",
        Cause::UnknownStanza => "UnknownStanza",
        Cause::UnknownFlag => "UnknownFlag",
        Cause::ImportNotFirst => "ImportNotFirst",
        Cause::ElseWithoutIf => "ElseWithoutIf",
        Cause::UnknownComponent => "UnknownComponent",
        Cause::ComponentCycle => "ComponentCycle",
        Cause::TooManyPaths => "TooManyPaths",
        Cause::Unsupported => "Unsupported",
        Cause::NoMatch => "NoMatch",
        Cause::TwoCabalFiles => "TwoCabalFiles",
        Cause::NoPackages => "NoPackages",
        Cause::TooLarge => "TooLarge",
        Cause::WrongPlace => "WrongPlace",
        Cause::BadRecord => "BadRecord",
        Cause::DuplicateLocal => "DuplicateLocal",
        Cause::DuplicateUnit => "DuplicateUnit",
        Cause::TooMany => "TooMany",
        Cause::BadEvent => "BadEvent",
    }
}
