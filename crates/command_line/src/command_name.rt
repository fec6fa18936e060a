// The commands: their words, the options that they take, and those that they need.
ghost use Rattle.std.specs.Prelude.{◌≡◌};
ghost use Rattle.command_line.specs.CommandName.{command_word, commands, needed_by, taken_by};

use crate::option_name::OptionName;

/// A command of the command line.
#[derive(Clone, Copy, Debug, PartialEq, Eq)]
pub enum CommandName {
    Plan,
    Generate,
    Freeze,
    Replay,
}

/// Every command of the command line.
pub fn commands() -> [CommandName; 4]
    ensures { result ≡ commands }
{
    [
        CommandName::Plan,
        CommandName::Generate,
        CommandName::Freeze,
        CommandName::Replay,
    ]
}

/// The word of a command.
pub fn command_word<'a>(command: CommandName) -> &'a str
    ensures { result.now ≡ command_word command }
{
    match command {
        CommandName::Plan => "plan",
        CommandName::Generate => "generate",
        CommandName::Freeze => "freeze",
        CommandName::Replay => "replay",
    }
}

/// The options that a command takes.
pub fn taken_by(command: CommandName) -> &'static [OptionName]
    ensures { result.now ≡ taken_by command }
{
    match command {
        CommandName::Plan => &[
            OptionName::Index,
            OptionName::Installed,
            OptionName::Os,
            OptionName::Arch,
            OptionName::Compiler,
            OptionName::MaxBackjumps,
            OptionName::Json,
            OptionName::CountConflicts,
            OptionName::MinimizeConflictSet,
        ],
        CommandName::Generate => &[OptionName::MaxBackjumps, OptionName::Number],
        CommandName::Freeze => &[
            OptionName::Index,
            OptionName::Installed,
            OptionName::Os,
            OptionName::Arch,
            OptionName::Compiler,
            OptionName::MaxBackjumps,
        ],
        CommandName::Replay => &[
            OptionName::Index,
            OptionName::Installed,
            OptionName::Os,
            OptionName::Arch,
            OptionName::Compiler,
            OptionName::MaxBackjumps,
            OptionName::Events,
            OptionName::Slots,
        ],
    }
}

/// The options that a command needs.
pub fn needed_by(command: CommandName) -> &'static [OptionName]
    ensures { result.now ≡ needed_by command }
{
    match command {
        CommandName::Plan => &[],
        CommandName::Generate => &[OptionName::Number],
        CommandName::Freeze => &[],
        CommandName::Replay => &[],
    }
}
