// The options, their kinds and their names.
ghost use Rattle.std.specs.Prelude.{◌≡◌, drop};
ghost use Rattle.command_line.specs.OptionName.{gives, kind_of, name_of, prefix_of, value_in};

/// An option of the command line.
#[derive(Clone, Copy, Debug, PartialEq, Eq)]
pub enum OptionName {
    Index,
    Installed,
    Os,
    Arch,
    Compiler,
    MaxBackjumps,
    Number,
    Events,
    Slots,
    Json,
    CountConflicts,
    MinimizeConflictSet,
}

/// What the word of an option has.
#[derive(Clone, Copy, Debug, PartialEq, Eq)]
pub enum OptionKind {
    /// Its name and a value.
    Valued,
    /// Its name alone.
    Flag,
}

/// The option's kind.
pub fn kind_of(option: OptionName) -> OptionKind
    ensures { result ≡ kind_of option }
{
    match option {
        OptionName::Index => OptionKind::Valued,
        OptionName::Installed => OptionKind::Valued,
        OptionName::Os => OptionKind::Valued,
        OptionName::Arch => OptionKind::Valued,
        OptionName::Compiler => OptionKind::Valued,
        OptionName::MaxBackjumps => OptionKind::Valued,
        OptionName::Number => OptionKind::Valued,
        OptionName::Events => OptionKind::Valued,
        OptionName::Slots => OptionKind::Valued,
        OptionName::Json => OptionKind::Flag,
        OptionName::CountConflicts => OptionKind::Flag,
        OptionName::MinimizeConflictSet => OptionKind::Flag,
    }
}

/// The option's name, without the dashes.
pub fn name_of<'a>(option: OptionName) -> &'a str
    ensures { result.now ≡ name_of option }
{
    match option {
        OptionName::Index => "index",
        OptionName::Installed => "installed",
        OptionName::Os => "os",
        OptionName::Arch => "arch",
        OptionName::Compiler => "compiler",
        OptionName::MaxBackjumps => "max-backjumps",
        OptionName::Number => "number",
        OptionName::Events => "events",
        OptionName::Slots => "slots",
        OptionName::Json => "json",
        OptionName::CountConflicts => "count-conflicts",
        OptionName::MinimizeConflictSet => "minimize-conflict-set",
    }
}

/// Whether a word gives the option: with a value after it, or a flag by itself.
pub fn gives(option: OptionName, word: &[u8]) -> bool
    ensures { result ≡ gives option word.now }
{
    let prefix = prefix_of(option).as_bytes();
    match kind_of(option) {
        OptionKind::Valued => word.starts_with(prefix),
        OptionKind::Flag => word == prefix,
    }
}

/// The value that a word gives the option.
pub fn value_in(option: OptionName, word: &[u8]) -> &[u8]
    ensures { result.now ≡ value_in option word.now }
{
    behind(word, prefix_of(option).len())
}

// The part of the word before the value.
fn prefix_of(option: OptionName) -> &'static str
    ensures { result.now ≡ prefix_of option }
{
    match option {
        OptionName::Index => "--index=",
        OptionName::Installed => "--installed=",
        OptionName::Os => "--os=",
        OptionName::Arch => "--arch=",
        OptionName::Compiler => "--compiler=",
        OptionName::MaxBackjumps => "--max-backjumps=",
        OptionName::Number => "--number=",
        OptionName::Events => "--events=",
        OptionName::Slots => "--slots=",
        OptionName::Json => "--json",
        OptionName::CountConflicts => "--count-conflicts",
        OptionName::MinimizeConflictSet => "--minimize-conflict-set",
    }
}

fn behind(word: &[u8], count: usize) -> &[u8]
    ensures { result.now ≡ drop count word.now }
{
    match word.get(count..) {
        Some(rest) => rest,
        None => &[],
    }
}
