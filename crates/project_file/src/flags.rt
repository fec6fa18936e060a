// The flags of a `package` section.
ghost use Rattle.std.specs.Prelude.{◌≡◌, ◌≢◌, ◌<◌, ◌∷◌, ℕ, List, IfOk, MatchOption};
ghost use Rattle.project_file.specs.Flags.{flag_of, flag_sets, flags_in, named_flag};

use plan_types::{FlagSet, List, NoMemory, Text, is_flag_name};
use std::alloc::Global;
use text_grammar::{Between, words};

/// The flags of a text, separated by spaces; none if one is ill-formed.
pub(crate) fn flags_in(alloc: Global, text: &Text) -> Result<Option<List<FlagSet>>, NoMemory>
    ensures { IfOk result (λ found. found ≡ flags_in text.now) }
{
    let words = words(alloc, Between::Spaces, text.as_str())?;
    flag_sets(alloc, words.as_slice())
}

fn flag_sets(alloc: Global, words: &[Text]) -> Result<Option<List<FlagSet>>, NoMemory>
    ensures { IfOk result (λ found. found ≡ flag_sets words.now) }
{
    let mut flags = List::new(alloc);
    for word in words {
        let Some(flag) = flag_of(alloc, word.as_str())? else {
            return Ok(None);
        };
        flags.push(flag)?;
    }
    Ok(Some(flags))
}

fn flag_of(alloc: Global, word: &str) -> Result<Option<FlagSet>, NoMemory>
    ensures { IfOk result (λ found. found ≡ flag_of word.now) }
{
    match behind(word, '+') {
        Some(name) => named_flag(alloc, name, true),
        None => match behind(word, '-') {
            Some(name) => named_flag(alloc, name, false),
            None => named_flag(alloc, word, true),
        },
    }
}

// The rest after this sign.
fn behind(word: &str, sign: char) -> Option<&str>
    requires { sign < 128 }
    ensures { MatchOption result ((rest : List ℕ) → word.now ≢ sign ∷ rest)
        (λ rest. word.now ≡ sign ∷ rest.now) }
{
    word.strip_prefix(sign)
}

fn named_flag(alloc: Global, name: &str, on: bool) -> Result<Option<FlagSet>, NoMemory>
    ensures { IfOk result (λ found. found ≡ named_flag name.now on) }
{
    if !is_flag_name(name.as_bytes()) {
        return Ok(None);
    }
    let lower = name.to_ascii_lowercase(alloc)?;
    let name = Text::from_string(lower);
    Ok(Some(FlagSet { name, on }))
}
