// The words of an entry.
ghost use Rattle.std.specs.Prelude.{◌≡◌, map, filter, IfOk};
ghost use Rattle.std.specs.List.{slice_split};
ghost use Rattle.plan_types.specs.Bytes.{is_blank};
ghost use Rattle.entry_text.specs.Words.{is_word, words};

use crate::name::is_blank;
use plan_types::NoMemory;
use std::alloc::{AllocError, Global};

/// The words of a text, separated by blanks.
pub fn words(alloc: Global, text: &[u8]) -> Result<Vec<&[u8]>, NoMemory>
    ensures { IfOk result (λ found. map (λ word. word.now) found.items ≡ words text.now) }
{
    let parts = between_blanks(alloc, text)?;
    only_words(alloc, parts.as_slice())
}

fn only_words<'a>(alloc: Global, parts: &[&'a [u8]]) -> Result<Vec<&'a [u8]>, NoMemory>
    ensures { IfOk result (λ found. map (λ word. word.now) found.items ≡ filter is_word
        (map (λ part. part.now) parts.now)) }
{
    let mut words = Vec::new(alloc);
    for part in parts {
        if is_word(part) {
            words.push(*part)?;
        }
    }
    Ok(words)
}

fn between_blanks(alloc: Global, text: &[u8]) -> Result<Vec<&[u8]>, AllocError>
    ensures { IfOk result (λ parts. map (λ part. part.now) parts.items ≡ slice_split is_blank text.now) }
{
    text.split(|byte| is_blank(*byte)).collect(alloc)
}

fn is_word(part: &[u8]) -> bool
    ensures { result ≡ is_word part.now }
{
    !part.is_empty()
}
