// The fields beside the sections, and the sections themselves.

ghost use Rattle.std.specs.Prelude.{◌≡◌, ◌++◌, List, Option, IfOk, OnOk};
ghost use Rattle.plan_types.specs.Bytes.{joined_text};
ghost use Rattle.section_syntax.specs.declared.part.Head.{Head};
ghost use Rattle.section_syntax.specs.declared.part.HeadField.{HeadField};
ghost use Rattle.section_syntax.specs.declared.part.Section.{Section};
ghost use Rattle.section_syntax.specs.File.{HeadSays, Says, IsFile, headed, section_name};
ghost use Rattle.cabal_lexer.specs.Tree.{Tree, in_front};
ghost use Rattle.section_syntax.specs.Words.{head_word};

use crate::items::{Inside, read_parts};
use crate::part::{File, Head, HeadField, Section, SectionKind};
use crate::words::{HeadWord, build_type, head_word, section_kind};
use plan_types::{Element, List, NoMemory, Spec, Text, joined_text};
use std::alloc::Global;
use text_grammar::package_name;
use version_range::version_of;

/// The fields and sections of a file, read by the rules of its cabal-version.
pub fn read_file(alloc: Global, spec: Spec, items: &[Element]) -> Result<File, NoMemory>
    ensures { IfOk result (IsFile spec items.now) }
{
    let mut heads = List::new(alloc);
    let mut sections = List::new(alloc);
    for item in items {
        read_top(alloc, spec, item, &mut heads, &mut sections)?;
    }
    Ok(File {
        spec,
        heads,
        sections,
    })
}

fn read_top(
    alloc: Global,
    spec: Spec,
    item: &Element,
    heads: &mut List<HeadField>,
    sections: &mut List<Section>,
) -> Result<(), NoMemory>
    ensures { OnOk result ((behind : Tree) (more : List HeadField) (others : List Section)
        → Says spec behind more others
        → (said : List HeadField) × (found : List Section) × Says spec (in_front item.now behind) said found
        × (heads.new ++ more ≡ heads.old ++ said) × (sections.new ++ others ≡ sections.old ++ found)) }
{
    match item {
        Element::Field { line, name, values } => {
            read_head(alloc, *line, name, values, heads)?;
        }
        Element::Section {
            line,
            name,
            args,
            items,
        } => match section_kind(name.as_str()) {
            Some(kind) => {
                let parts = read_parts(alloc, Inside { spec, kind }, items.as_slice())?;
                let name = section_name(alloc, kind, args)?;
                sections.push(Section {
                    line: *line,
                    kind,
                    name,
                    parts,
                })?;
            }
            None => {}
        },
    }
    Ok(())
}

fn read_head(
    alloc: Global,
    line: u32,
    name: &Text,
    values: &List<Text>,
    heads: &mut List<HeadField>,
) -> Result<(), NoMemory>
    ensures { OnOk result ((found : Option Head) × HeadSays (head_word name.now) (joined_text values.now) found
        × (heads.new ≡ heads.old ++ headed line found)) }
{
    let text = joined_text(alloc, values.as_slice())?;
    let head = head_said(alloc, head_word(name.as_str()), text)?;
    push_head(line, head, heads)
}

fn head_said(alloc: Global, word: HeadWord, text: Text) -> Result<Option<Head>, NoMemory>
    ensures { IfOk result (HeadSays word text) }
{
    match word {
        HeadWord::Name => Ok(Some(Head::Name(package_name(text)))),
        HeadWord::Version => Ok(Some(Head::Version(version_of(alloc, text.as_bytes())?))),
        HeadWord::BuildType => Ok(Some(Head::BuildType(build_type(text.as_bytes())))),
        HeadWord::Unread => Ok(None),
    }
}

fn push_head(line: u32, head: Option<Head>, heads: &mut List<HeadField>) -> Result<(), NoMemory>
    ensures { OnOk result (heads.new ≡ heads.old ++ headed line head) }
{
    match head {
        Some(head) => heads.push(HeadField { line, head }),
        None => Ok(()),
    }
}

fn section_name(alloc: Global, kind: SectionKind, args: &Text) -> Result<Text, NoMemory>
    ensures { IfOk result (λ name. name ≡ section_name kind args.now) }
{
    match kind {
        SectionKind::Component(_) | SectionKind::Common => args.copy(),
        SectionKind::Flag => {
            let mut name = args.copy()?;
            name.make_ascii_lowercase();
            Ok(name)
        }
        SectionKind::Setup => Ok(Text::new(alloc)),
    }
}
