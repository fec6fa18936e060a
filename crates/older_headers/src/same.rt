// Elements that differ in their line numbers alone.
ghost use Rattle.std.specs.Prelude.{◌≡◌};
ghost use Rattle.std.specs.Bool.{Decides};
ghost use Rattle.plan_types.specs.declared.element.Element.{Element as TheElement, fold-Element};
ghost use Rattle.cabal_lexer.specs.RoundTrip.{unnumbered, zero_layer};

use plan_types::{Element, List, Text};

/// Whether two lists of elements are equal but for the numbers of lines.
#[cycle(same)]
pub(crate) fn are_same(one: &[Element], other: &[Element]) -> bool
    ensures { Decides result (unnumbered one.now ≡ unnumbered other.now) }
{
    let mut rest = other;
    for first in one {
        match rest {
            [] => return false,
            [second, more @ ..] => {
                if !is_same(first, second) {
                    return false;
                }
                rest = more;
            }
        }
    }
    rest.is_empty()
}

/// Whether two elements are equal but for the numbers of lines.
#[cycle(same)]
fn is_same(one: &Element, other: &Element) -> bool
    ensures { Decides result (fold-Element TheElement zero_layer one.now ≡ fold-Element TheElement zero_layer other.now) }
{
    match one {
        Element::Field {
            line: _,
            name,
            values,
        } => match other {
            Element::Field {
                line: _,
                name: other_name,
                values: other_values,
            } => are_fields_equal(name, other_name, values, other_values),
            Element::Section {
                line: _,
                name: _,
                args: _,
                items: _,
            } => false,
        },
        Element::Section {
            line: _,
            name,
            args,
            items,
        } => match other {
            Element::Field {
                line: _,
                name: _,
                values: _,
            } => false,
            Element::Section {
                line: _,
                name: other_name,
                args: other_args,
                items: other_items,
            } => {
                if !are_heads_equal(name, other_name, args, other_args) {
                    return false;
                }
                are_same(items.as_slice(), other_items.as_slice())
            }
        },
    }
}

fn are_fields_equal(name: &Text, other: &Text, values: &List<Text>, others: &List<Text>) -> bool
    ensures { Decides result ((name.now ≡ other.now) × (values.now ≡ others.now)) }
{
    if name != other {
        return false;
    }
    are_texts_equal(values, others)
}

fn are_texts_equal(values: &List<Text>, others: &List<Text>) -> bool
    ensures { Decides result (values.now ≡ others.now) }
{
    values == others
}

fn are_heads_equal(name: &Text, other: &Text, args: &Text, other_args: &Text) -> bool
    ensures { Decides result ((name.now ≡ other.now) × (args.now ≡ other_args.now)) }
{
    name == other && args == other_args
}
