// A file, with `;` for the end of a line: the canonical text of its tree, or its first fault.
use cabal_lexer::print_elements;
use call_driver::{CallTable, others};
use older_layout::read_older;
use plan_types::{Element, Fault, List};
use std::alloc::Global;
use std::test::Fail;

const CASES: &str = "\
Name : x;version:1;library {;  build-depends: base;}; => name: x;version: 1;library;  build-depends: base;
library { build-depends: base; }; => library;  build-depends: base;
flag F;{;  default: True;};library;{;  if flag(F) { a: b } else { c: d };  x: y;  -- no value;    z;}; => flag F;  default: True;library;  if flag(F);    a: b;  else;    c: d;  x: y;      z;
library {;  if os(windows) {;    a: b;  } else {;    c: d;  };};executable e { main-is: E.hs }; => library;  if os(windows);    a: b;  else;    c: d;executable e;  main-is: E.hs;
description: { one; two };name: { x }; => description: one;    two;name: x;
description: a;  f = do {;    g;  };  h { i };name: x; => description: a;    f = do {;    g;    };    h { i };name: x;
library;  if x -- why { not;    a: b;  else -- {;    c: d -- {; => library;  if x;    a: b;  else;    c: d -- {;
library;  if (x)-- {;    a: b --c; => library;  if (x);    a: b --c;
library;  if x;    a: b;    if y { } c: d;  e: f; => library;  if x;    a: b;    if y;    c: d;  e: f;
library;  if x {;    a: b;} c: d;  e: f; => library;  if x;    a: b;  c: d;      e: f;
library;{ build-depends: base,;    text;}; => library;  build-depends: base,;      text;
library { build-depends: base,;  text }; => library;  build-depends: base,;  text;
library { build-depends:;  base, text }a: b; => library;  build-depends: base, text;a: b;
name:;  { x };version:;  1; => name: x;version: 1;
a { b { c { } d: e } f: g }; => a;  b;    c;    d: e;  f: g;
a { };;;b {;-- c;}; => a;b;
if (a && (b)) {; x: --foo -- bar; y { z: --foo -- bar };}; => if (a && (b));  x: --foo -- bar;  y;    z: --foo -- bar;
a: b;  c;;    d; e; => a: b;    c;    d;    e;
\u{feff}a: \u{e9};  \u{a0};\u{a0}d: e; => a: \u{e9};    d: e;
{ a: b }; => BadName at 1
library { a: b; => UnclosedBrace at 1
a: b;}; => StrayBrace at 2
library { a: b { c: d } }; => BadName at 1
";

struct Trees;

impl CallTable for Trees {
    fn cases(&self) -> &'static str {
        CASES
    }

    fn answer(&self, alloc: Global, call: &str) -> Result<String, Fail> {
        let lines = call.replace(alloc, ";", "\n")?;
        answer(alloc, lines.as_bytes())
    }
}

fn answer(alloc: Global, bytes: &[u8]) -> Result<String, Fail> {
    if bytes.len() > 1_048_576 {
        return Ok(String::new(alloc));
    }
    match read_older(alloc, bytes) {
        Ok(items) => printed(alloc, &items),
        Err(Fault::NoMemory) => Ok(String::new(alloc)),
        Err(Fault::At { line, cause }) => Ok(format!(in alloc; "{cause:?} at {line}")?),
    }
}

fn printed(alloc: Global, items: &List<Element>) -> Result<String, Fail> {
    let text = print_elements(alloc, items)?;
    Ok(text.as_str().replace(alloc, "\n", ";")?)
}

#[test]
fn files_as_cabal_reads_them(rt: HostRuntime) -> Result<(), Fail> {
    assert_eq!(rt; others(rt.alloc(), &Trees)?.as_str(), "");
    Ok(())
}
