// Whole files, from text to text.

use crate::modern_elements;
use cabal_lexer::{print_elements, read_elements};
use plan_types::{Fault, Text};
use std::alloc::Global;
use std::test::Fail;

// A file, `=>`, and what it becomes; then the next after `#`.
const CASES: &str = "name: foo
version: 1.0
build-depends: base
exposed-modules: A
executable: bar
main-is: M.hs
=>
cabal-version: 2.4
build-type: Custom
name: foo
version: 1.0
library
  build-depends: base
  exposed-modules: A
executable bar
  build-depends: base
  main-is: M.hs
custom-setup
  setup-depends: base, Cabal >=1.0 && <1.25
#name: foo
version: 1.0
cabal-version: >= 1.8 && <3
build-type: Simple
executable a.b
  main-is: M.hs
executable a_b
  build-tools: happy >=1.19, gcc, a.b
  if flag(x)
    build-depends: x
  elif flag(y)
    build-depends: y
  else
    build-depends: z
=>
cabal-version: 2.4
name: foo
version: 1.0
build-type: Simple
executable a_b_
  main-is: M.hs
executable a_b
  build-tool-depends: happy:happy >=1.19
  if flag(x)
    build-depends: x
#cabal-version: 3.0
name: foo
version: 1.0
library
  build-tools: happy
=>
cabal-version: 3.0
name: foo
version: 1.0
library
  build-tools: happy
";

fn rewritten(alloc: Global, text: &str) -> Result<Text, Fault> {
    if text.len() > 1_048_576 {
        return Ok(Text::new(alloc));
    }
    let items = read_elements(alloc, text.as_bytes())?;
    let modern = modern_elements(alloc, &items)?;
    let printed = print_elements(alloc, &modern.items)?;
    Ok(printed)
}

#[test]
fn whole_files(rt: HostRuntime) -> Result<(), Fail> {
    for case in CASES.split('#') {
        let Some((before, after)) = case.split_once("=>\n") else {
            assert!(rt; false, "{case}");
            continue;
        };
        let printed = rewritten(rt.alloc(), before)?;
        assert_eq!(rt; printed.as_str(), after);
    }
    Ok(())
}
