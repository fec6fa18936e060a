// `elements`, a text with `;` for the end of a line: its canonical text. `range`, the cabal-version and a text: the
// printed range. `cuts`, a range: whether it has a member, by its cuts. `chain`: so many versions joined by `||`.
use cabal_lexer::{print_elements, read_elements};
use plan_types::{List, NoMemory, Range, Spec, Version};
use std::alloc::Global;
use std::test::Fail;
use version_range::{Cuts, print_range, read_range};

pub const CASES: &str = "\
elements  => 
elements Name : x;\ty;flag F {;Default: True;}; => name: x;    y;flag F;  default: True;
elements \u{feff}cabal-version: 2.4\r;Name:x\r; => cabal-version: 2.4;name: x;
elements build-depends:;    base;  , text;;  -- not a value;  , bytes  ; => build-depends: base;    , text;    , bytes;
elements a: -- a value;-- a comment; => a: -- a value;
elements a: b;  };  {; => a: b;    };    {;
elements a:;  {;  b; => a:;    {;    b;
elements a: {;b: c;  {;};d: => a: b: c;    {;d:;
elements a:;b: c; => a:;b: c;
elements if(flag(x)){;a: b;    };else;  a: c => if (flag(x));  a: b;else;  a: c;
elements library {;  a;    b: c;      };d: e; => library;  a;    b: c;d: e;
elements author: J\u{f6}rg\r;  \u{1f600} => author: J\u{f6}rg;    \u{1f600};
elements a; b;  c; d;e; => a;  b;    c;  d;e;
elements a.b_c-1 x y\t ; => a.b_c-1 x y;
elements name: x;    y;flag F;  default: True; => name: x;    y;flag F;  default: True;
elements cabal-version: 2.4;name: x; => cabal-version: 2.4;name: x;
elements build-depends: base;    , text;    , bytes; => build-depends: base;    , text;    , bytes;
elements a: -- a value; => a: -- a value;
elements a: b;    };    {; => a: b;    };    {;
elements a:;    {;    b; => a:;    {;    b;
elements a: b: c;    {;d:; => a: b: c;    {;d:;
elements if (flag(x));  a: b;else;  a: c; => if (flag(x));  a: b;else;  a: c;
elements library;  a;    b: c;d: e; => library;  a;    b: c;d: e;
elements author: J\u{f6}rg;    \u{1f600}; => author: J\u{f6}rg;    \u{1f600};
elements a;  b;    c;  d;e; => a;  b;    c;  d;e;
elements a.b_c-1 x y; => a.b_c-1 x y;
range 3.0  => -any
range 3.0  \t => -any
range 3.0 -any => -any
range 3.0 -none => -none
range 3.0 ==1.2 => ==1.2
range 3.0 ==1.2.* => ==1.2.*
range 3.0 >=1.2 => >=1.2
range 3.0 > 1.2 => >1.2
range 3.0 <=\t1.2 => <=1.2
range 3.0 <1.2 => <1.2
range 3.0 ^>=999999999 => ^>=999999999
range 3.0 >=2&&<2.1 || ^>=1.2 => >=2 && <2.1 || ^>=1.2
range 3.0 >1&&>2&&>3 => >1 && >2 && >3
range 3.0 >1&&(>2&&>3) => >1 && (>2 && >3)
range 3.0 (>1||>2)&&>3 => (>1 || >2) && >3
range 3.0 (>1&&>2)||>3 => >1 && >2 || >3
range 3.0 ((>1)) => >1
range 3.0 =={1,2} => ==1 || ==2
range 3.4 ^>={1.2, 2} => ^>=1.2 || ^>=2
range 3.0 =={ 1 , 2.0 , 3} => ==1 || ==2.0 || ==3
range 3.0 ^>= {1} => ^>=1
range 2.4 >1 && ==2.* && (>3 && ==4.*) => >1 && ==2.* && (>3 && ==4.*)
range 2.4 >1 && ==2.* && (>3 || ==4.*) => >1 && ==2.* && (>3 || ==4.*)
range 2.4 >1 && ==2.* || >3 && ==4.* => >1 && ==2.* || >3 && ==4.*
range 2.4 >1 && ==2.* || (>3 || ==4.*) => >1 && ==2.* || (>3 || ==4.*)
range 2.4 (>1 || ==2.*) && (>3 && ==4.*) => (>1 || ==2.*) && (>3 && ==4.*)
range 2.4 (>1 || ==2.*) && (>3 || ==4.*) => (>1 || ==2.*) && (>3 || ==4.*)
range 2.4 >1 || ==2.* || >3 && ==4.* => >1 || ==2.* || >3 && ==4.*
range 2.4 >1 || ==2.* || (>3 || ==4.*) => >1 || ==2.* || (>3 || ==4.*)
range 2.4 ((((((((((((((((((((((((((((((((((((((((((((((((((((((((((((((((>=1)))))))))))))))))))))))))))))))))))))))))))))))))))))))))))))))) => >=1
cuts ==1.0 => some
cuts ==1.2.* => some
cuts >=1.2 => some
cuts >1.2 => some
cuts <=1.2 => some
cuts <1.2 => some
cuts ^>=1 => some
cuts ^>=1.2.3 => some
cuts >=2&&<2.1 || ^>=1.2 => some
cuts >1.0 && <1.0.0 => empty
cuts >=1.0.0 && <1.0.0 => empty
cuts -none => empty
cuts <0 => empty
cuts -any => some
cuts >=1.0 && <1.0.0 => some
chain 10000 => 10000 of 10001 members, printed alike
";

fn elements(alloc: Global, text: &str) -> Result<String, Fail> {
    let lines = text.replace(alloc, ";", "\n")?;
    let bytes = lines.as_bytes();
    if bytes.len() > 1_048_576 {
        return Ok(String::new(alloc));
    }
    let Ok(items) = read_elements(alloc, bytes) else {
        return Ok(String::new(alloc));
    };
    let text = print_elements(alloc, &items)?;
    Ok(text.as_str().replace(alloc, "\n", ";")?)
}

fn range(alloc: Global, case: &str) -> Result<String, Fail> {
    let (word, text) = case.split_once(' ').ok_or("no text")?;
    let spec = match word {
        "2.4" => Spec::V2_4,
        "3.0" => Spec::V3_0,
        _ => Spec::V3_4,
    };
    let range = read_range(alloc, text.as_bytes(), spec)?;
    let text = print_range(alloc, &range)?;
    Ok(String::from_str(alloc, text.as_str())?)
}

fn cuts(alloc: Global, text: &str) -> Result<String, Fail> {
    let range = read_range(alloc, text.as_bytes(), Spec::V3_0)?;
    let cuts = Cuts::of(alloc, &range)?;
    let word = if cuts.is_empty() { "empty" } else { "some" };
    Ok(String::from_str(alloc, word)?)
}

fn number(alloc: Global, n: u32) -> Result<Version, NoMemory> {
    let mut parts = List::new(alloc);
    parts.push(n)?;
    Ok(Version { parts })
}

fn one_of_the_first(alloc: Global, count: u32) -> Result<String, Fail> {
    let mut text = String::from_str(alloc, "-none")?;
    for n in 0..count {
        write!(&mut text, " || =={n}")?;
    }
    Ok(text)
}

fn count_members(alloc: Global, cuts: &Cuts, most: u32) -> Result<u32, NoMemory> {
    let mut count = 0u32;
    for n in 0..=most {
        if cuts.has(&number(alloc, n)?) {
            count = count.saturating_add(1);
        }
    }
    Ok(count)
}

fn is_printed(alloc: Global, range: &Range, text: &str) -> Result<bool, NoMemory> {
    Ok(print_range(alloc, range)?.as_str() == text)
}

// Recursion for each operator would run out of stack at some length, and a linear search of the cuts would take long.
fn chain(alloc: Global, length: &str) -> Result<String, Fail> {
    let length = length.parse::<u32>()?;
    let text = one_of_the_first(alloc, length)?;
    let range = read_range(alloc, text.as_bytes(), Spec::V3_0)?;
    let cuts = Cuts::of(alloc, &range)?;
    let count = count_members(alloc, &cuts, length)?;
    let alike = if is_printed(alloc, &range, text.as_str())? {
        "alike"
    } else {
        "otherwise"
    };
    let asked = u64::from(length) + 1;
    Ok(format!(in alloc; "{count} of {asked} members, printed {alike}")?)
}

pub fn answer(alloc: Global, case: &str) -> Result<String, Fail> {
    let (call, rest) = case.split_once(' ').ok_or("no case")?;
    match call {
        "elements" => elements(alloc, rest),
        "range" => range(alloc, rest),
        "cuts" => cuts(alloc, rest),
        _ => chain(alloc, rest),
    }
}
