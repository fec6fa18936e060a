// The entries of a text: `constraints`, `named` (of `extra-packages` or `preferences`), `relax` (of `allow-newer` or
// `allow-older`), and `tools` with the cabal-version (of `build-tool-depends`). The answer is each entry, or the cause.
use constraint_text::{read_constraints, read_named, read_relax};
use depend_text::read_tools;
use plan_types::{
    Constraint, Dep, FlagSet, Named, Range, Relax, RelaxOwner, Scope, Spec, TextFault, Version,
    What,
};
use std::alloc::Global;
use std::test::Fail;
use version_range::print_range;

pub const CASES: &str = "\
constraints  => 
constraints text <2 => top text <2;
constraints text => top text -any;
constraints any.text installed => any text installed;
constraints setup.text source => setup text source;
constraints app:setup.text >=1 && <2 => setup of app text >=1 && <2;
constraints text +fast -Old => top text flags +fast -old;
constraints x+f => top x flags +f;
constraints x -any -f => top x flags -any -f;
constraints x -any && >=1 => top x -any && >=1;
constraints app test, any.app bench => top app tests; any app benches;
constraints a,,b => BadConstraint
constraints *:* => BadConstraint
named text, bytes >=1 && <2 => text -any; bytes >=1 && <2;
named text installed => BadConstraint
relax dep => any: dep;
relax pkg:dep, other => pkg: dep; any: other;
relax pkg-1.2:dep => pkg 1.2: dep;
relax *:dep => any: dep;
relax pkg:* => pkg: all;
relax all => any: all;
relax * => any: all;
relax True => any: all;
relax none => 
relax False, dep => any: dep;
relax *:* => BadConstraint
tools 3.0 alex:alex => alex:alex -any at 3;
tools 3.0 happy:run >=1.2, own:x =={1} => happy:run >=1.2 at 3; own:x ==1 at 3;
tools 2.4 own:x =={1} => NeedsVersion
tools 3.0 foo :x => BadDepend
";

fn push_range(alloc: Global, shown: &mut String, range: &Range) -> Result<(), Fail> {
    let text = print_range(alloc, range)?;
    write!(shown, " {}", text.as_str())?;
    Ok(())
}

fn push_flags(shown: &mut String, flags: &[FlagSet]) -> Result<(), Fail> {
    shown.push_str(" flags")?;
    for flag in flags {
        let sign = if flag.on { "+" } else { "-" };
        write!(shown, " {sign}{}", flag.name.as_str())?;
    }
    Ok(())
}

fn push_scope(shown: &mut String, scope: &Scope) -> Result<(), Fail> {
    match scope {
        Scope::Top => shown.push_str("top")?,
        Scope::Any => shown.push_str("any")?,
        Scope::Setup => shown.push_str("setup")?,
        Scope::SetupOf(package) => write!(shown, "setup of {}", package.as_str())?,
    }
    Ok(())
}

fn push_constraint(alloc: Global, shown: &mut String, it: &Constraint) -> Result<(), Fail> {
    push_scope(shown, &it.scope)?;
    write!(shown, " {}", it.package.as_str())?;
    match &it.what {
        What::Range(range) => push_range(alloc, shown, range)?,
        What::Installed => shown.push_str(" installed")?,
        What::Source => shown.push_str(" source")?,
        What::Flags(flags) => push_flags(shown, flags.as_slice())?,
        What::Tests => shown.push_str(" tests")?,
        What::Benches => shown.push_str(" benches")?,
    }
    Ok(())
}

fn push_named(alloc: Global, shown: &mut String, it: &Named) -> Result<(), Fail> {
    shown.push_str(it.name.as_str())?;
    push_range(alloc, shown, &it.range)
}

fn push_version(shown: &mut String, version: &Version) -> Result<(), Fail> {
    let mut sign = " ";
    for part in version.parts.as_slice() {
        write!(shown, "{sign}{part}")?;
        sign = ".";
    }
    Ok(())
}

fn push_relax(shown: &mut String, it: &Relax) -> Result<(), Fail> {
    match &it.owner {
        RelaxOwner::Any => shown.push_str("any")?,
        RelaxOwner::Package(name) => shown.push_str(name.as_str())?,
        RelaxOwner::Release(name, version) => {
            shown.push_str(name.as_str())?;
            push_version(shown, version)?;
        }
    }
    match &it.dep {
        Some(name) => write!(shown, ": {}", name.as_str())?,
        None => shown.push_str(": all")?,
    }
    Ok(())
}

fn push_tool(alloc: Global, shown: &mut String, it: &Dep) -> Result<(), Fail> {
    write!(shown, "{}:{}", it.package.as_str(), it.exe.as_str())?;
    push_range(alloc, shown, &it.range)?;
    write!(shown, " at {}", it.line)?;
    Ok(())
}

fn constraints(alloc: Global, shown: &mut String, text: &str) -> Result<(), Fail> {
    match read_constraints(alloc, text.as_bytes()) {
        Ok(found) => {
            for it in found.as_slice() {
                push_constraint(alloc, shown, it)?;
                shown.push_str("; ")?;
            }
            Ok(())
        }
        Err(why) => push_fault(shown, why),
    }
}

fn named(alloc: Global, shown: &mut String, text: &str) -> Result<(), Fail> {
    match read_named(alloc, text.as_bytes()) {
        Ok(found) => {
            for it in found.as_slice() {
                push_named(alloc, shown, it)?;
                shown.push_str("; ")?;
            }
            Ok(())
        }
        Err(why) => push_fault(shown, why),
    }
}

fn relax(alloc: Global, shown: &mut String, text: &str) -> Result<(), Fail> {
    match read_relax(alloc, text.as_bytes()) {
        Ok(found) => {
            for it in found.as_slice() {
                push_relax(shown, it)?;
                shown.push_str("; ")?;
            }
            Ok(())
        }
        Err(why) => push_fault(shown, why),
    }
}

fn tools(alloc: Global, shown: &mut String, case: &str) -> Result<(), Fail> {
    let (word, text) = case.split_once(' ').ok_or("no text")?;
    let spec = if word == "2.4" {
        Spec::V2_4
    } else {
        Spec::V3_0
    };
    match read_tools(alloc, text.as_bytes(), 3, spec) {
        Ok(found) => {
            for it in found.as_slice() {
                push_tool(alloc, shown, it)?;
                shown.push_str("; ")?;
            }
            Ok(())
        }
        Err(why) => push_fault(shown, why),
    }
}

fn push_fault(shown: &mut String, why: TextFault) -> Result<(), Fail> {
    match why {
        TextFault::NoMemory => Err("out of memory".into()),
        TextFault::Bad(cause) => {
            write!(shown, "{cause:?}")?;
            Ok(())
        }
    }
}

pub fn answer(alloc: Global, case: &str) -> Result<String, Fail> {
    let (call, rest) = case.split_once(' ').ok_or("no text")?;
    let mut shown = String::new(alloc);
    match call {
        "constraints" => constraints(alloc, &mut shown, rest)?,
        "named" => named(alloc, &mut shown, rest)?,
        "relax" => relax(alloc, &mut shown, rest)?,
        _ => tools(alloc, &mut shown, rest)?,
    }
    Ok(String::from_str(alloc, shown.as_str().trim_end())?)
}
