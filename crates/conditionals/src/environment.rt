// Tests of the environment.
ghost use Rattle.std.specs.Prelude.{◌≡◌, IfOk};
ghost use Rattle.std.specs.Str.{str_to_ascii_lowercase, str_eq_ignore_ascii_case};
ghost use Rattle.conditionals.specs.Environment.{system_of, system_named, is_system, is_processor, is_compiler};

use plan_types::{Env, NoMemory, Range, Text};
use std::alloc::Global;

/// Whether the environment's system has this name, or an alias of it.
pub fn is_system(env: &Env, name: &Text) -> bool
    ensures { result ≡ is_system env.now name.now }
{
    let asked = system_named(name.as_str());
    let own = system_named(env.os.as_str());
    are_alike(asked, own)
}

/// Whether the environment's processor has this name.
pub fn is_processor(env: &Env, name: &Text) -> bool
    ensures { result ≡ is_processor env.now name.now }
{
    are_alike(name.as_str(), env.arch.as_str())
}

/// Whether the environment's compiler has this name, and a version in the range.
pub fn is_compiler(env: &Env, name: &Text, range: &Range) -> bool
    ensures { result ≡ is_compiler env.now name.now range.now }
{
    are_alike(name.as_str(), env.compiler.as_str()) && range.has(&env.compiler_version)
}

/// The usual name of an operating system, by which systems are compared.
pub fn system_of(alloc: Global, name: Text) -> Result<Text, NoMemory>
    ensures { IfOk result (λ text. text ≡ system_of name) }
{
    if name.as_str() == "mingw32" || name.as_str() == "win32" {
        return Text::from_str(alloc, "windows");
    }
    if name.as_str() == "darwin" {
        return Text::from_str(alloc, "osx");
    }
    Ok(name)
}

// The usual name of the system with this name, in any case.
fn system_named(name: &str) -> &str
    ensures { str_to_ascii_lowercase result.now ≡ system_named name.now }
{
    if are_alike(name, "mingw32") || are_alike(name, "win32") {
        return "windows";
    }
    if are_alike(name, "darwin") {
        return "osx";
    }
    name
}

fn are_alike(name: &str, other: &str) -> bool
    ensures { result ≡ str_eq_ignore_ascii_case name.now other.now }
{
    name.eq_ignore_ascii_case(other)
}
