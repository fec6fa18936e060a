// The components that other packages may use.

ghost use Rattle.std.specs.Prelude.{◌≡◌, ◌++◌, [], not, IfOk, OnOk};
ghost use Rattle.flatten.specs.Exposure.{exposed, is_unbuildable, lib_named, libs_of, exes_of};

use conditionals::{Tri, eval};
use plan_types::{
    CompKind, Component, Description, Env, Exposed, FlagSet, LibName, List, NoMemory, Text,
};
use std::alloc::Global;

/// The libraries and the executables that others may use, each in file order.
pub fn exposed(alloc: Global, d: &Description, env: &Env) -> Result<Exposed, NoMemory>
    ensures { IfOk result (λ offer. offer ≡ exposed env.now d.now) }
{
    let mut libs = List::new(alloc);
    let mut exes = List::new(alloc);
    let unset = List::new(alloc);
    for component in d.components.as_slice() {
        if !is_unbuildable(component, env, &unset) {
            push_libs(&mut libs, component)?;
            push_exes(&mut exes, component)?;
        }
    }
    Ok(Exposed { libs, exes })
}

fn is_unbuildable(component: &Component, env: &Env, unset: &List<FlagSet>) -> bool
    requires { unset.now ≡ [] }
    ensures { result ≡ is_unbuildable env.now component.now }
{
    match eval(component.build.buildable(), env, unset) {
        Tri::Yes => false,
        Tri::No => true,
        Tri::Unknown => false,
    }
}

fn push_libs(libs: &mut List<LibName>, component: &Component) -> Result<(), NoMemory>
    ensures { OnOk result (libs.new
        ≡ libs.old ++ libs_of component.now.kind component.now.name component.now.public) }
{
    match component.kind {
        CompKind::Library => push_library(libs, &component.name, component.public),
        CompKind::Executable => Ok(()),
        CompKind::Test => Ok(()),
        CompKind::Bench => Ok(()),
        CompKind::Foreign => Ok(()),
    }
}

fn push_library(libs: &mut List<LibName>, name: &Text, public: bool) -> Result<(), NoMemory>
    ensures { OnOk result (libs.new ≡ libs.old ++ lib_named name.now public) }
{
    match name.as_bytes() {
        [] => libs.push(LibName::Main),
        [_, ..] => {
            if public {
                libs.push(LibName::Named(name.copy()?))?;
            }
            Ok(())
        }
    }
}

fn push_exes(exes: &mut List<Text>, component: &Component) -> Result<(), NoMemory>
    ensures { OnOk result (exes.new ≡ exes.old ++ exes_of component.now.kind component.now.name) }
{
    match component.kind {
        CompKind::Executable => exes.push(component.name.copy()?),
        CompKind::Library => Ok(()),
        CompKind::Test => Ok(()),
        CompKind::Bench => Ok(()),
        CompKind::Foreign => Ok(()),
    }
}
