// The variables of an index.
ghost use Rattle.std.specs.Prelude.{◌≡◌, ◌&&◌, nat_lt, length};
ghost use Rattle.std.specs.List.{list_any};
ghost use Rattle.constraint_set.specs.Bars.{is_number};
ghost use Rattle.qualified_goals.specs.Names.{number_of};
ghost use Rattle.cabal_problem.specs.Values.{is_flag};
ghost use Rattle.cabal_problem.specs.Variables.{depends_on_tool, body_has_kind, component_depends, declares, domain_of, has_kind, is_benchmark, is_custom, is_known, is_part, is_qual, is_suite, is_tool, is_tool_of, is_top};
ghost use Rattle.plan_types.specs.Packages.{declared_by, package_at};

use plan_types::{
    Body, CompKind, Component, Dep, DepGroup, DepKind, Description, Entry, FlagDecl, Package, Text,
};
use qualified_goals::{Names, Part, Qual, Var};

pub(crate) fn is_known(packages: &[Package], names: &Names, v: Var) -> bool
    ensures { result ≡ is_known packages.now names.now v }
{
    is_qual(packages, names, v.qual) && has_part(packages, names, v)
}

pub(crate) fn domain_of(packages: &[Package], v: Var) -> u64
    ensures { result ≡ domain_of packages.now v.«package» v.part }
{
    match v.part {
        Part::Package => Package::entries_at(packages, v.package).len() as u64,
        Part::Flag(_) => 2,
        Part::Tests => 2,
        Part::Benches => 2,
    }
}

pub(crate) fn is_top(qual: Qual) -> bool
    ensures { result ≡ is_top qual }
{
    match qual {
        Qual::Top => true,
        Qual::Setup(_) => false,
        Qual::Exe(_, _) => false,
    }
}

fn is_qual(packages: &[Package], names: &Names, qual: Qual) -> bool
    ensures { result ≡ is_qual packages.now names.now qual }
{
    match qual {
        Qual::Top => true,
        Qual::Setup(p) => some_custom(Package::entries_at(packages, p)),
        Qual::Exe(p, t) => some_asks(names, t, Package::entries_at(packages, p)),
    }
}

fn some_custom(entries: &[Entry]) -> bool
    ensures { result ≡ list_any (λ e. is_custom e.body) entries.now }
{
    entries.iter().any(|e| is_custom(&e.body))
}

fn is_custom(body: &Body) -> bool
    ensures { result ≡ is_custom body.now }
{
    match body {
        Body::Source(source) => source.description.custom,
        Body::Installed { .. } => false,
    }
}

fn some_asks(names: &Names, t: u64, entries: &[Entry]) -> bool
    ensures { result ≡ list_any (λ e. depends_on_tool names.now t e.body) entries.now }
{
    entries.iter().any(|e| depends_on_tool(names, t, &e.body))
}

fn depends_on_tool(names: &Names, t: u64, body: &Body) -> bool
    ensures { result ≡ depends_on_tool names.now t body.now }
{
    match body {
        Body::Source(source) => some_component_asks(names, t, &source.description),
        Body::Installed { .. } => false,
    }
}

fn some_component_asks(names: &Names, t: u64, d: &Description) -> bool
    ensures { result ≡ list_any (component_depends names.now t) d.now.components }
{
    d.components
        .as_slice()
        .iter()
        .any(|component| component_depends(names, t, component))
}

fn component_depends(names: &Names, t: u64, component: &Component) -> bool
    ensures { result ≡ component_depends names.now t component.now }
{
    some_group_asks(names, t, component.build.groups())
}

fn some_group_asks(names: &Names, t: u64, groups: &[DepGroup]) -> bool
    ensures { result ≡ list_any (λ group. list_any (is_tool_of names.now t) group.deps) groups.now }
{
    groups.iter().any(|group| group_asks(names, t, group))
}

fn group_asks(names: &Names, t: u64, group: &DepGroup) -> bool
    ensures { result ≡ list_any (is_tool_of names.now t) group.now.deps }
{
    group
        .deps
        .as_slice()
        .iter()
        .any(|dep| is_tool_of(names, t, dep.get()))
}

fn is_tool_of(names: &Names, t: u64, dep: &Dep) -> bool
    ensures { result ≡ is_tool_of names.now t dep.now }
{
    !dep.internal && is_tool(dep.kind) && is_package(names, &dep.package, t)
}

fn is_tool(kind: DepKind) -> bool
    ensures { result ≡ is_tool kind }
{
    match kind {
        DepKind::Library => false,
        DepKind::Tool => true,
        DepKind::Setup => false,
    }
}

fn is_package(names: &Names, name: &Text, p: u64) -> bool
    ensures { result ≡ is_number (number_of names.now.packages name.now) p }
{
    match names.package(name) {
        Some(found) => found == p,
        None => false,
    }
}

fn has_part(packages: &[Package], names: &Names, v: Var) -> bool
    ensures { result ≡ (nat_lt v.«package» (length packages.now) && is_part names.now v.qual
        (package_at packages.now v.«package») v.part) }
{
    match packages.get(v.package as usize) {
        Some(found) => is_part(names, v.qual, found, v.part),
        None => false,
    }
}

fn is_part(names: &Names, qual: Qual, p: &Package, part: Part) -> bool
    ensures { result ≡ is_part names.now qual p.now part }
{
    match part {
        Part::Package => true,
        Part::Flag(f) => some_declares(names, f, p.entries.as_slice()),
        Part::Tests => is_top(qual) && p.local && some_suite(p.entries.as_slice()),
        Part::Benches => is_top(qual) && p.local && some_benchmark(p.entries.as_slice()),
    }
}

fn some_declares(names: &Names, f: u64, entries: &[Entry]) -> bool
    ensures { result ≡ list_any (λ e. declares names.now f e.body) entries.now }
{
    entries.iter().any(|e| declares(names, f, &e.body))
}

fn declares(names: &Names, f: u64, body: &Body) -> bool
    ensures { result ≡ declares names.now f body.now }
{
    body.declared_flags()
        .iter()
        .any(|decl| is_flag(names, f, decl))
}

pub(crate) fn is_flag(names: &Names, f: u64, decl: &FlagDecl) -> bool
    ensures { result ≡ is_flag names.now f decl.now }
{
    match names.flag(&decl.name) {
        Some(found) => found == f,
        None => false,
    }
}

fn some_suite(entries: &[Entry]) -> bool
    ensures { result ≡ list_any (λ e. body_has_kind is_suite e.body) entries.now }
{
    entries.iter().any(|e| body_has_suite(&e.body))
}

fn some_benchmark(entries: &[Entry]) -> bool
    ensures { result ≡ list_any (λ e. body_has_kind is_benchmark e.body) entries.now }
{
    entries.iter().any(|e| body_has_benchmark(&e.body))
}

fn body_has_suite(body: &Body) -> bool
    ensures { result ≡ body_has_kind is_suite body.now }
{
    match body {
        Body::Source(source) => has_suite(&source.description),
        Body::Installed { .. } => false,
    }
}

fn body_has_benchmark(body: &Body) -> bool
    ensures { result ≡ body_has_kind is_benchmark body.now }
{
    match body {
        Body::Source(source) => has_benchmark(&source.description),
        Body::Installed { .. } => false,
    }
}

pub(crate) fn has_suite(d: &Description) -> bool
    ensures { result ≡ has_kind is_suite d.now }
{
    let components = d.components.as_slice();
    components.iter().any(|component| is_suite(component.kind))
}

pub(crate) fn has_benchmark(d: &Description) -> bool
    ensures { result ≡ has_kind is_benchmark d.now }
{
    let components = d.components.as_slice();
    components
        .iter()
        .any(|component| is_benchmark(component.kind))
}

fn is_suite(kind: CompKind) -> bool
    ensures { result ≡ is_suite kind }
{
    match kind {
        CompKind::Test => true,
        CompKind::Library => false,
        CompKind::Executable => false,
        CompKind::Bench => false,
        CompKind::Foreign => false,
    }
}

fn is_benchmark(kind: CompKind) -> bool
    ensures { result ≡ is_benchmark kind }
{
    match kind {
        CompKind::Bench => true,
        CompKind::Library => false,
        CompKind::Executable => false,
        CompKind::Test => false,
        CompKind::Foreign => false,
    }
}
