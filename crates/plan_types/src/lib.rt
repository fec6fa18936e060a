//! The planner's data types: versions and ranges, conditions, descriptions, projects, indexes and refusals. The few
//! functions make equal copies, test names, decide the members of a range, and keep tables of shared conditions.
#![tactic(auto)]

mod condition;
mod conditions;
mod constraint;
mod dependency;
mod description;
mod drop_fields;
mod element;
mod guard;
mod index;
mod limit;
mod members;
mod name;
mod project;
mod range;
mod refusal;
mod version;

pub use condition::{Cond, Env, FlagSet};
pub use conditions::{Conditions, Row};
pub use constraint::{Constraint, Scope, What};
pub use dependency::{Dep, DepKind, LibName, Named, Relax, RelaxOwner};
pub use description::{BuildInfo, CompKind, Component, DepGroup, Description, FlagDecl};
pub use element::{Element, joined_text};
pub use fallible_values::{Boxed, List, NoMemory, Shared, Text};
pub use guard::Guard;
pub use index::{
    Body, Entry, Exposed, FlatDep, Index, Instance, Literal, Origin, Package, PartName, Places,
    Skipped, Source, UnitRecord, Warning,
};
pub use limit::Limit;
pub use name::{is_component_name, is_flag_name, is_package_name};
pub use project::{Project, ProjectEntry, Settings};
pub use range::{Range, Spec};
pub use refusal::{Cause, Fault, Halt, Refusal, TextFault};
pub use version::Version;
