// All tables of an index and a project.
ghost use Rattle.std.specs.Prelude.{◌≡◌, List, IfOk, true};
ghost use Rattle.plan_types.specs.declared.index.Package.{Package};
ghost use Rattle.qualified_goals.specs.Names.{NameTable};
ghost use Rattle.constraint_set.specs.Stands.{Represents};
ghost use Rattle.solver_index.specs.Defaults.{AreDefaults, declared_default};
ghost use Rattle.solver_index.specs.Dependencies.{all_dependencies};
ghost use Rattle.solver_index.specs.Blocks.{AllAreInBlocks};
ghost use Rattle.solver_index.specs.Orders.{AreOrders};
ghost use Rattle.solver_index.specs.Versions.{packages_have_versions};

use crate::defaults::{Defaults, default_at, defaults_of};
use crate::dependencies::Dependencies;
use crate::orders::orders_of;
use crate::sources::Sources;
use crate::units::units_of;
use constraint_set::Constraints;
use plan_types::{List, NoMemory, Package, Project, drop_fields};
use qualified_goals::Names;
use std::alloc::Global;

/// The tables of an index and a project.
#[derive(Debug)]
pub struct Tables {
    /// The instances of each package, the best first.
    pub orders: List<List<u64>>,
    /// What each instance depends on, by package and instance.
    pub dependencies: List<List<Dependencies>>,
    /// The defaults of flags, by package and instance.
    pub defaults: List<List<Defaults>>,
}

impl Drop for Tables {
    fn drop(self) {
        drop_fields!(self; orders, dependencies, defaults);
    }
}

impl Tables {
    /// The tables of some packages and a project, by the project's kept constraints.
    pub fn of(
        alloc: Global,
        packages: &[Package],
        project: &Project,
        names: &Names,
        constraints: &Constraints,
    ) -> Result<Tables, NoMemory>
        requires stands { Represents project.now names.now constraints.now }
        requires versions { packages_have_versions packages.now ≡ true }
        requires blocks { AllAreInBlocks packages.now }
        ensures orders { IfOk result (λ tables. AreOrders project.now packages.now tables.orders) }
        ensures dependencies { IfOk result
            (λ tables. tables.dependencies ≡ all_dependencies packages.now project.now names.now) }
        ensures defaults { IfOk result (λ tables. AreDefaults packages.now names.now tables.defaults) }
    {
        let orders = orders_of(alloc, packages, project)?;
        let units = units_of(alloc, packages)?;
        let sources = Sources {
            packages,
            project,
            names,
            constraints,
            units,
        };
        let dependencies = sources.dependencies(alloc)?;
        let defaults = defaults_of(alloc, packages, names)?;
        Ok(Tables {
            orders,
            dependencies,
            defaults,
        })
    }

    /// The default that an instance declares for a flag; off without a declaration.
    pub fn default_of(&self, p: u64, i: u64, f: u64) -> bool
        ensures { (packages : List Package) (names : NameTable) → AreDefaults packages names self.now.defaults
            → result ≡ declared_default packages names p i f }
    {
        default_at(self.defaults.as_slice(), p, i, f)
    }
}
