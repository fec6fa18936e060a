//! Tables made once from an index and a project, so that a choice filters nothing. In go packages, the numbers of
//! their names, the project and its constraints. Out come the order in which the instances of each package are tried,
//! the dependencies of each instance, and the defaults of its flags. Names are numbers there, and a dependency lists
//! the places of the instances that it allows. Its range is relaxed as the project sets.
#![tactic(auto)]

mod blocks;
mod defaults;
mod dependencies;
mod inside_places;
mod laws;
mod offers;
mod orders;
mod place_runs;
mod places;
mod preferred;
mod range_bounds;
mod sources;
mod tables;
mod units;

pub use defaults::Defaults;
pub use dependencies::{ConditionalDep, Dependencies, Setting, Target, UnitNeed};
pub use laws::relaxed_ranges;
pub use offers::allowed_in;
pub use place_runs::PlaceRuns;
pub use places::{flag_number, is_local, number, rising};
pub use tables::Tables;
