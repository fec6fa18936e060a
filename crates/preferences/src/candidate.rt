// Instances with what their order compares.
ghost use Rattle.std.specs.Prelude.{◌≡◌, length, IfOk, map, All};
ghost use Rattle.std.specs.List.{range_with_len};
ghost use Rattle.preferences.specs.Places.{is_preferred, is_installed, by_policy, installed_first};
ghost use Rattle.preferences.specs.Candidate.{candidate_cmp, IsFor};

use crate::Policy;
use plan_types::{Instance, NoMemory, Origin, Range};
use std::alloc::Global;
use std::cmp::Ordering;

/// An instance with what the order compares: whether it lies in the preferred ranges, and its place.
#[derive(Drop)]
pub(crate) struct Candidate<'a> {
    pub preferred: bool,
    pub instance: &'a Instance,
    pub place: u64,
}

pub(crate) fn candidates<'a>(
    alloc: Global,
    instances: &'a [Instance],
    preferred: &[Range],
) -> Result<Vec<Candidate<'a>>, NoMemory>
    ensures places { IfOk result (λ made. map (λ c. c.place) made.items ≡ range_with_len 0 (length instances.now)) }
    ensures each { IfOk result (λ made. All (IsFor preferred.now instances.now) made.items) }
{
    let mut made = Vec::new(alloc);
    for (place, instance) in instances.iter().enumerate() {
        made.push(Candidate {
            preferred: is_preferred(instance, preferred),
            instance,
            place: place as u64,
        })?;
    }
    Ok(made)
}

fn is_preferred(instance: &Instance, preferred: &[Range]) -> bool
    ensures { result ≡ is_preferred preferred.now instance.now }
{
    preferred.iter().all(|range| range.has(&instance.version))
}

pub(crate) fn compare(policy: Policy, a: &Candidate<'_>, b: &Candidate<'_>) -> Ordering
    ensures { result ≡ candidate_cmp policy a.now b.now }
{
    b.preferred
        .cmp(&a.preferred)
        .then(by_policy(policy, a.instance, b.instance))
        .then(a.instance.unit.cmp(&b.instance.unit))
        .then(a.place.cmp(&b.place))
}

fn by_policy(policy: Policy, a: &Instance, b: &Instance) -> Ordering
    ensures { result ≡ by_policy policy a.now b.now }
{
    match policy {
        Policy::Latest => b.version.compare(&a.version).then(installed_first(a, b)),
        Policy::Installed => installed_first(a, b).then(b.version.compare(&a.version)),
        Policy::Oldest => a.version.compare(&b.version).then(installed_first(a, b)),
    }
}

fn installed_first(a: &Instance, b: &Instance) -> Ordering
    ensures { result ≡ installed_first a.now b.now }
{
    is_installed(b.origin).cmp(&is_installed(a.origin))
}

fn is_installed(origin: Origin) -> bool
    ensures { result ≡ is_installed origin }
{
    match origin {
        Origin::Local => false,
        Origin::Source => false,
        Origin::Installed => true,
    }
}
