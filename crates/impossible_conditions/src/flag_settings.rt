// The settings of flags that a condition requires.
ghost use Rattle.std.specs.Prelude.{◌≡◌, ◌↔◌, ◌∷◌, [], true, Some, IfOk, OnOk, IfSome, IsTrue};
ghost use Rattle.conditionals.specs.Paths.{holds};
ghost use Rattle.conditionals.specs.Value.{Flags};
ghost use Rattle.impossible_conditions.specs.FlagSettings.{AreSet, HaveEntries};

use plan_types::{FlagSet, List, NoMemory, Shared, Text, drop_fields};
use std::alloc::Global;
use std::collections::BTreeMap;

/// The most settings that a copy duplicates. The others are shared.
const MOST_RECENT: usize = 64;

/// Settings of flags. A copy shares most of them with its original.
pub struct FlagSettings {
    /// The earlier settings, in shared maps.
    shared: List<Shared<BTreeMap<Text, bool>>>,
    /// The settings that aren't in a shared map yet, at most 64.
    recent: List<FlagSet>,
}

impl Drop for FlagSettings {
    fn drop(self) {
        drop_fields!(self; shared, recent);
    }
}

impl FlagSettings {
    /// No settings.
    pub fn new(alloc: Global) -> FlagSettings
        ensures { (flags : Flags) → AreSet flags result }
    {
        FlagSettings {
            shared: List::new(alloc),
            recent: List::new(alloc),
        }
    }

    pub fn copy(&self, alloc: Global) -> Result<FlagSettings, NoMemory>
        ensures { IfOk result (λ copied. copied ≡ self.now) }
    {
        Ok(FlagSettings {
            shared: copied_maps(alloc, self.shared.as_slice())?,
            recent: copied_settings(alloc, self.recent.as_slice())?,
        })
    }

    /// Whether no settings are in shared maps, so that `recent` has them all.
    pub fn is_short(&self) -> bool
        ensures { IsTrue result ↔ (self.now.shared ≡ []) }
    {
        self.shared.is_empty()
    }

    /// The latest settings; all of them if `is_short`.
    pub fn recent(&self) -> &[FlagSet]
        ensures { result.now ≡ self.now.recent }
    {
        self.recent.as_slice()
    }

    /// The setting of a flag, if it has one.
    pub fn get(&self, name: &Text) -> Option<bool>
        ensures { IfSome result (λ on. (flags : Flags) → AreSet flags self.now → flags name.now ≡ Some on) }
    {
        match get_recent(self.recent.as_slice(), name) {
            Some(on) => Some(on),
            None => get_shared(self.shared.as_slice(), name),
        }
    }

    /// Whether these settings contradict none of the known ones.
    pub fn allows(&self, settings: &[FlagSet]) -> bool
        ensures { (flags : Flags) → AreSet flags self.now → holds flags settings.now ≡ true → IsTrue result }
    {
        for setting in settings {
            if let Some(on) = self.get(&setting.name) {
                if on != setting.on {
                    return false;
                }
            }
        }
        true
    }

    /// Adds settings. Returns false at the first that contradicts a known one.
    pub fn add(&mut self, alloc: Global, settings: &[FlagSet]) -> Result<bool, NoMemory>
        ensures learnt { OnOk result ((flags : Flags) → AreSet flags self.old → holds flags settings.now ≡ true
            → AreSet flags self.new) }
        ensures fits { IfOk result (λ fits. (flags : Flags) → AreSet flags self.old → holds flags settings.now ≡ true
            → IsTrue fits) }
    {
        for setting in settings {
            match self.get(&setting.name) {
                None => self.push(alloc, setting)?,
                Some(on) => {
                    if on != setting.on {
                        return Ok(false);
                    }
                }
            }
        }
        Ok(true)
    }

    fn push(&mut self, alloc: Global, setting: &FlagSet) -> Result<(), NoMemory>
        ensures { OnOk result ((flags : Flags) → AreSet flags self.old → flags setting.now.name ≡ Some setting.now.on
            → AreSet flags self.new) }
    {
        if self.recent.len() == MOST_RECENT {
            self.share(alloc)?;
        }
        self.recent.push(copied(setting)?)
    }

    // Moves the latest settings into a shared map, and merges the smaller maps into this one. So each map is larger
    // than the next, and there are few maps.
    fn share(&mut self, alloc: Global) -> Result<(), NoMemory>
        ensures { OnOk result ((flags : Flags) → AreSet flags self.old → AreSet flags self.new) }
    {
        let mut map = map_of(alloc, self.recent.as_slice())?;
        self.recent = List::new(alloc);
        while let Some(last) = self.shared.pop() {
            if map.len() < last.get().len() {
                self.shared.push(last)?;
                break;
            }
            add_all(&mut map, last.get())?;
        }
        self.shared.push(Shared::new(alloc, map)?)
    }
}

fn copied_maps(
    alloc: Global,
    maps: &[Shared<BTreeMap<Text, bool>>],
) -> Result<List<Shared<BTreeMap<Text, bool>>>, NoMemory>
    ensures { IfOk result (λ copied. copied ≡ maps.now) }
{
    let mut copied = List::new(alloc);
    for map in maps {
        copied.push(map.copy()?)?;
    }
    Ok(copied)
}

fn copied_settings(alloc: Global, settings: &[FlagSet]) -> Result<List<FlagSet>, NoMemory>
    ensures { IfOk result (λ copied. copied ≡ settings.now) }
{
    let mut all = List::new(alloc);
    for setting in settings {
        all.push(copied(setting)?)?;
    }
    Ok(all)
}

fn copied(setting: &FlagSet) -> Result<FlagSet, NoMemory>
    ensures { IfOk result (λ copied. copied ≡ setting.now) }
{
    Ok(FlagSet {
        name: setting.name.copy()?,
        on: setting.on,
    })
}

fn get_recent(recent: &[FlagSet], name: &Text) -> Option<bool>
    ensures { IfSome result (λ on. (flags : Flags) → holds flags recent.now ≡ true → flags name.now ≡ Some on) }
{
    for setting in recent {
        if setting.name == *name {
            return Some(setting.on);
        }
    }
    None
}

fn get_shared(shared: &[Shared<BTreeMap<Text, bool>>], name: &Text) -> Option<bool>
    ensures { IfSome result (λ on. (flags : Flags) → HaveEntries flags shared.now → flags name.now ≡ Some on) }
{
    for map in shared {
        if let Some(on) = map.get().get(name) {
            return Some(*on);
        }
    }
    None
}

fn map_of(alloc: Global, settings: &[FlagSet]) -> Result<BTreeMap<Text, bool>, NoMemory>
    ensures { IfOk result (λ map. (flags : Flags) → holds flags settings.now ≡ true → HaveEntries flags (map ∷ [])) }
{
    let mut map = BTreeMap::new(alloc);
    for setting in settings {
        map.insert(setting.name.copy()?, setting.on)?;
    }
    Ok(map)
}

fn add_all(map: &mut BTreeMap<Text, bool>, more: &BTreeMap<Text, bool>) -> Result<(), NoMemory>
    ensures { OnOk result ((flags : Flags) → HaveEntries flags (map.old ∷ more.now ∷ [])
        → HaveEntries flags (map.new ∷ [])) }
{
    for (name, on) in more.iter() {
        map.insert(name.copy()?, *on)?;
    }
    Ok(())
}
