// Laws of every description that is read.

ghost use Rattle.std.specs.Prelude.{◌≡◌, ℕ, true, List};
ghost use Rattle.std.specs.List.{list_all};
ghost use Rattle.std.specs.declared.result.Result.TheVariants.{Ok};
ghost use Rattle.plan_types.specs.Name.{is_package_name};
ghost use Rattle.plan_types.specs.declared.description.Description.{Description};
ghost use Rattle.plan_types.specs.declared.element.Element.{Element};
ghost use Rattle.version_range.specs.Version.{is_version};
ghost use Rattle.description.specs.Description.{Describes};
ghost use Rattle.flatten.specs.Sound.{IsDescription, asked_packages};

/// A description read from elements is sound.
pub fn descriptions_are_sound()
    ensures { (items : List Element) (digest : List ℕ) (d : Description) → Describes items digest (Ok d)
        → IsDescription d }
{}

/// Its name, its version and the names of the packages that it depends on are well-formed, and it keeps the digest.
pub fn descriptions_are_well_formed()
    ensures name { (items : List Element) (digest : List ℕ) (d : Description) → Describes items digest (Ok d)
        → is_package_name d.name ≡ true }
    ensures version { (items : List Element) (digest : List ℕ) (d : Description) → Describes items digest (Ok d)
        → is_version d.version.parts ≡ true }
    ensures asked { (items : List Element) (digest : List ℕ) (d : Description) → Describes items digest (Ok d)
        → list_all is_package_name (asked_packages d) ≡ true }
    ensures digest { (items : List Element) (digest : List ℕ) (d : Description) → Describes items digest (Ok d)
        → d.digest ≡ digest }
{}
