// Versions of the Cabal specification.

ghost use Rattle.std.specs.Prelude.{◌≡◌, nat_lt};
ghost use Rattle.older_fields.specs.Editions.{number, before, header_text, setup_depends, below, from_minor, from_two, from_numbers};

/// A version of the Cabal specification.
#[derive(Clone, Copy, Debug, PartialEq, Eq)]
pub enum Edition {
    V1_0,
    V1_2,
    V1_4,
    V1_6,
    V1_8,
    V1_10,
    V1_12,
    V1_18,
    V1_20,
    V1_22,
    V1_24,
    V2_0,
    V2_2,
    V2_4,
    V3_0,
    V3_4,
}

impl Edition {
    /// A number that grows with the version.
    fn number(self) -> u32
        ensures { result ≡ number self }
    {
        match self {
            Edition::V1_0 => 100,
            Edition::V1_2 => 102,
            Edition::V1_4 => 104,
            Edition::V1_6 => 106,
            Edition::V1_8 => 108,
            Edition::V1_10 => 110,
            Edition::V1_12 => 112,
            Edition::V1_18 => 118,
            Edition::V1_20 => 120,
            Edition::V1_22 => 122,
            Edition::V1_24 => 124,
            Edition::V2_0 => 200,
            Edition::V2_2 => 202,
            Edition::V2_4 => 204,
            Edition::V3_0 => 300,
            Edition::V3_4 => 304,
        }
    }

    pub fn is_before(self, other: Edition) -> bool
        ensures { result ≡ before self other }
    {
        self.number() < other.number()
    }

    /// The cabal-version under which a file of this version is written: its own from 2.4 on, 2.4 before.
    pub fn header_text(self) -> &'static str
        ensures { result.now ≡ header_text self }
    {
        match self {
            Edition::V3_4 => "3.4",
            Edition::V3_0 => "3.0",
            _ => "2.4",
        }
    }

    /// The dependencies of a setup script whose file doesn't state them. They begin at the first version of the library
    /// that reads this version of the specification.
    pub fn setup_depends(self) -> &'static str
        ensures { result.now ≡ setup_depends self }
    {
        match self {
            Edition::V1_0 => "base, Cabal >=1.0 && <1.25",
            Edition::V1_2 => "base, Cabal >=1.1 && <1.25",
            Edition::V1_4 => "base, Cabal >=1.3 && <1.25",
            Edition::V1_6 => "base, Cabal >=1.5 && <1.25",
            Edition::V1_8 => "base, Cabal >=1.7 && <1.25",
            Edition::V1_10 => "base, Cabal >=1.9 && <1.25",
            Edition::V1_12 => "base, Cabal >=1.11 && <1.25",
            Edition::V1_18 => "base, Cabal >=1.13 && <1.25",
            Edition::V1_20 => "base, Cabal >=1.19 && <1.25",
            _ => "base, Cabal >=1.21 && <1.25",
        }
    }

    /// The version of the specification that these numbers mean.
    pub fn from_numbers(numbers: &[u32]) -> Option<Edition>
        ensures { result ≡ from_numbers numbers.now }
    {
        match numbers {
            [] => Some(Edition::V1_0),
            [major] => below(*major, 2, Edition::V1_0),
            [major, minor] => from_two(*major, *minor),
            [major, minor, _, ..] => {
                if *major < 2 {
                    from_two(*major, *minor)
                } else {
                    None
                }
            }
        }
    }
}

fn below(number: u32, end: u32, edition: Edition) -> Option<Edition>
    ensures { result ≡ below number end edition }
{
    if number < end { Some(edition) } else { None }
}

fn from_two(major: u32, minor: u32) -> Option<Edition>
    ensures { result ≡ from_two major minor }
{
    match (major, minor) {
        (0, _) => Some(Edition::V1_0),
        (1, _) => from_minor(minor),
        (2, 0) => Some(Edition::V2_0),
        (2, 2) => Some(Edition::V2_2),
        (2, 4) => Some(Edition::V2_4),
        (3, 0) => Some(Edition::V3_0),
        (3, 4) => Some(Edition::V3_4),
        _ => None,
    }
}

/// Of 1.0 and later, before 2.0.
fn from_minor(minor: u32) -> Option<Edition>
    ensures { result ≡ from_minor minor }
{
    match minor {
        0 => Some(Edition::V1_0),
        1..=2 => Some(Edition::V1_2),
        3..=4 => Some(Edition::V1_4),
        5..=6 => Some(Edition::V1_6),
        7..=8 => Some(Edition::V1_8),
        9..=10 => Some(Edition::V1_10),
        11..=16 => Some(Edition::V1_12),
        17..=18 => Some(Edition::V1_18),
        19..=20 => Some(Edition::V1_20),
        21..=22 => Some(Edition::V1_22),
        23..=24 => Some(Edition::V1_24),
        _ => None,
    }
}
