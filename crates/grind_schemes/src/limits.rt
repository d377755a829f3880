//! How far a search may go.
ghost use Rattle.std.specs.Prelude.{◌≡◌, ◌≤◌};

/// The limits of a search, each within its range.
#[derive(Clone, Copy, Debug, PartialEq, Eq)]
pub struct Limits {
    /// How many decisions may be in force at once: at most 12.
    pub splits: u32,
    /// The generation that no match may reach: at most 20.
    pub generation: u32,
    /// How many instances of theorems may be posted: at most 2,000.
    pub instances: u32,
    /// How many combinations of inequalities may be posted: at most 10,000.
    pub cuts: u32,
    /// How many basis elements may be made: at most 2,000.
    pub pairs: u32,
    pub ghost splits_in_range: { splits ≤ 12 },
    pub ghost generation_in_range: { generation ≤ 20 },
    pub ghost instances_in_range: { instances ≤ 2000 },
    pub ghost cuts_in_range: { cuts ≤ 10000 },
    pub ghost pairs_in_range: { pairs ≤ 2000 },
}

impl Limits {
    ghost use Rattle.grind_schemes.specs.Limits.{IsStandard};

    /// The limits where a theory sets none: 9 splits, generation 8, 1,000 instances, 2,000 cuts and 500 pairs.
    pub fn standard() -> Limits
        ensures { IsStandard result }
    {
        Limits {
            splits: 9,
            generation: 8,
            instances: 1000,
            cuts: 2000,
            pairs: 500,
        }
    }
}
