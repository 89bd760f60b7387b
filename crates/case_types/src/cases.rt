//! What is to be flashed.

ghost use Rattle.std.specs.Prelude.{◌≡◌, ◌≤◌, ◌^◌, IsTrue, nat_le, map, slice_index, slice_index_or, pos};
ghost use Rattle.case_types.specs.Ranges.{is_name, are_interactions, is_critical_temperature, is_critical_pressure, is_acentric_factor};
ghost use Rattle.log_laws.specs.Sums.{all_below, sum_below};

/// The most components of a case.
pub const SLOTS: usize = 4;

/// The most pairs of different components of a case.
pub const PAIRS: usize = 6;

/// A component's name: letters, digits, `_` and `-` of ASCII, and then bytes 0.
#[derive(Clone, Copy, Debug, PartialEq, Eq)]
pub struct Name {
    /// How many bytes the name has, at most 16.
    pub len: u8,
    pub bytes: [u8; 16],
    pub ghost short: { len ≤ 16 },
    pub ghost spelled: { IsTrue (is_name len bytes) },
}

impl Default for Name {
    /// No byte yet.
    fn default() -> Name {
        Name {
            len: 0,
            bytes: [0; 16],
        }
    }
}

/// A component of the table.
#[derive(Clone, Copy, Debug, PartialEq, Eq)]
pub struct Row {
    pub name: Name,
    /// The critical temperature in mK.
    pub tc: u32,
    /// The critical pressure in Pa.
    pub pc: u32,
    /// The acentric factor in 1e-4.
    pub w: i32,
}

/// Which edition of the equation gives the slope kappa of alpha.
#[derive(Clone, Copy, Debug, PartialEq, Eq)]
pub enum Edition {
    /// Peng and Robinson 1976, at every acentric factor.
    Y1976,
    /// Robinson and Peng 1978 at acentric factors above 0.49, and Peng and Robinson 1976 elsewhere. That the formulas switch
    /// at 0.49 is this project's own choice.
    Y1978,
}

/// The live components with their interactions, the conditions, the feed and the edition of the equation.
///
/// Components count from 0 here. Entries past the first `n` have no meaning.
#[derive(Clone, Copy, Debug, PartialEq, Eq)]
pub struct Case {
    /// How many components are live, from 1 to 4.
    pub n: u8,
    pub rows: [Row; SLOTS],
    /// The interactions of pairs in 1e-4: symmetric, 0 on the diagonal.
    pub k: [[i32; SLOTS]; SLOTS],
    /// The parts of the feed, each at least 1.
    pub z: [u32; SLOTS],
    /// The sum of the parts, at most 2^20.
    pub total: u32,
    /// The temperature in mK.
    pub t: u32,
    /// The pressure in Pa.
    pub p: u32,
    /// The edition of the equation.
    pub edition: Edition,
    pub ghost some: { 1 ≤ n },
    pub ghost few: { n ≤ 4 },
    pub ghost tc_range: { IsTrue (all_below n (λ i. is_critical_temperature (slice_index (map (λ r. r.tc) rows) i))) },
    pub ghost pc_range: { IsTrue (all_below n (λ i. is_critical_pressure (slice_index (map (λ r. r.pc) rows) i))) },
    pub ghost w_range: { IsTrue (all_below n (λ i. is_acentric_factor (slice_index_or (map (λ r. r.w) rows) i (pos 0)))) },
    pub ghost interactions: { IsTrue (are_interactions k) },
    pub ghost live: { IsTrue (all_below n (λ i. nat_le 1 (slice_index z i))) },
    pub ghost added: { sum_below n (slice_index z) ≡ total },
    pub ghost total_high: { total ≤ 2 ^ 20 },
    pub ghost t_low: { 50000 ≤ t },
    pub ghost t_high: { t ≤ 1500000 },
    pub ghost p_low: { 1000 ≤ p },
    pub ghost p_high: { p ≤ 100000000 },
}

/// The range that the parameters of a case break first. Components count from 1 here.
#[derive(Clone, Copy, Debug, PartialEq, Eq)]
pub enum ParamFault {
    /// The largest reduced co-volume isn't between 2^-24 and 32.
    BRange,
    /// A reduced co-volume is above 1024 times another.
    BRatio,
    /// The root of alpha of a component may be below 2^-10.
    MRange(u8),
    /// The reduced attraction of a pair may be above 128 times the lesser reduced co-volume.
    ARange(u8, u8),
}
