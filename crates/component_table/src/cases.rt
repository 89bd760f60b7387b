//! The case that the words name in a table.

ghost use Rattle.std.specs.Prelude.{◌≡◌, ◌≤◌, IsTrue, length, nat_lt};
ghost use Rattle.std.specs.List.{list_all};
ghost use Rattle.component_table.specs.Capacities.{is_capacity};
ghost use Rattle.component_table.specs.Rising.{is_rising};

use arrayvec::ArrayVec;
use case_types::{Case, Name, ParamFault, SLOTS};

/// Why a table and a job make no case.
#[derive(Clone, Copy, Debug, PartialEq, Eq)]
pub enum CaseFault {
    /// The name at this place of the job's list, from 1, has no component.
    NoName(u8),
    /// The name at this place of the job's list, from 1, has no heat capacity.
    NoCp(u8),
    /// The parameters of the case break a range.
    Param(ParamFault),
}

/// A case, and what its components are called.
#[derive(Drop)]
pub struct Picked {
    pub case: Case,
    /// The names of the job, also those with no part of the feed.
    pub names: ArrayVec<Name, SLOTS>,
    /// Where the components of the case stand among the names, from 0.
    pub live: ArrayVec<u8, SLOTS>,
    /// The heat capacities of the components of the case, where the table has them: the coefficients of a cubic in the temperature
    /// over 1000 K, the constant first, in 1e-3 J/(mol K).
    pub cps: ArrayVec<Option<[i32; 4]>, SLOTS>,
    pub ghost few_names: { length names.items ≤ 4 },
    pub ghost as_many: { length live.items ≡ case.n },
    pub ghost rising: { IsTrue (is_rising live.items) },
    pub ghost placed: { IsTrue (list_all (λ k. nat_lt k (length names.items)) live.items) },
    pub ghost as_many_cps: { length cps.items ≡ case.n },
    pub ghost coefficients: { IsTrue (list_all is_capacity cps.items) },
}
