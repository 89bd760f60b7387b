//! Equal parts of some components.

ghost use Rattle.std.specs.Prelude.{◌≡◌, ◌≤◌, [], ◌∷◌, map, pos, slice_index, slice_index_or, IsTrue};
ghost use Rattle.log_laws.specs.Sums.{all_below};
ghost use Rattle.case_types.specs.Ranges.{are_interactions, is_acentric_factor, is_critical_pressure, is_critical_temperature};
ghost use Rattle.case_types.specs.declared.cases.Edition.TheVariants.{Y1976};

use case_types::{Case, Edition, Name, Row, SLOTS};

/// No name.
pub const NAMELESS: Name = Name {
    len: 0,
    bytes: [0; 16],
};

/// A component without a name, from its critical temperature in mK, its critical pressure in Pa and its acentric factor in
/// 1e-4.
pub fn nameless(tc: u32, pc: u32, w: i32) -> Row
    requires tc { IsTrue (is_critical_temperature tc) }
    requires pc { IsTrue (is_critical_pressure pc) }
    requires w { IsTrue (is_acentric_factor w) }
    ensures tc { result.tc ≡ tc }
    ensures pc { result.pc ≡ pc }
    ensures w { result.w ≡ w }
{
    Row {
        name: NAMELESS,
        tc,
        pc,
        w,
    }
}

/// Equal parts of the first `n` components, with their interactions in 1e-4, at `t` in mK and `p` in Pa, in the edition of 1976.
pub fn equal_parts(n: u8, rows: [Row; SLOTS], k: [[i32; SLOTS]; SLOTS], t: u32, p: u32) -> Case
    requires some { 1 ≤ n }
    requires few { n ≤ 4 }
    requires tc { IsTrue (all_below 4 (λ i. is_critical_temperature (slice_index (map (λ r. r.tc) rows) i))) }
    requires pc { IsTrue (all_below 4 (λ i. is_critical_pressure (slice_index (map (λ r. r.pc) rows) i))) }
    requires w { IsTrue (all_below 4 (λ i. is_acentric_factor (slice_index_or (map (λ r. r.w) rows) i (pos 0)))) }
    requires interactions { IsTrue (are_interactions k) }
    requires t_low { 50000 ≤ t }
    requires t_high { t ≤ 1500000 }
    requires p_low { 1000 ≤ p }
    requires p_high { p ≤ 100000000 }
    ensures count { result.n ≡ n }
    ensures rows { result.rows ≡ rows }
    ensures interactions { result.k ≡ k }
    ensures parts { result.z ≡ 1 ∷ 1 ∷ 1 ∷ 1 ∷ [] }
    ensures t { result.t ≡ t }
    ensures p { result.p ≡ p }
    ensures edition { result.edition ≡ Y1976 }
{
    Case {
        n,
        rows,
        k,
        z: [1; SLOTS],
        total: n as u32,
        t,
        p,
        edition: Edition::Y1976,
    }
}
