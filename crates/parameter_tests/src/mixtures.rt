//! Parameters of mixtures against numbers that an independent program computed.

ghost use Rattle.std.specs.Prelude.{◌<◌, IfSome, IsTrue, slice_index, slice_index_or, map, pos};
ghost use Rattle.case_types.specs.Ranges.{are_interactions, is_interaction, is_critical_temperature, is_critical_pressure, is_acentric_factor};
ghost use Rattle.log_laws.specs.Sums.{all_below};

use crate::sample_numbers::ACCEPTED;
use crate::samples::{Component, Ends, Mixture, REFUSED, Wanted};
use case_types::{Case, PAIRS, Row, SLOTS};
use log_laws::Iv;
use pr_params::{Params, params};
use sample_cases::{NAMELESS, equal_parts};
use std::test::Fail;

/// A component, if its numbers are in their ranges.
pub fn row_of(component: Component) -> Option<Row>
    ensures tc { IfSome result (λ r. IsTrue (is_critical_temperature r.tc)) }
    ensures pc { IfSome result (λ r. IsTrue (is_critical_pressure r.pc)) }
    ensures w { IfSome result (λ r. IsTrue (is_acentric_factor r.w)) }
{
    let (tc, pc, w) = component;
    if tc < 5_000 || tc > 1_500_000 || pc < 100_000 || pc > 50_000_000 || w < -5_000 || w > 15_000 {
        return None;
    }
    Some(Row {
        name: NAMELESS,
        tc,
        pc,
        w,
    })
}

/// Four components, if their numbers are in their ranges.
fn rows_of(components: &[Component; SLOTS]) -> Option<[Row; SLOTS]>
    ensures tc { IfSome result (λ rs. IsTrue (all_below 4 (λ i. is_critical_temperature (slice_index (map (λ r. r.tc) rs) i)))) }
    ensures pc { IfSome result (λ rs. IsTrue (all_below 4 (λ i. is_critical_pressure (slice_index (map (λ r. r.pc) rs) i)))) }
    ensures w { IfSome result (λ rs. IsTrue (all_below 4 (λ i. is_acentric_factor (slice_index_or (map (λ r. r.w) rs) i (pos 0))))) }
{
    let first = row_of(components[0])?;
    let second = row_of(components[1])?;
    let third = row_of(components[2])?;
    let fourth = row_of(components[3])?;
    Some([first, second, third, fourth])
}

/// An interaction, if it is in its range.
fn interaction_of(k: i32) -> Option<i32>
    ensures { IfSome result (λ k. IsTrue (is_interaction k)) }
{
    if k < -5_000 || k > 5_000 {
        return None;
    }
    Some(k)
}

/// The table of the interactions of pairs, if they are in their range.
fn table_of(k: &[i32; PAIRS]) -> Option<[[i32; SLOTS]; SLOTS]>
    ensures { IfSome result (λ rows. IsTrue (are_interactions rows)) }
{
    let k12 = interaction_of(k[0])?;
    let k13 = interaction_of(k[1])?;
    let k14 = interaction_of(k[2])?;
    let k23 = interaction_of(k[3])?;
    let k24 = interaction_of(k[4])?;
    let k34 = interaction_of(k[5])?;
    Some([
        [0, k12, k13, k14],
        [k12, 0, k23, k24],
        [k13, k23, 0, k34],
        [k14, k24, k34, 0],
    ])
}

/// The case of a mixture of like parts, if its numbers are in their ranges.
fn case_of(mixture: &Mixture) -> Option<Case> {
    let (n, components, k, t, p) = *mixture;
    if n < 1 || n > 4 || t < 50_000 || t > 1_500_000 || p < 1_000 || p > 100_000_000 {
        return None;
    }
    let rows = rows_of(&components)?;
    let interactions = table_of(&k)?;
    Some(equal_parts(n, rows, interactions, t, p))
}

/// The ends of an enclosure.
pub fn ends(v: Iv) -> Ends {
    [v.lo, v.hi]
}

/// The ends of four enclosures.
fn four(vs: &[Iv; SLOTS]) -> [Ends; SLOTS] {
    [ends(vs[0]), ends(vs[1]), ends(vs[2]), ends(vs[3])]
}

/// The ends of the entries for the six pairs.
fn six(values: &[Iv; 6]) -> [Ends; 6] {
    [
        ends(values[0]),
        ends(values[1]),
        ends(values[2]),
        ends(values[3]),
        ends(values[4]),
        ends(values[5]),
    ]
}

/// The ends of an entry of a table.
fn entry(table: &[[Iv; SLOTS]; SLOTS], i: usize, j: usize) -> Ends
    requires { j < 4 }
{
    match table.get(i) {
        Some(row) => ends(row[j]),
        None => [0, 0],
    }
}

/// The entries on the diagonal of a table and right of it.
fn upper(table: &[[Iv; SLOTS]; SLOTS]) -> [Ends; 10] {
    [
        entry(table, 0, 0),
        entry(table, 0, 1),
        entry(table, 0, 2),
        entry(table, 0, 3),
        entry(table, 1, 1),
        entry(table, 1, 2),
        entry(table, 1, 3),
        entry(table, 2, 2),
        entry(table, 2, 3),
        entry(table, 3, 3),
    ]
}

/// The same entries on the other side of the diagonal.
fn lower(table: &[[Iv; SLOTS]; SLOTS]) -> [Ends; 10] {
    [
        entry(table, 0, 0),
        entry(table, 1, 0),
        entry(table, 2, 0),
        entry(table, 3, 0),
        entry(table, 1, 1),
        entry(table, 2, 1),
        entry(table, 3, 1),
        entry(table, 2, 2),
        entry(table, 3, 2),
        entry(table, 3, 3),
    ]
}

/// The numbers that are compared.
fn numbers_of(params: &Params) -> Wanted {
    Wanted {
        lift: params.lift,
        t: four(&params.t),
        q: six(&params.q),
        m: four(&params.m),
        b: four(&params.b),
        h: upper(&params.h),
        a: upper(&params.a),
        rho: params.rho,
    }
}

#[test]
fn parameters_of_mixtures(rt: HostRuntime) -> Result<(), Fail> {
    for (mixture, want) in ACCEPTED {
        let case = case_of(&mixture).ok_or("out of range")?;
        let found = params(&case).ok().ok_or("refused")?;
        assert_eq!(rt; numbers_of(&found), want);
        assert_eq!(rt; lower(&found.h), want.h);
        assert_eq!(rt; lower(&found.a), want.a);
    }
    Ok(())
}

#[test]
fn mixtures_out_of_range(rt: HostRuntime) -> Result<(), Fail> {
    for (mixture, fault) in REFUSED {
        let case = case_of(&mixture).ok_or("out of range")?;
        assert_eq!(rt; params(&case).err(), Some(fault));
    }
    Ok(())
}
