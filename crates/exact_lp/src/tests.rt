//! Linear programs are solved.

ghost use Rattle.std.specs.Prelude.{ℕ, ◌≡◌, ◌≤◌, ◌<◌, ◌^◌, length, slice_index, IsTrue};
ghost use Rattle.log_laws.specs.Sums.{sum_below};
ghost use Rattle.energy_surface.specs.Program.Bases.{AreColumns, column_at};
ghost use Rattle.exact_lp.specs.Checked.{IsGood, IsPure};

use super::*;
use crate::solved::{OF_FEW, Point, Solved};
use crate::solved_of_four::OF_FOUR;
use case_types::{Case, Column, Columns, Memory, Plane, SLOTS, Split};
use sample_cases::like_components;
use std::alloc::Global;
use std::process::Abort;
use std::test::Fail;

/// A column at half the densest packing.
fn column(point: Point) -> Column {
    let (comp, cost) = point;
    Column {
        comp,
        packing: 1 << 39,
        up: cost,
        cost,
    }
}

/// The pure columns and the mixed ones.
fn columns(solved: &Solved, alloc: Global) -> Result<Columns, Memory> {
    let mut columns = Columns::new(alloc);
    for k in 0..SLOTS {
        if k < solved.n as usize {
            let mut comp = [0; SLOTS];
            comp[k] = 1 << 20;
            columns.reserve(1)?;
            columns.push(column((comp, solved.pure[k])));
        }
    }
    for point in solved.mixed {
        columns.reserve(1)?;
        columns.push(column(point));
    }
    Ok(columns)
}

/// Whether the columns are those of a linear program of `n` components.
fn are_columns(n: u8, columns: &Columns) -> bool
    requires few { n ≤ 4 }
    ensures { IsTrue result → AreColumns n columns.now.items }
{
    let count = columns.len();
    n as usize <= count && count < 1 << 32 && are_good(n, columns) && are_pure(n, columns)
}

/// Whether each column is a grid point of bounded cost.
fn are_good(n: u8, columns: &Columns) -> bool
    requires few { n ≤ 4 }
    ensures { IsTrue result → (j : ℕ) → j < length columns.now.items → IsGood n (column_at columns.now.items j) }
{
    for j in 0..columns.len() {
        if !is_good(n, columns.get(j)) {
            return false;
        }
    }
    true
}

/// Whether the column is a grid point of bounded cost.
fn is_good(n: u8, column: &Column) -> bool
    requires few { n ≤ 4 }
    ensures { IsTrue result → IsGood n column.now }
{
    is_whole(n, &column.comp)
        && has_no_rest(n, &column.comp)
        && column.packing == 1 << 39
        && column.cost.unsigned_abs() <= 1 << 39
}

/// Whether the parts of the first `n` components are 2^20.
fn is_whole(n: u8, x: &[u32; SLOTS]) -> bool
    requires few { n ≤ 4 }
    ensures { IsTrue result → sum_below n (slice_index x.now) ≡ 2 ^ 20 }
{
    let mut sum = 0u64;
    for i in 0..n as usize {
        sum += x[i] as u64;
    }
    sum == 1 << 20
}

/// Whether there is no part of the others.
fn has_no_rest(n: u8, x: &[u32; SLOTS]) -> bool
    requires few { n ≤ 4 }
    ensures { IsTrue result → (i : ℕ) → n ≤ i → slice_index x.now i ≡ 0 }
{
    for i in n as usize..SLOTS {
        if x[i] != 0 {
            return false;
        }
    }
    true
}

/// Whether the first `n` columns are the pure ones in their order.
fn are_pure(n: u8, columns: &Columns) -> bool
    requires { n ≤ length columns.now.items }
    ensures { IsTrue result → (k : ℕ) → k < n → IsPure k (column_at columns.now.items k) }
{
    for k in 0..n as usize {
        if !is_pure(k, columns.get(k)) {
            return false;
        }
    }
    true
}

/// Whether the column is the component `k` alone.
fn is_pure(k: usize, column: &Column) -> bool
    ensures { IsTrue result → IsPure k column.now }
{
    for i in 0..SLOTS {
        if column.comp[i] != if i == k { 1 << 20 } else { 0 } {
            return false;
        }
    }
    true
}

/// How many pivots lead to the optimum, its basis, its plane and its split.
fn optimum(case: &Case, columns: &Columns) -> Option<(u8, Basis, Plane, Split)>
    requires { AreColumns case.now.n columns.now.items }
{
    let mut basis = start(case);
    for pivots in 0..9 {
        match price(case, columns, &basis) {
            Some(enter) => {
                pivot(case, columns, &mut basis, enter);
            }
            None => {
                let plane = plane(case, columns, &basis);
                let split = amounts(case, columns, &basis);
                return Some((pivots, basis, plane, split));
            }
        }
    }
    None
}

/// Solves each of these programs.
fn solve(rt: &impl Abort, alloc: Global, programs: &[Solved]) -> Result<(), Fail> {
    for solved in programs {
        let n = solved.n;
        assert!(rt; 1 <= n && n <= 4);
        let case = like_components(n);
        let columns = columns(solved, alloc)?;
        assert!(rt; are_columns(n, &columns));
        let (pivots, basis, plane, split) = optimum(&case, &columns).ok_or("no optimum")?;
        assert_eq!(rt; pivots, solved.pivots);
        let at = basis.at;
        assert_eq!(rt; at, solved.at);
        let lam = plane.lam;
        assert_eq!(rt; lam, solved.plane);
        assert_eq!(rt; split.sum, solved.sum);
        assert_eq!(rt; split.phases.len(), solved.live);
        for k in 0..split.phases.len() {
            let parts = split.phases[k].parts;
            assert!(rt; k < SLOTS);
            assert_eq!(rt; parts, solved.phases[k]);
        }
    }
    Ok(())
}

#[test]
fn solves_programs_of_two_and_three(rt: HostRuntime) -> Result<(), Fail> {
    solve(&rt, rt.alloc(), &OF_FEW)
}

#[test]
fn solves_programs_of_four(rt: HostRuntime) -> Result<(), Fail> {
    solve(&rt, rt.alloc(), &OF_FOUR)
}
