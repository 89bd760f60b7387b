//! Columns nearer to the least of the energy above a tangent plane.

ghost use Rattle.std.specs.Prelude.{ℕ, ◌≡◌, ◌≤◌, ◌<◌, ◌^◌, ◌-ℤ◌, ◌≤ℤ◌, ◌⊎◌, IfSome, slice_index, unsigned_abs};
ghost use Rattle.case_types.specs.Grid.Columns.{plane_at_point, point_of};
ghost use Rattle.energy_surface.specs.Columns.{IsColumn};

use crate::grid::to_grid;
use crate::places::packing_at;
use crate::settling::settled;
use crate::substituting::toward;
use box_search::{column_at, plane_on};
use case_types::{Column, Plane, SLOTS};
use energy_surface::Surface;
use pr_params::Params;

/// How many steps of successive substitution are tried.
const STEPS: usize = 20;

/// The column, or one whose upper energy lies lower against the plane: that at the grid point after 20 steps of successive
/// substitution toward the plane, where it is truly lower.
pub fn polish<S: Surface>(surface: &S, params: &Params, plane: &Plane, column: Column) -> Column
    requires components { params.now.case.n ≡ (S.bounds surface.now).count }
    requires column { IsColumn (S.bounds surface.now) column }
    ensures column { IsColumn (S.bounds surface.now) result }
    ensures no_worse { (result.up -ℤ plane_at_point params.now.case.n plane.now.lam (point_of result)) ≤ℤ
        (column.up -ℤ plane_at_point params.now.case.n plane.now.lam (point_of column)) }
{
    let n = params.case.n;
    let parts = stepped(params, plane, start(n, &column.comp));
    match column_of(surface, params, &parts) {
        Some(other) => lower_of(n, plane, column, other),
        None => column,
    }
}

/// The fractions of a composition in 2^-20 as parts, each live one at least 1.
fn start(n: u8, comp: &[u32; SLOTS]) -> [u128; SLOTS]
    ensures live { (i : ℕ) → i < n → i < 4 → 1 ≤ slice_index result i }
    ensures small { (i : ℕ) → slice_index result i ≤ 2 ^ 32 }
{
    [
        start_part(n, comp, 0),
        start_part(n, comp, 1),
        start_part(n, comp, 2),
        start_part(n, comp, 3),
    ]
}

/// The part of the component `i` of `n`, and 0 for one that isn't live.
fn start_part(n: u8, comp: &[u32; SLOTS], i: u8) -> u128
    requires { i < 4 }
    ensures live { i < n → 1 ≤ result }
    ensures small { result ≤ 2 ^ 32 }
{
    if i < n {
        comp[i as usize].max(1) as u128
    } else {
        0
    }
}

/// The parts after all steps toward the plane.
fn stepped(params: &Params, plane: &Plane, from: [u128; SLOTS]) -> [u128; SLOTS]
    requires live { (i : ℕ) → i < params.now.case.n → 1 ≤ slice_index from i }
    requires small { (i : ℕ) → slice_index from i ≤ 2 ^ 32 }
    ensures live { (i : ℕ) → i < params.now.case.n → 1 ≤ slice_index result i }
    ensures small { (i : ℕ) → slice_index result i ≤ 2 ^ 32 }
{
    let mut parts = from;
    for _step in 0..STEPS {
        parts = toward(params, &plane.lam, &settled(params, parts));
    }
    parts
}

/// The column at the grid point of these parts, at the packing fraction that it settles at, if its upper energy allows one.
fn column_of<S: Surface>(surface: &S, params: &Params, parts: &[u128; SLOTS]) -> Option<Column>
    requires components { params.now.case.n ≡ (S.bounds surface.now).count }
    requires live { (i : ℕ) → i < params.now.case.n → 1 ≤ slice_index parts.now i }
    requires small { (i : ℕ) → slice_index parts.now i ≤ 2 ^ 32 }
    ensures { IfSome result (IsColumn (S.bounds surface.now)) }
{
    let comp = to_grid(params.case.n, parts);
    column_at(surface, comp, packing_at(params, &comp))
}

/// The column that lies lower against the plane, or the first where none does.
fn lower_of(n: u8, plane: &Plane, column: Column, other: Column) -> Column
    requires four { n ≤ 4 }
    requires column { unsigned_abs column.up < 2 ^ 49 }
    requires other { unsigned_abs other.up < 2 ^ 49 }
    ensures either { (result ≡ column) ⊎ (result ≡ other) }
    ensures no_worse { (result.up -ℤ plane_at_point n plane.now.lam (point_of result)) ≤ℤ (column.up -ℤ plane_at_point n plane.now.lam (point_of column)) }
{
    if above(n, plane, &other) < above(n, plane, &column) {
        other
    } else {
        column
    }
}

/// How far the upper energy of a column lies above the plane, in 2^-40 bit.
fn above(n: u8, plane: &Plane, column: &Column) -> i128
    requires four { n ≤ 4 }
    requires up { unsigned_abs column.now.up < 2 ^ 49 }
    ensures value { result ≡ column.now.up -ℤ plane_at_point n plane.now.lam (point_of column.now) }
    ensures small { unsigned_abs result ≤ 2 ^ 115 }
{
    column.up as i128 - plane_on(n, plane, &column.comp)
}
