//! The columns with which every flash begins: those of the pure components, and those that are guessed.

ghost use Rattle.std.specs.Prelude.{ℕ, ◌≡◌, ◌≤◌, ◌<◌, ◌+◌, ◌^◌, ◌++◌, length, if◌then◌else◌, nat_eq, []};
ghost use Rattle.energy_surface.specs.Columns.{IsColumn};
ghost use Rattle.energy_surface.specs.Lawful.{pure_composition, IsPureColumn};
ghost use Rattle.surface_rounds.specs.Flashing.{ArePure};

use crate::guides::{COLUMNS, Guide};
use arrayvec::ArrayVec;
use box_search::column_at;
use case_types::{Column, Columns, SLOTS};
use density_boxes::box_at;
use energy_surface::Surface;
use split_energies::{half, lowest};

/// Keeps the column of each component alone, in their order.
pub fn keep_pure<S: Surface, G: Guide>(surface: &S, guide: &G, columns: &mut Columns)
    requires none { columns.old.items ≡ [] }
    requires room { (S.bounds surface.now).count ≤ columns.old.spare }
    ensures pure { ArePure (S.bounds surface.now) (S.bounds surface.now).count columns.new.items }
    ensures room { columns.new.spare + (S.bounds surface.now).count ≡ columns.old.spare }
{
    for k in 0..surface.count() {
        columns.push(pure_column(surface, guide, k));
    }
}

/// Keeps the columns that are guessed, behind those that are there.
pub fn keep_guessed(guessed: &ArrayVec<Column, COLUMNS>, columns: &mut Columns)
    requires room { 32 ≤ columns.old.spare }
    ensures kept { columns.new.items ≡ columns.old.items ++ guessed.now.items }
    ensures room { columns.new.spare + length guessed.now.items ≡ columns.old.spare }
    ensures few { length guessed.now.items ≤ 32 }
{
    for k in 0..guessed.len() {
        columns.push(guessed[k]);
    }
}

/// The column of the component `k` alone, at the packing fraction of least upper energy among those of the guide and half the
/// densest packing.
fn pure_column<S: Surface, G: Guide>(surface: &S, guide: &G, k: u8) -> Column
    requires live { k < (S.bounds surface.now).count }
    requires four { k < 4 }
    ensures column { IsColumn (S.bounds surface.now) result }
    ensures pure { IsPureColumn (S.bounds surface.now) k result }
{
    let comp = pure(k);
    let x = box_at(comp);
    let mix = surface.mix_up(&x);
    let last = half(surface, &mix);
    let found = lowest(surface, &mix, &guide.packings(&x), last);
    match column_at(surface, comp, found.packing) {
        Some(column) => column,
        None => unreachable!(),
    }
}

/// The composition of the component `k` alone, in 2^-20.
fn pure(k: u8) -> [u32; SLOTS]
    ensures { result ≡ pure_composition k }
{
    [part(k, 0), part(k, 1), part(k, 2), part(k, 3)]
}

/// The part of the component `i` in the component `k` alone, in 2^-20.
fn part(k: u8, i: u8) -> u32
    ensures { result ≡ (if nat_eq k i then 2 ^ 20 else 0) }
{
    if k == i { 1 << 20 } else { 0 }
}
