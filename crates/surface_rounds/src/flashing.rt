//! The flash: rounds until a search clears the whole domain, or no unit is left, or a cell of the finest grid stays open.

ghost use Rattle.std.specs.Prelude.{◌≡◌, ◌≤◌, ◌<◌, ◌+◌, [], IfOk};
ghost use Rattle.energy_surface.specs.Lawful.{IsLawful};
ghost use Rattle.surface_rounds.specs.Room.{HasRoom};

use crate::answers::answer_of;
use crate::choices::split_by;
use crate::guides::{COLUMNS, Guesses, Guide};
use crate::pure_columns::{keep_guessed, keep_pure};
use crate::rivals::rivals;
use crate::stages::next_stage;
use case_types::{Answer, Case, Columns, Letters, Memory, Pivots, Rounds, SLOTS, Units, Work};
use energy_surface::{Found, Surface};
use exact_lp::start;
use std::alloc::Global;

/// The flash of a case over its energy surface, with the guesses of a guide. All memory is taken before the first unit is spent.
///
/// `tol` is the tolerance in 2^-20 bit, `budget` the most units of work. The answer is lawful: each letter, round, pivot and
/// unit of its list of work has its cause, and its numbers are those of the last round.
pub fn flashed<S: Surface, G: Guide>(
    alloc: Global,
    surface: &S,
    guide: &G,
    case: &Case,
    tol: u32,
    budget: u32,
) -> Result<Answer, Memory>
    requires components { case.now.n ≡ (S.bounds surface.now).count }
    requires guide { G.bounds guide.now ≡ S.bounds surface.now }
    requires feed { G.feed guide.now ≡ case.now }
    requires tol_low { 128 ≤ tol }
    requires tol_high { tol ≤ 1048576 }
    requires budget { budget ≤ 10000000 }
    ensures { IfOk result (λ a. IsLawful (S.bounds surface.now) case.now tol budget a) }
{
    let mut work = new_work(alloc, budget)?;
    let mut units = Units::new(budget);
    let Guesses { splits, columns } = guide.guesses();
    keep_pure(surface, guide, &mut work.columns);
    keep_guessed(&columns, &mut work.columns);
    let rivals = rivals(surface, guide, case, splits);
    let mut basis = start(case);
    loop {
        let stage = next_stage(
            surface, guide, case, tol, &rivals, &mut basis, &mut work, &mut units,
        );
        if let Found::Refuted { .. } = stage.found {
            continue;
        }
        let split = split_by(case, &work.columns, &basis, rivals, stage.chosen.choice);
        return Ok(answer_of(case, split, &stage, &units, work));
    }
}

/// No work yet, with room for the work of the budget and for the columns with which a flash begins.
fn new_work(alloc: Global, budget: u32) -> Result<Work, Memory>
    requires { budget ≤ 10000000 }
    ensures room { IfOk result (λ w. HasRoom budget w) }
    ensures column { IfOk result (λ w. budget + 36 ≤ w.columns.spare) }
    ensures columns { IfOk result (λ w. w.columns.items ≡ []) }
    ensures pivots { IfOk result (λ w. w.pivots.items ≡ []) }
    ensures letters { IfOk result (λ w. w.letters.items ≡ []) }
    ensures rounds { IfOk result (λ w. w.rounds.items ≡ []) }
{
    let n = budget as usize;
    let mut columns = Columns::new(alloc);
    columns.reserve(n + SLOTS + COLUMNS)?;
    let mut pivots = Pivots::new(alloc);
    pivots.reserve(n)?;
    let mut letters = Letters::new(alloc);
    letters.reserve(3 * n + 200)?;
    let mut rounds = Rounds::new(alloc);
    rounds.reserve(n + 1)?;
    Ok(Work {
        columns,
        pivots,
        letters,
        rounds,
    })
}
