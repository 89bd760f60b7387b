//! The report.

ghost use Rattle.std.specs.Prelude.{◌≡◌, ◌^◌, ◌<◌, ◌≤◌, OnOk, IfOk, IsTrue, length};
ghost use Rattle.std.specs.List.{list_all};
ghost use Rattle.case_types.specs.Ranges.{are_parts};
ghost use Rattle.dec_text.specs.Appending.{Adds};
ghost use Rattle.report_text.specs.Pieces.{texts_below};
ghost use Rattle.report_text.specs.ReportText.{report_text, flash_text, conditions_text, split_text, phases_text, phase_text, part_text, part_of, parts_of, plane_text, potential_text};

use crate::edge_texts::put_edge;
use crate::enclosures::put_enclosures;
use crate::ends::End;
use crate::joules::millijoules;
use crate::refusals::{put_case_fault, put_table_fault, put_word_fault};
use crate::texts::{label_of, outcome_of, put_fixed, put_fixed_line, put_line, put_millionths};
use crate::verdict_texts::put_verdict;
use case_types::{Answer, Case, Phase, Plane, SLOTS, Split};
use case_words::put_name;
use cert_format::put_certificate;
use component_table::Picked;
use dec_text::{put_number, put_text};
use density_boxes::moles;
use pr_params::Params;
use std::alloc::{AllocError, Global};

/// The text of an end.
///
/// # Errors
///
/// Memory is wanting.
pub fn report(alloc: Global, end: &End) -> Result<Vec<u8>, AllocError>
    ensures { IfOk result (λ v. v.items ≡ report_text end.now) }
{
    let mut out = Vec::new(alloc);
    match end {
        End::Words(fault) => {
            put_text(&mut out, "refused words ")?;
            put_word_fault(&mut out, *fault)?;
            put_text(&mut out, "\n")?;
        }
        End::Read => put_text(&mut out, "refused read\n")?,
        End::TooLong => put_text(&mut out, "refused long\n")?,
        End::Table(fault) => {
            put_text(&mut out, "refused table ")?;
            put_table_fault(&mut out, *fault)?;
            put_text(&mut out, "\n")?;
        }
        End::Case(fault) => {
            put_text(&mut out, "refused case ")?;
            put_case_fault(&mut out, *fault)?;
            put_text(&mut out, "\n")?;
        }
        End::Flash(params, picked, tol, answer) => {
            put_flash(&mut out, params, picked, *tol, answer)?
        }
        End::Cert(params, answer) => put_certificate(&mut out, params, answer)?,
        End::Checked(verdict) => put_verdict(&mut out, *verdict)?,
        End::Edge(by, answer) => put_edge(&mut out, *by, answer)?,
        End::Memory => {}
    }
    Ok(out)
}

/// Appends the report of a flash.
fn put_flash(
    out: &mut Vec<u8>,
    params: &Params,
    picked: &Picked,
    tol: u32,
    answer: &Answer,
) -> Result<(), AllocError>
    ensures { OnOk result (Adds out.old.items out.new.items (flash_text params.now picked.now tol answer.now)) }
{
    put_text(out, outcome_of(&answer.outcome))?;
    put_line(out, " units=", answer.units)?;
    put_conditions(out, &params.case, tol)?;
    put_line(out, "energy=", answer.u)?;
    put_line(out, "gap=", answer.gap)?;
    let gap = millijoules(answer.gap, params.case.t);
    put_fixed_line(out, "gap-joules-per-mole=", gap, 3)?;
    put_split(out, picked, &answer.split)?;
    put_plane(out, &params.case, answer)?;
    put_line(out, "low=", answer.low)?;
    put_enclosures(out, params)?;
    Ok(())
}

/// Appends temperature, pressure and tolerance.
fn put_conditions(out: &mut Vec<u8>, case: &Case, tol: u32) -> Result<(), AllocError>
    ensures { OnOk result (Adds out.old.items out.new.items (conditions_text case.now tol)) }
{
    put_text(out, "T=")?;
    put_fixed(out, case.t as i128, 3)?;
    put_text(out, " P=")?;
    put_number(out, case.p)?;
    put_line(out, " tol=", tol)?;
    Ok(())
}

/// Appends the split.
fn put_split(out: &mut Vec<u8>, picked: &Picked, split: &Split) -> Result<(), AllocError>
    ensures { OnOk result (Adds out.old.items out.new.items (split_text picked.now split.now.sum split.now.phases.items)) }
{
    put_text(out, "sum=")?;
    put_number(out, split.sum)?;
    put_line(out, " phases=", split.phases.len())?;
    put_phases(out, picked, split.sum, split.phases.as_slice())?;
    Ok(())
}

/// Appends the phases of a split of this sum.
fn put_phases(
    out: &mut Vec<u8>,
    picked: &Picked,
    sum: u128,
    phases: &[Phase],
) -> Result<(), AllocError>
    requires { IsTrue (list_all (λ f. are_parts f.parts) phases.now) }
    ensures { OnOk result (Adds out.old.items out.new.items (phases_text picked.now sum 1 phases.now)) }
{
    for (k, phase) in phases.iter().enumerate() {
        put_phase(out, picked, sum, k + 1, phase)?;
    }
    Ok(())
}

/// Appends a phase, which counts from 1, with its share of the sum and the parts of all names.
pub fn put_phase(
    out: &mut Vec<u8>,
    picked: &Picked,
    sum: u128,
    k: usize,
    phase: &Phase,
) -> Result<(), AllocError>
    requires { IsTrue (are_parts phase.now.parts) }
    ensures { OnOk result (Adds out.old.items out.new.items (phase_text picked.now sum k phase.now)) }
{
    let live = moles(picked.case.n, phase);
    put_text(out, "phase ")?;
    put_number(out, k)?;
    put_text(out, label_of(phase.packing))?;
    put_text(out, " packing=")?;
    put_number(out, phase.packing)?;
    put_millionths(out, " share=", live, sum)?;
    put_parts(out, picked, &phase.parts, live)?;
    Ok(())
}

/// Appends the parts of all names, in a phase with so many live parts.
fn put_parts(
    out: &mut Vec<u8>,
    picked: &Picked,
    parts: &[u128; SLOTS],
    live: u128,
) -> Result<(), AllocError>
    requires small { IsTrue (are_parts parts.now) }
    requires live { live ≡ parts_of picked.now parts.now }
    ensures { OnOk result (Adds out.old.items out.new.items
        (texts_below (length picked.now.names.items) (part_text picked.now parts.now))) }
{
    for i in 0..picked.names.len() {
        put_part(out, picked, parts, live, i)?;
    }
    Ok(())
}

/// Appends the name at an index of the words, its part and its mole fraction.
fn put_part(
    out: &mut Vec<u8>,
    picked: &Picked,
    parts: &[u128; SLOTS],
    live: u128,
    i: usize,
) -> Result<(), AllocError>
    requires small { IsTrue (are_parts parts.now) }
    requires live { live ≡ parts_of picked.now parts.now }
    requires named { i < length picked.now.names.items }
    ensures { OnOk result (Adds out.old.items out.new.items (part_text picked.now parts.now i)) }
{
    let part = part_of(picked.live.as_slice(), parts, i);
    put_text(out, "part ")?;
    put_name(out, &picked.names[i])?;
    put_text(out, " ")?;
    put_number(out, part)?;
    put_millionths(out, " x=", part, live)?;
    Ok(())
}

/// The part of the name at an index of the words: 0 where it isn't live.
fn part_of(live: &[u8], parts: &[u128; SLOTS], i: usize) -> u128
    requires few { length live.now ≤ 4 }
    requires small { IsTrue (are_parts parts.now) }
    ensures value { result ≡ part_of live.now parts.now i }
    ensures small { result < 2 ^ 104 }
{
    for (at, index) in live.iter().enumerate() {
        if *index as usize == i {
            return parts[at];
        }
    }
    0
}

/// Appends the plane.
fn put_plane(out: &mut Vec<u8>, case: &Case, answer: &Answer) -> Result<(), AllocError>
    ensures { OnOk result (Adds out.old.items out.new.items (plane_text case.now answer.now)) }
{
    put_text(out, "plane")?;
    put_potentials(out, case.n, &answer.plane)?;
    put_text(out, "\n")?;
    Ok(())
}

/// Appends the potentials of the first n components.
fn put_potentials(out: &mut Vec<u8>, n: u8, plane: &Plane) -> Result<(), AllocError>
    requires { n ≤ 4 }
    ensures { OnOk result (Adds out.old.items out.new.items (texts_below n (potential_text plane.now))) }
{
    for i in 0..n as usize {
        put_text(out, " ")?;
        put_number(out, plane.lam[i])?;
    }
    Ok(())
}
