//! The printed pairs of ends in a report.

ghost use Rattle.std.specs.Prelude.{◌<◌, OnOk};
ghost use Rattle.case_types.specs.Energy.Printed.{enclosures_in};
ghost use Rattle.dec_text.specs.Appending.{Adds};
ghost use Rattle.report_text.specs.Pieces.{texts_below};
ghost use Rattle.report_text.specs.ReportText.{enclosures_text, temperature_text, pressures_text, pressure_text};

use crate::texts::put_ends;
use case_words::put_name;
use dec_text::put_text;
use pr_params::Params;
use std::alloc::AllocError;

/// Appends the pairs of ends.
pub fn put_enclosures(out: &mut Vec<u8>, params: &Params) -> Result<(), AllocError>
    ensures { OnOk result (Adds out.old.items out.new.items (let p = params.now in
        enclosures_text p.case (enclosures_in p.case.n p.two p.e p.t p.q))) }
{
    put_ends(out, "two ", params.two)?;
    put_ends(out, "e ", params.e)?;
    put_temperatures(out, params)?;
    put_pressures(out, params)?;
    Ok(())
}

/// Appends the pair of ends of each component.
fn put_temperatures(out: &mut Vec<u8>, params: &Params) -> Result<(), AllocError>
    ensures { OnOk result (Adds out.old.items out.new.items (let p = params.now in
        texts_below p.case.n (temperature_text p.case (enclosures_in p.case.n p.two p.e p.t p.q)))) }
{
    for i in 0..params.case.n as usize {
        put_temperature(out, params, i)?;
    }
    Ok(())
}

/// Appends the pair of ends of a component.
fn put_temperature(out: &mut Vec<u8>, params: &Params, i: usize) -> Result<(), AllocError>
    requires { i < params.now.case.n }
    ensures { OnOk result (Adds out.old.items out.new.items (let p = params.now in
        temperature_text p.case (enclosures_in p.case.n p.two p.e p.t p.q) i)) }
{
    put_text(out, "t ")?;
    put_name(out, &params.case.rows[i].name)?;
    put_ends(out, " ", params.t[i])?;
    Ok(())
}

/// Appends the pair of ends of each two components.
fn put_pressures(out: &mut Vec<u8>, params: &Params) -> Result<(), AllocError>
    ensures { OnOk result (Adds out.old.items out.new.items (let p = params.now in
        texts_below p.case.n (pressures_text p.case (enclosures_in p.case.n p.two p.e p.t p.q)))) }
{
    for i in 0..params.case.n as usize {
        put_pressures_of(out, params, i)?;
    }
    Ok(())
}

/// Appends the pair of ends of a component with each later one.
fn put_pressures_of(out: &mut Vec<u8>, params: &Params, i: usize) -> Result<(), AllocError>
    requires { i < params.now.case.n }
    ensures { OnOk result (Adds out.old.items out.new.items (let p = params.now in
        pressures_text p.case (enclosures_in p.case.n p.two p.e p.t p.q) i)) }
{
    for j in i + 1..params.case.n as usize {
        put_pressure(out, params, i, j)?;
    }
    Ok(())
}

/// Appends the pair of ends of two components.
fn put_pressure(out: &mut Vec<u8>, params: &Params, i: usize, j: usize) -> Result<(), AllocError>
    requires ordered { i < j }
    requires live { j < params.now.case.n }
    ensures { OnOk result (Adds out.old.items out.new.items (let p = params.now in
        pressure_text p.case (enclosures_in p.case.n p.two p.e p.t p.q) i j)) }
{
    put_text(out, "q ")?;
    put_name(out, &params.case.rows[i].name)?;
    put_text(out, " ")?;
    put_name(out, &params.case.rows[j].name)?;
    put_ends(out, " ", params.q[i * (5 - i) / 2 + j - 1])?;
    Ok(())
}
