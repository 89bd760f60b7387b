//! The tests of a head beside its form.

ghost use Rattle.std.specs.Prelude.{◌≡◌, ◌≤◌, ◌<◌, ◌^◌, ◌-ℤ◌, true, false, map, Some, None, IfSome, IfNone, IfOk, IfErr, unsigned_abs};
ghost use Rattle.std.specs.Ordering.{int_eq};
ghost use Rattle.case_types.specs.Arithmetic.Bounds.{plane_at};
ghost use Rattle.log_laws.specs.Interval.{ends_of};
ghost use Rattle.log_laws.specs.Sums.{all_below};
ghost use Rattle.case_types.specs.Arithmetic.Numbers.{enclosures_of};
ghost use Rattle.case_types.specs.Arithmetic.Tables.{ends_at};
ghost use Rattle.case_types.specs.Energy.Divisions.{Divides, division_of, parts_in};
ghost use Rattle.case_types.specs.Energy.Instances.{pair_place};
ghost use Rattle.cert_format.specs.Heads.{IsHead};
ghost use Rattle.cert_check.specs.Tests.{first_broken, first_unbalanced, adds_up_at, is_energy, is_gap, are_good_params, are_same, states_pairs};

use crate::broken::Broken;
use box_search::plane_at_feed;
use case_types::Split;
use cert_format::{CertParams, Head};
use log_laws::Iv;
use pr_params::{Params, params};
use pr_surface::split_energy;

/// The parameters of a head that passes its tests, or the first test that breaks.
#[tactic(auto, unfolding(crate::specs::Tests::first_broken))]
pub fn first_broken(head: &Head) -> Result<Params, Broken>
    requires { IsHead head.now }
    ensures same { IfOk result (λ p. p.case ≡ head.now.params.case) }
    ensures whole { IfOk result (λ p. first_broken head.now ≡ None) }
    ensures broken { IfErr result (λ b. first_broken head.now ≡ Some b) }
{
    let Some(params) = good_params(&head.params) else {
        return Err(Broken::Params);
    };
    if let Some(component) = first_unbalanced(head) {
        return Err(Broken::Balance(component));
    }
    if !is_energy(head, &params) {
        return Err(Broken::Energy);
    }
    if !is_gap(head) {
        return Err(Broken::Gap);
    }
    Ok(params)
}

/// The parameters of a case that breaks none of their ranges and whose stated pairs of ends are its own.
#[tactic(auto, unfolding(crate::specs::Tests::are_good_params))]
fn good_params(stated: &CertParams) -> Option<Params>
    ensures same { IfSome result (λ p. p.case ≡ stated.now.case) }
    ensures good { IfSome result (λ p. are_good_params stated.now ≡ true) }
    ensures bad { IfNone result (are_good_params stated.now ≡ false) }
{
    let params = params(&stated.case).ok()?;
    if states_pairs(stated, &params) {
        Some(params)
    } else {
        None
    }
}

/// The stated pairs of ends are those of the parameters.
fn states_pairs(stated: &CertParams, params: &Params) -> bool
    requires { params.now.case ≡ stated.now.case }
    ensures { result ≡ states_pairs stated.now (enclosures_of stated.now.case) }
{
    are_same(&stated.two, &params.two)
        && are_same(&stated.e, &params.e)
        && states_temperature_roots(stated, params)
        && states_pressure_roots(stated, params)
}

/// The stated roots of T/Tc are those of the parameters.
fn states_temperature_roots(stated: &CertParams, params: &Params) -> bool
    requires { params.now.case ≡ stated.now.case }
    ensures { result ≡ all_below stated.now.case.n (λ i. are_same (ends_at (map ends_of stated.now.t) i) (ends_at (enclosures_of stated.now.case).temperature_roots i)) }
{
    for i in 0..stated.case.n as usize {
        if !are_same(&stated.t[i], &params.t[i]) {
            return false;
        }
    }
    true
}

/// The stated roots of the products of two critical pressures are those of the parameters.
fn states_pressure_roots(stated: &CertParams, params: &Params) -> bool
    requires { params.now.case ≡ stated.now.case }
    ensures { result ≡ all_below stated.now.case.n (λ j. all_below j (λ i. are_same (ends_at (map ends_of stated.now.q) (pair_place i j)) (ends_at (enclosures_of stated.now.case).pressure_roots (pair_place i j)))) }
{
    for j in 0..stated.case.n as usize {
        if !states_pressure_roots_with(stated, params, j) {
            return false;
        }
    }
    true
}

/// So are those of a component and each one before it.
fn states_pressure_roots_with(stated: &CertParams, params: &Params, j: usize) -> bool
    requires same { params.now.case ≡ stated.now.case }
    requires live { j < stated.now.case.n }
    ensures { result ≡ all_below j (λ i. are_same (ends_at (map ends_of stated.now.q) (pair_place i j)) (ends_at (enclosures_of stated.now.case).pressure_roots (pair_place i j))) }
{
    for i in 0..j {
        let place = pair_place(i, j);
        if !are_same(&stated.q[place], &params.q[place]) {
            return false;
        }
    }
    true
}

/// The ends are the same.
fn are_same(a: &Iv, b: &Iv) -> bool
    ensures { result ≡ are_same (ends_of a.now) (ends_of b.now) }
{
    a.lo == b.lo && a.hi == b.hi
}

/// The first component, from 1, whose parts aren't its share of the feed.
#[tactic(auto, unfolding(crate::specs::Tests::first_unbalanced))]
fn first_unbalanced(head: &Head) -> Option<u8>
    ensures { result ≡ first_unbalanced head.now }
{
    for i in 0..head.params.case.n {
        if !adds_up_at(head, i as usize) {
            return Some(i + 1);
        }
    }
    None
}

/// The parts of a component in all phases are its share of the feed.
fn adds_up_at(head: &Head, i: usize) -> bool
    requires { i < head.now.params.case.n }
    ensures { result ≡ adds_up_at head.now i }
{
    let case = &head.params.case;
    case.total as u128 * parts_of(&head.split, i) == case.z[i] as u128 * head.split.sum
}

/// How many parts of a component the phases have together.
fn parts_of(split: &Split, component: usize) -> u128
    requires { component < 4 }
    ensures value { result ≡ parts_in (division_of split.now).phases component }
    ensures small { result < 2 ^ 107 }
{
    let mut parts = 0;
    for phase in split.phases.iter() {
        parts += phase.parts[component];
    }
    parts
}

/// The place of a pair among the roots of products of critical pressures.
fn pair_place(i: usize, j: usize) -> usize
    requires ordered { i < j }
    requires few { j < 4 }
    ensures value { result ≡ pair_place i j }
    ensures inside { result < 6 }
{
    i * (5 - i) / 2 + j - 1
}

/// The stated energy is that of the split.
fn is_energy(head: &Head, params: &Params) -> bool
    requires head { IsHead head.now }
    requires same { params.now.case ≡ head.now.params.case }
    requires divides { Divides head.now.params.case (division_of head.now.split) }
    ensures { result ≡ is_energy head.now }
{
    is_same(head.u, split_energy(params, &head.split))
}

/// The stated gap is the energy, less the plane at the feed, less the low.
fn is_gap(head: &Head) -> bool
    requires { IsHead head.now }
    ensures { result ≡ is_gap head.now }
{
    is_same(head.gap, gap_of(head))
}

/// The energy, less the plane at the feed, less the low.
fn gap_of(head: &Head) -> i128
    requires { IsHead head.now }
    ensures value { result ≡ (head.now.u -ℤ plane_at head.now.params.case.n head.now.plane.lam head.now.params.case.z head.now.params.case.total) -ℤ head.now.low }
    ensures small { unsigned_abs result ≤ 2 ^ 116 }
{
    head.u - plane_at_feed(&head.params.case, &head.plane) - head.low
}

/// The numbers are the same.
fn is_same(a: i128, b: i128) -> bool
    requires one { unsigned_abs a ≤ 2 ^ 116 }
    requires other { unsigned_abs b ≤ 2 ^ 116 }
    ensures { result ≡ int_eq a b }
{
    a == b
}
