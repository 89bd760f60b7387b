//! Mixtures of up to four components.

ghost use Rattle.std.specs.Prelude.{◌≡◌, ◌≤◌, [], ◌∷◌, map, pos};

use crate::cases::{equal_parts, nameless};
use case_types::{Case, SLOTS};

/// Equal parts of `n` like components, each at its critical point, 300 K and 10 bar.
pub fn like_components(n: u8) -> Case
    requires some { 1 ≤ n }
    requires few { n ≤ 4 }
    ensures count { result.n ≡ n }
    ensures parts { result.z ≡ 1 ∷ 1 ∷ 1 ∷ 1 ∷ [] }
    ensures tc { map (λ r. r.tc) result.rows ≡ 300000 ∷ 300000 ∷ 300000 ∷ 300000 ∷ [] }
    ensures pc { map (λ r. r.pc) result.rows ≡ 1000000 ∷ 1000000 ∷ 1000000 ∷ 1000000 ∷ [] }
    ensures w { map (λ r. r.w) result.rows ≡ pos 0 ∷ pos 0 ∷ pos 0 ∷ pos 0 ∷ [] }
    ensures t { result.t ≡ 300000 }
    ensures p { result.p ≡ 1000000 }
{
    let critical = nameless(300_000, 1_000_000, 0);
    equal_parts(
        n,
        [critical; SLOTS],
        [[0; SLOTS]; SLOTS],
        300_000,
        1_000_000,
    )
}

/// Equal parts of the first `n` of methane, propane, decane and nitrogen, at 300 K and 50 bar.
pub fn methane_to_nitrogen(n: u8) -> Case
    requires some { 1 ≤ n }
    requires few { n ≤ 4 }
    ensures count { result.n ≡ n }
    ensures parts { result.z ≡ 1 ∷ 1 ∷ 1 ∷ 1 ∷ [] }
    ensures tc { map (λ r. r.tc) result.rows ≡ 190564 ∷ 369830 ∷ 617700 ∷ 126200 ∷ [] }
    ensures pc { map (λ r. r.pc) result.rows ≡ 4599200 ∷ 4248000 ∷ 2110000 ∷ 3400000 ∷ [] }
    ensures w { map (λ r. r.w) result.rows ≡ pos 114 ∷ pos 1523 ∷ pos 4923 ∷ pos 372 ∷ [] }
    ensures t { result.t ≡ 300000 }
    ensures p { result.p ≡ 5000000 }
{
    let rows = [
        nameless(190_564, 4_599_200, 114),
        nameless(369_830, 4_248_000, 1_523),
        nameless(617_700, 2_110_000, 4_923),
        nameless(126_200, 3_400_000, 372),
    ];
    let interactions = [
        [0, 0, 422, 311],
        [0, 0, 0, 852],
        [422, 0, 0, 0],
        [311, 852, 0, 0],
    ];
    equal_parts(n, rows, interactions, 300_000, 5_000_000)
}

/// Equal parts of the first `n` of ethane, butane, carbon dioxide and benzene, at 350 K and 40 bar.
pub fn ethane_to_benzene(n: u8) -> Case
    requires some { 1 ≤ n }
    requires few { n ≤ 4 }
    ensures count { result.n ≡ n }
    ensures parts { result.z ≡ 1 ∷ 1 ∷ 1 ∷ 1 ∷ [] }
    ensures tc { map (λ r. r.tc) result.rows ≡ 305320 ∷ 425120 ∷ 304128 ∷ 562050 ∷ [] }
    ensures pc { map (λ r. r.pc) result.rows ≡ 4872000 ∷ 3796000 ∷ 7377300 ∷ 4895000 ∷ [] }
    ensures w { map (λ r. r.w) result.rows ≡ pos 995 ∷ pos 2002 ∷ pos 2239 ∷ pos 2103 ∷ [] }
    ensures t { result.t ≡ 350000 }
    ensures p { result.p ≡ 4000000 }
{
    let rows = [
        nameless(305_320, 4_872_000, 995),
        nameless(425_120, 3_796_000, 2_002),
        nameless(304_128, 7_377_300, 2_239),
        nameless(562_050, 4_895_000, 2_103),
    ];
    let interactions = [
        [0, 0, 1_322, 0],
        [0, 0, 1_333, 0],
        [1_322, 1_333, 0, 774],
        [0, 0, 774, 0],
    ];
    equal_parts(n, rows, interactions, 350_000, 4_000_000)
}
