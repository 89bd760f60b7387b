//! An energy from its terms.

ghost use Rattle.std.specs.Prelude.{◌≡◌, ◌≤◌, ◌^◌, ◌+◌, ◌+ℤ◌, ◌-ℤ◌, unsigned_abs};

/// The terms of an energy together, in 2^-40 bit: the mixing terms and the volume term, less the logarithms of the mean
/// co-volume and of what the packing leaves of 1 and less the attraction term.
pub fn energy_of_terms(
    mixing: i128,
    volume: i128,
    log_covolume: i128,
    log_rest: i128,
    attraction: i128,
) -> i128
    requires mixing { unsigned_abs mixing ≤ 2 ^ 50 }
    requires volume { unsigned_abs volume ≤ 2 ^ 87 }
    requires log_covolume { unsigned_abs log_covolume ≤ 2 ^ 47 }
    requires log_rest { unsigned_abs log_rest ≤ 2 ^ 47 }
    requires attraction { unsigned_abs attraction ≤ 2 ^ 48 }
    ensures value { result ≡ mixing +ℤ volume -ℤ log_covolume -ℤ log_rest -ℤ attraction }
    ensures small { unsigned_abs result ≤ 2 ^ 88 }
    ensures sum { unsigned_abs result ≤ unsigned_abs mixing + unsigned_abs volume + unsigned_abs log_covolume + unsigned_abs log_rest + unsigned_abs attraction }
{
    mixing + volume - log_covolume - log_rest - attraction
}
