//! The count of faults of an end.

ghost use Rattle.std.specs.Prelude.{◌≡◌, ◌+◌, ◌-◌, ◌^◌, ◌<◌, min, true, false};

/// How many calls failed, and whether the last one did.
#[derive(Drop)]
pub struct Tally {
    pub faults: u64,
    pub failed: bool,
    ghost counter: { faults < 2 ^ 64 },
}

impl Tally {
    /// The tally before the first call.
    pub fn new() -> Self
        ensures faults { result.faults ≡ 0 }
        ensures failed { result.failed ≡ false }
    {
        Tally {
            faults: 0,
            failed: false,
        }
    }

    /// Notes a call that failed. The count stops at its type's last value.
    pub fn note_failure(&mut self)
        ensures faults { self.new.faults ≡ min (self.old.faults + 1) (2 ^ 64 - 1) }
        ensures failed { self.new.failed ≡ true }
    {
        self.faults = self.faults.saturating_add(1);
        self.failed = true;
    }

    /// Notes a call that did not fail.
    pub fn note_success(&mut self)
        ensures faults { self.new.faults ≡ self.old.faults }
        ensures failed { self.new.failed ≡ false }
    {
        self.failed = false;
    }
}
