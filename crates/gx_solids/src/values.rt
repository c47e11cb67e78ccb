ghost use Rattle.std.specs.Prelude.{◌≡◌, ◌≤ℤ◌, ◌<ℤ◌, ◌≤◌, pos, unsigned_abs, IfOk};
ghost use Rattle.gx_num.specs.declared.vector.TheConstants.{M};
ghost use Rattle.gx_form.specs.Form.{Exactly};
ghost use Rattle.gx_shapes.specs.Source.{Source};

use gx_form::Fault;
use gx_shapes::Scale;
use gx_table::FaultName;

/// What the values of a solid are read from.
pub trait Values {
    /// How they are read.
    ghost source: { Source Self };

    /// A length, in steps.
    fn length(&mut self) -> Result<i64, Fault>
        ensures reads { Exactly (source.length self.old) result self.new }
        ensures within { IfOk result (λ n. unsigned_abs n ≤ unsigned_abs M) };

    /// A whole number from `low` to `high`; another number has the fault `range`.
    fn whole(&mut self, low: i64, high: i64, range: FaultName) -> Result<i64, Fault>
        ensures reads { Exactly (source.whole low high range self.old) result self.new }
        ensures within { IfOk result (λ n. (low ≤ℤ n) × (n ≤ℤ high)) };

    /// A scale.
    fn scale(&mut self) -> Result<Scale, Fault>
        ensures reads { Exactly (source.scale self.old) result self.new }
        ensures positive { IfOk result (λ scale. pos 0 <ℤ scale.den) };

    /// A fault of the value that was read last.
    fn fault(&self, name: FaultName) -> Fault
        ensures { result ≡ record { place = source.place self.now; name = name } };
}
