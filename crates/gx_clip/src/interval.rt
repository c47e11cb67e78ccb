ghost use Rattle.std.specs.Prelude.{◌≡◌, ◌<◌, ◌^◌, Some, unsigned_abs};
ghost use Rattle.gx_clip.specs.Interval.{whole, nearer, part};
ghost use Rattle.gx_clip.specs.Parameter.{greater};

use crate::parameter::Parameter;
use std::cmp::Ordering::{Equal, Greater, Less};

/// The parameters strictly between two, or all above one.
#[derive(Clone, Copy)]
pub struct Interval {
    pub from: Parameter,
    pub to: Option<Parameter>,
}

impl Interval {
    /// All parameters above 0.
    pub fn whole() -> Interval
        ensures { result ≡ whole }
    {
        Interval {
            from: Parameter::zero(),
            to: None,
        }
    }

    /// The part where `t * slope < gap`; nothing where no t above 0 meets that.
    pub fn part(self, slope: i128, gap: i128) -> Option<Interval>
        requires slope { unsigned_abs slope < 2 ^ 126 }
        requires gap { unsigned_abs gap < 2 ^ 126 }
        ensures { result ≡ part self slope gap }
    {
        match (slope.cmp(&0), gap.cmp(&0)) {
            (Greater, Greater) => Some(self.below(Parameter::quotient(gap, slope))),
            (Less, Less) => Some(self.above(Parameter::quotient(gap, slope))),
            (Less, _) | (Equal, Greater) => Some(self),
            // A ray that runs in the plane itself isn't inside.
            _ => None,
        }
    }

    fn below(self, end: Parameter) -> Interval
        ensures { result ≡ record { from = self.from; to = Some (nearer self.to end) } }
    {
        let to = match self.to {
            Some(to) => to.min(end),
            None => end,
        };
        Interval {
            to: Some(to),
            ..self
        }
    }

    fn above(self, start: Parameter) -> Interval
        ensures { result ≡ record { from = greater self.from start; to = self.to } }
    {
        Interval {
            from: self.from.max(start),
            ..self
        }
    }
}
