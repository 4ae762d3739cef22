//! What is known to be forgotten.

ghost use Rattle.std.specs.Prelude.{◌≡◌, ◌==◌, if◌then◌else◌};
ghost use Rattle.rw_machine.specs.Rows.{first_marks, marks_left};

use rw_domain::Place;

/// Bytes of one region that are known to be forgotten: the first `count`, and those from one offset up to another.
#[derive(Clone, Copy, Debug)]
pub(crate) struct Marks {
    pub(crate) region: u32,
    pub(crate) count: usize,
    pub(crate) from: usize,
    pub(crate) to: usize,
}

impl Marks {
    /// So many first bytes of a region.
    pub(crate) fn first(region: u32, count: usize) -> Marks
        ensures { result ≡ first_marks region count }
    {
        Marks {
            region,
            count,
            from: 0,
            to: count,
        }
    }

    /// The marks in a region; of another region nothing is known.
    pub(crate) fn within(self, region: u32) -> Marks
        ensures { result ≡ (if region == self.region then self else first_marks region 0) }
    {
        if region == self.region {
            self
        } else {
            Marks::first(region, 0)
        }
    }

    /// The marks that a write from a place up to an offset leaves: those before it, and those behind it.
    pub(crate) fn without(self, at: Place, end: usize) -> Marks
        ensures { result ≡ marks_left self at end }
    {
        if at.region == self.region {
            Marks {
                count: self.count.min(at.offset as usize),
                from: self.from.max(end),
                ..self
            }
        } else {
            self
        }
    }
}
