ghost use Rattle.std.specs.Prelude.{◌≡◌, ◌<◌, ◌++◌, ◌∷◌, [], map, OnOk, vec_len, vec_capacity};
ghost use Rattle.rw_machine.specs.Rows.{AreForgotten};

use crate::marks::Marks;
use rw_domain::Place;
use std::alloc::AllocError;

/// The bytes of each region, in the order of the regions.
///
/// It keeps which bytes of one region are known to be forgotten, so that they aren't written again at each step.
#[derive(Debug, Drop)]
pub struct Memory<B> {
    pub(crate) rows: Vec<Vec<B>>,
    /// The byte of which nothing is known.
    pub(crate) undefined: B,
    /// What is known to be forgotten.
    pub(crate) marks: Marks,
    ghost forgotten: { AreForgotten undefined (map (λ row. row.items) rows.items) marks },
}

impl<B: Copy> Memory<B> {
    ghost use Rattle.rw_machine.specs.Running.{range_at};
    ghost use Rattle.rw_machine.specs.Views.{rows_of, HasRange};

    /// Rows, with the byte of which nothing is known.
    pub(crate) fn new(rows: Vec<Vec<B>>, undefined: B) -> Memory<B>
        ensures rows { rows_of result ≡ map (λ row. row.items) rows.items }
        ensures undefined { result.undefined ≡ undefined }
    {
        Memory {
            rows,
            undefined,
            marks: Marks::first(0, 0),
        }
    }

    /// Makes room for one more row.
    pub(crate) fn reserve(&mut self) -> Result<(), AllocError>
        ensures rows { rows_of self.new ≡ rows_of self.old }
        ensures undefined { self.new.undefined ≡ self.old.undefined }
        ensures room { OnOk result (vec_len self.new.rows < vec_capacity self.new.rows) }
    {
        self.rows.reserve(1)
    }

    /// Adds a row, for which there is room.
    pub(crate) fn push(&mut self, row: Vec<B>)
        requires { vec_len self.old.rows < vec_capacity self.old.rows }
        ensures rows { rows_of self.new ≡ rows_of self.old ++ row.items ∷ [] }
        ensures undefined { self.new.undefined ≡ self.old.undefined }
    {
        let _ = self.rows.push(row);
    }

    /// So many bytes from a place on, which are inside its region.
    pub(crate) fn range(&self, place: Place, len: u64) -> &[B]
        requires { HasRange (rows_of self.now) place len }
        ensures { result.now ≡ range_at (rows_of self.now) place len }
    {
        let row = &self.rows[place.region as usize];
        let start = place.offset as usize;
        &row[start..start + len as usize]
    }
}
