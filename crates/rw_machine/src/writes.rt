ghost use Rattle.std.specs.Prelude.{◌≡◌, ◌+◌, ◌≤◌, Some, [], ◌∷◌, length, take, map, replicate};
ghost use Rattle.rw_machine.specs.Replying.{forgotten_to, IsReached};
ghost use Rattle.rw_machine.specs.Running.{row_written, written_at};
ghost use Rattle.rw_machine.specs.Rows.{byte_at, front_replaced, AreMarked};
ghost use Rattle.rw_machine.specs.Views.{HasRange, rows_of};
ghost use Rattle.rw_base.specs.Width.{byte_count};
ghost use Rattle.rw_domain.specs.Eight.{eight_of};

use crate::marks::Marks;
use crate::memory::Memory;
use rw_base::Width;
use rw_domain::{Eight, Place};

/// Writes bytes into a row, from an offset on, and says up to which.
fn overwrite<B: Copy>(row: &mut [B], offset: usize, bytes: &[B]) -> usize
    requires { offset + length bytes.now ≤ length row.old }
    ensures row { row.new ≡ row_written row.old offset bytes.now }
    ensures end { result ≡ offset + length bytes.now }
{
    let end = offset + bytes.len();
    row[offset..end].copy_from_slice(bytes);
    end
}

/// Writes a word's bytes into a row, from an offset on, and says up to which.
fn overwrite_word<B: Copy>(row: &mut [B], offset: usize, w: Width, bytes: &Eight<B>) -> usize
    requires { offset + byte_count w ≤ length row.old }
    ensures row { row.new ≡ row_written row.old offset (take (byte_count w) (eight_of bytes.now)) }
    ensures end { result ≡ offset + byte_count w }
{
    for i in 0..w.bytes() {
        row[offset + i as usize] = bytes.get(i);
    }
    offset + w.bytes() as usize
}

/// Writes one byte into the first places of a row, some of which hold it already.
fn replace_front<B: Copy>(row: &mut [B], done: usize, count: usize, b: B)
    requires there { count ≤ length row.old }
    requires less { done ≤ count }
    requires done { take done row.old ≡ replicate done b }
    ensures { row.new ≡ front_replaced row.old count b }
{
    for i in done..count {
        row[i] = b;
    }
}

/// Forgets the first bytes of a row, and says of how many it is then known. Those that are marked are forgotten already,
/// and aren't written.
fn forget_row<B: Copy>(row: &mut [B], marks: Marks, count: usize, b: B) -> usize
    requires there { count ≤ length row.old }
    requires marked { AreMarked b row.old marks }
    ensures row { row.new ≡ front_replaced row.old count b }
    ensures known { take result row.new ≡ replicate result b }
{
    if count <= marks.count {
        return marks.count;
    }
    if count < marks.from {
        replace_front(row, marks.count, count, b);
        return count;
    }
    let known = marks.from.max(marks.to);
    replace_front(row, marks.count.min(marks.from), marks.from, b);
    replace_front(row, known.min(count), count, b);
    known.max(count)
}

impl<B: Copy> Memory<B> {
    /// The byte at a place, if there is one.
    pub(crate) fn byte(&self, at: Place) -> Option<B>
        ensures { result ≡ byte_at (rows_of self.now) at }
    {
        let row = self.rows.get(at.region as usize)?;
        row.get(at.offset as usize).copied()
    }

    /// Writes bytes at a place.
    pub(crate) fn write(&mut self, at: Place, bytes: &[B])
        requires { HasRange (rows_of self.old) at (length bytes.now) }
        ensures rows { rows_of self.new ≡ written_at (rows_of self.old) at bytes.now }
        ensures lengths { map length (rows_of self.new) ≡ map length (rows_of self.old) }
        ensures undefined { self.new.undefined ≡ self.old.undefined }
    {
        let end = overwrite(
            &mut self.rows[at.region as usize],
            at.offset as usize,
            bytes,
        );
        self.marks = self.marks.without(at, end);
    }

    /// Writes a word's bytes at a place.
    pub(crate) fn write_eight(&mut self, at: Place, w: Width, bytes: &Eight<B>)
        requires { HasRange (rows_of self.old) at (byte_count w) }
        ensures rows { rows_of self.new ≡ written_at (rows_of self.old) at (take (byte_count w) (eight_of bytes.now)) }
        ensures lengths { map length (rows_of self.new) ≡ map length (rows_of self.old) }
        ensures undefined { self.new.undefined ≡ self.old.undefined }
    {
        let end = overwrite_word(
            &mut self.rows[at.region as usize],
            at.offset as usize,
            w,
            bytes,
        );
        self.marks = self.marks.without(at, end);
    }

    /// Writes a byte at a place.
    pub(crate) fn write_byte(&mut self, at: Place, b: B)
        requires { HasRange (rows_of self.old) at 1 }
        ensures rows { rows_of self.new ≡ written_at (rows_of self.old) at (b ∷ []) }
        ensures lengths { map length (rows_of self.new) ≡ map length (rows_of self.old) }
        ensures undefined { self.new.undefined ≡ self.old.undefined }
    {
        let row = &mut self.rows[at.region as usize];
        row[at.offset as usize] = b;
        self.marks = self.marks.without(at, at.offset as usize + 1);
    }

    /// Forgets the bytes of a region up to a place.
    pub(crate) fn forget(&mut self, up_to: Option<Place>)
        requires { IsReached (rows_of self.old) up_to }
        ensures rows { rows_of self.new ≡ forgotten_to self.old.undefined up_to (rows_of self.old) }
        ensures lengths { map length (rows_of self.new) ≡ map length (rows_of self.old) }
        ensures undefined { self.new.undefined ≡ self.old.undefined }
    {
        if let Some(place) = up_to {
            self.forget_front(place);
        }
    }

    fn forget_front(&mut self, up_to: Place)
        requires { HasRange (rows_of self.old) up_to 1 }
        ensures rows { rows_of self.new ≡ forgotten_to self.old.undefined (Some up_to) (rows_of self.old) }
        ensures lengths { map length (rows_of self.new) ≡ map length (rows_of self.old) }
        ensures undefined { self.new.undefined ≡ self.old.undefined }
    {
        let marks = self.marks.within(up_to.region);
        let row = &mut self.rows[up_to.region as usize];
        let known = forget_row(row, marks, up_to.offset as usize + 1, self.undefined);
        self.marks = Marks::first(up_to.region, known);
    }
}
