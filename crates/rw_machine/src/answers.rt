//! What an answer leaves: registers, memory, and a fresh region.

ghost use Rattle.std.specs.Prelude.{◌≡◌, ◌+◌, ◌<◌, List, map, length, slice_index_or, []};
ghost use Rattle.rw_base.specs.declared.width.Width.TheVariants.{Q};
ghost use Rattle.rw_base.specs.Width.{byte_count};
ghost use Rattle.rw_domain.specs.Eight.{eight_of};
ghost use Rattle.rw_domain.specs.Operators.{Operators};
ghost use Rattle.rw_machine.specs.Replying as Answering;
ghost use Rattle.rw_machine.specs.Replying.{stored_one, stored_rows, IsStorable, AreStorable, HaveRoom};
ghost use Rattle.rw_machine.specs.Due.{FitsRows, FitRows, IsWord, AreWords};
ghost use Rattle.rw_machine.specs.Running.{range_at};
ghost use Rattle.rw_machine.specs.Step.{one_written, due_written, all_written, all_put};
ghost use Rattle.rw_machine.specs.Views.{HasRange, registers_of, rows_of, dues_of};

use crate::memory::Memory;
use crate::registers::Registers;
use crate::running::{Due, Dues};
use crate::words::bytes;
use rw_base::Width;
use rw_domain::{Domain, Eight, Place};
use x86_insn::Reg;

/// A word that is stored, by its bytes.
#[derive(Clone, Copy)]
pub(crate) struct Store<B> {
    pub(crate) place: Place,
    pub(crate) width: Width,
    pub(crate) bytes: Eight<B>,
}

/// Words that are stored, in their order.
#[derive(Clone, Copy)]
pub(crate) enum Stores<B> {
    Nothing,
    One(Store<B>),
    Two(Store<B>, Store<B>),
}

/// A word that is due, by its bytes.
#[tactic(auto, using(crate::proofs::Places::low_bytes))]
fn store_of<D: Domain>(domain: &D, due: &Due<D::Word>) -> Store<D::Byte>
    requires { IsWord due.now }
    ensures rows { (rows : List (List D.Byte)) → stored_one result rows ≡ one_written (D.over (D.placed domain.now)) rows due.now }
    ensures storable { (rows : List (List D.Byte)) → FitsRows rows due.now → IsStorable rows result }
{
    match due {
        Due::Word { place, width, word } => Store {
            place: *place,
            width: *width,
            bytes: bytes(domain, *word, 0),
        },
        Due::Elements { .. } => unreachable!(),
    }
}

/// The words that are due, by their bytes.
pub(crate) fn stores_of<D: Domain>(domain: &D, dues: &Dues<D::Word>) -> Stores<D::Byte>
    requires { AreWords (dues_of dues.now) }
    ensures rows { (rows : List (List D.Byte)) → stored_rows (Answering.stores_of result) rows ≡ due_written (D.over (D.placed domain.now)) rows (dues_of dues.now) }
    ensures storable { (rows : List (List D.Byte)) → FitRows rows (dues_of dues.now) → AreStorable rows (Answering.stores_of result) }
{
    match dues {
        Dues::Nothing => Stores::Nothing,
        Dues::One(due) => Stores::One(store_of(domain, due)),
        Dues::Two(first, second) => Stores::Two(store_of(domain, first), store_of(domain, second)),
    }
}

/// Puts words into registers one by one; where there is no word, it is undefined.
pub(crate) fn put_words<D: Domain>(
    domain: &D,
    lost: &[Reg],
    words: &[D::Word],
    registers: &mut Registers<D::Word>,
)
    ensures { registers_of registers.new ≡ all_put (D.over (D.placed domain.now)) lost.now words.now (registers_of registers.old) }
{
    let undefined = domain.undef(Width::Q);
    for (i, r) in lost.iter().enumerate() {
        registers.set(*r, words.get(i).copied().unwrap_or(undefined));
    }
}

/// Makes all writes, one after another.
pub(crate) fn write_all<D: Domain>(memory: &mut Memory<D::Byte>, writes: &[(Place, Vec<D::Byte>)])
    requires { HaveRoom (rows_of memory.old) (map (λ w. (w.0, w.1.items)) writes.now) }
    ensures rows { (ops : Operators D.Word D.Byte) → rows_of memory.new ≡ all_written ops (map (λ w. (w.0, w.1.items)) writes.now) (rows_of memory.old) }
    ensures lengths { map length (rows_of memory.new) ≡ map length (rows_of memory.old) }
    ensures undefined { memory.new.undefined ≡ memory.old.undefined }
{
    for w in writes {
        memory.write(w.0, w.1.as_slice());
    }
}

/// The number of the byte of a stored word that lies at an offset of a region, if one does.
fn stored_index(place: Place, w: Width, region: u32, at: u64) -> Option<u8>
    ensures { result ≡ Answering.stored_index place (byte_count w) region at }
{
    if region == place.region && place.offset <= at && at - place.offset < w.bytes() as u64 {
        Some((at - place.offset) as u8)
    } else {
        None
    }
}

impl<B: Copy> Memory<B> {
    /// Stores a word.
    fn store(&mut self, s: &Store<B>)
        requires { IsStorable (rows_of self.old) s.now }
        ensures rows { rows_of self.new ≡ stored_one s.now (rows_of self.old) }
        ensures lengths { map length (rows_of self.new) ≡ map length (rows_of self.old) }
        ensures undefined { self.new.undefined ≡ self.old.undefined }
    {
        self.write_eight(s.place, s.width, &s.bytes);
    }

    /// Stores words, one after another.
    pub(crate) fn store_all(&mut self, stores: &Stores<B>)
        requires { AreStorable (rows_of self.old) (Answering.stores_of stores.now) }
        ensures rows { rows_of self.new ≡ stored_rows (Answering.stores_of stores.now) (rows_of self.old) }
        ensures lengths { map length (rows_of self.new) ≡ map length (rows_of self.old) }
        ensures undefined { self.new.undefined ≡ self.old.undefined }
    {
        match stores {
            Stores::Nothing => {}
            Stores::One(s) => self.store(s),
            Stores::Two(s, t) => {
                self.store(s);
                self.store(t);
            }
        }
    }

    /// The byte so far behind a place when words are stored: that of the last that has it.
    fn byte_after(&self, stores: &Stores<B>, place: Place, i: u8) -> B
        requires storable { AreStorable (rows_of self.now) (Answering.stores_of stores.now) }
        requires there { HasRange (rows_of self.now) place 8 }
        requires near { i < 8 }
        ensures { (d : B) → slice_index_or (slice_index_or (stored_rows (Answering.stores_of stores.now) (rows_of self.now)) place.region []) (place.offset + i) d ≡ result }
    {
        let row = &self.rows[place.region as usize];
        let at = place.offset as usize + i as usize;
        let before = row[at];
        match stores {
            Stores::Nothing => before,
            Stores::One(s) => byte_stored(s, place.region, at as u64, before),
            Stores::Two(s, t) => {
                let first = byte_stored(s, place.region, at as u64, before);
                byte_stored(t, place.region, at as u64, first)
            }
        }
    }

    /// Eight bytes from a place on when words are stored.
    fn eight_after(&self, stores: &Stores<B>, place: Place) -> Eight<B>
        requires storable { AreStorable (rows_of self.now) (Answering.stores_of stores.now) }
        requires there { HasRange (rows_of self.now) place 8 }
        ensures { eight_of result ≡ range_at (stored_rows (Answering.stores_of stores.now) (rows_of self.now)) place 8 }
    {
        Eight {
            b0: self.byte_after(stores, place, 0),
            b1: self.byte_after(stores, place, 1),
            b2: self.byte_after(stores, place, 2),
            b3: self.byte_after(stores, place, 3),
            b4: self.byte_after(stores, place, 4),
            b5: self.byte_after(stores, place, 5),
            b6: self.byte_after(stores, place, 6),
            b7: self.byte_after(stores, place, 7),
        }
    }
}

/// The byte at an offset of a region when a word is stored, where it was this one before.
fn byte_stored<B: Copy>(store: &Store<B>, region: u32, at: u64, before: B) -> B
    ensures { (rows : List (List B)) (d : B) → IsStorable rows store.now
        → slice_index_or (slice_index_or rows region []) at d ≡ before
        → slice_index_or (slice_index_or (stored_one store.now rows) region []) at d ≡ result }
{
    match stored_index(store.place, store.width, region, at) {
        Some(j) => store.bytes.get(j),
        None => before,
    }
}

/// The word of memory at a place when words are stored.
pub(crate) fn word_after<D: Domain>(
    domain: &D,
    memory: &Memory<D::Byte>,
    stores: &Stores<D::Byte>,
    place: Place,
) -> D::Word
    requires storable { AreStorable (rows_of memory.now) (Answering.stores_of stores.now) }
    requires there { HasRange (rows_of memory.now) place 8 }
    ensures { result ≡ (D.over (D.placed domain.now)).join Q (range_at (stored_rows (Answering.stores_of stores.now) (rows_of memory.now)) place 8) }
{
    domain.join(Width::Q, &memory.eight_after(stores, place))
}
