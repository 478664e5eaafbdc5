ghost use Rattle.std.specs.Prelude.{◌≡◌, ℕ, ◌+◌, ◌-◌, ◌≤◌, Bool, true, false, ◌&&◌, List, [], ◌++◌, map, length, take, drop, is_ok, if◌then◌else◌, nat_le};
ghost use Rattle.values.specs.Values.{fits, stands, weights};
ghost use Rattle.model.specs.Model.{bits_for, bits_due};
ghost use Rattle.model.specs.Rooms.{room_for};
ghost use Rattle.holders.specs.Judge.{needed};
ghost use Rattle.sinks.specs.Memory.{SameMemory};
ghost use Rattle.holders.specs.Left.{present_left};
ghost use Rattle.holders.specs.Cursors.{to_give};
ghost use Rattle.holders.specs.Filled.{Able, filled};
ghost use Rattle.holders.specs.Holding.{held, unused_as};

use super::Holder;
use crate::cursor::{Cursor, OverPage};
use crate::decode::extend_from_decoder;
use crate::fill::extend_required;
use crate::forms::PageForm;
use crate::measure::{count_present, weigh_within};
use bitmap::utils::has_room;
use hybrid_rle::validity::OptionalPageValidity;
use sinks::pushable::{Full, Pushable, Sink, Validity};
use std::marker::PhantomData;

impl<'a, F: PageForm> Holder<'a, F> {
    // How many of the first k unused rows are present.
    fn present_among(&self, k: usize) -> usize
        requires { k ≤ self.now.rows }
        ensures { result ≡ needed (take k (present_left self.now.column.optional self.now.rows self.now.validity)) }
    {
        if !self.column.optional {
            return k;
        }
        let mut page = self.validity;
        count_present(&mut page, k)
    }

    // Whether the values of the first k unused rows take no more than `spare` bytes.
    fn bytes_fit<C: OverPage<'a>>(&self, cursor: &mut C, k: usize, spare: usize) -> bool
        requires { k ≤ self.now.rows }
        ensures { result ≡ nat_le (weights (take (needed (take k (present_left self.now.column.optional self.now.rows self.now.validity))) (map C.OverPage.value (to_give self.now.values)))) spare }
    {
        if cursor.light() {
            return true;
        }
        let n = self.present_among(k);
        cursor.load(self.values);
        weigh_within(cursor, n, spare)
    }

    // Whether there are k unused rows, and room for them. The cursor is put over the page's values for this.
    fn room_for<C: OverPage<'a>, P: Pushable<C::Item>, V: Validity>(
        &self,
        cursor: &mut C,
        k: usize,
        sink: &P,
        validity: &V,
    ) -> bool
        ensures { result ≡ room_for self.now.column.optional (P.Sink.room sink.now) (V.Validity.room validity.now) k (unused_as C.OverPage.value self.now) (P.Sink.items sink.now) (V.Validity.bits validity.now) }
    {
        if !room(
            k,
            self.rows as usize,
            sink.len(),
            sink.capacity(),
            self.column.optional,
            validity.len(),
            validity.capacity(),
        ) {
            return false;
        }
        self.bytes_fit(cursor, k, sink.spare())
    }

    // The first k unused rows go into sink and validity.
    fn append<C: OverPage<'a>, P: Pushable<C::Item>, V: Validity>(
        &mut self,
        cursor: &mut C,
        k: usize,
        sink: &mut P,
        validity: &mut V,
    )
        requires rows { k ≤ self.old.rows }
        requires fits { fits (P.Sink.room sink.old) (P.Sink.items sink.old ++ stands (P.Sink.room sink.old).blank (take k (unused_as C.OverPage.value self.old))) ≡ true }
        requires bits { bits_due self.old.column.optional (length (V.Validity.bits validity.old) + k) ≤ V.Validity.room validity.old }
        ensures unused { unused_as C.OverPage.value self.new ≡ drop k (unused_as C.OverPage.value self.old) }
        ensures held { held self.new ≡ held self.old }
        ensures column { self.new.column ≡ self.old.column }
        ensures values { P.Sink.items sink.new ≡ P.Sink.items sink.old ++ stands (P.Sink.room sink.old).blank (take k (unused_as C.OverPage.value self.old)) }
        ensures bits { V.Validity.bits validity.new ≡ V.Validity.bits validity.old ++ bits_for self.old.column.optional (take k (unused_as C.OverPage.value self.old)) }
        ensures memory { SameMemory P.Sink.room P.Sink.home sink.old sink.new × SameMemory V.Validity.room V.Validity.home validity.old validity.new }
    {
        let mut page = self.validity;
        cursor.load(self.values);
        let rows = extend_rows(
            self.column.optional,
            self.rows,
            &mut page,
            cursor,
            k,
            sink,
            validity,
        );
        // Written whole, so that its ghost fields are shown once, of the new values.
        *self = Holder {
            column: self.column,
            dict: self.dict,
            rows,
            validity: page,
            values: cursor.rest(),
            of: PhantomData,
        };
    }

    // The first k unused rows go into sink and validity, or none of them: `Full`, with nothing changed, where there are
    // fewer or no room for them. The cursor is put over the page's values for this.
    pub fn extend_from_state<C: OverPage<'a>, P: Pushable<C::Item>, V: Validity>(
        &mut self,
        cursor: &mut C,
        k: usize,
        sink: &mut P,
        validity: &mut V,
    ) -> Result<(), Full>
        ensures answer { is_ok result ≡ room_for self.old.column.optional (P.Sink.room sink.old) (V.Validity.room validity.old) k (unused_as C.OverPage.value self.old) (P.Sink.items sink.old) (V.Validity.bits validity.old) }
        ensures unused { unused_as C.OverPage.value self.new ≡ (if is_ok result then drop k (unused_as C.OverPage.value self.old) else unused_as C.OverPage.value self.old) }
        ensures held { held self.new ≡ held self.old }
        ensures column { self.new.column ≡ self.old.column }
        ensures values { P.Sink.items sink.new ≡ (if is_ok result then P.Sink.items sink.old ++ stands (P.Sink.room sink.old).blank (take k (unused_as C.OverPage.value self.old)) else P.Sink.items sink.old) }
        ensures bits { V.Validity.bits validity.new ≡ (if is_ok result then V.Validity.bits validity.old ++ bits_for self.old.column.optional (take k (unused_as C.OverPage.value self.old)) else V.Validity.bits validity.old) }
        ensures memory { SameMemory P.Sink.room P.Sink.home sink.old sink.new × SameMemory V.Validity.room V.Validity.home validity.old validity.new }
        ensures kept { is_ok result ≡ false → (self.new ≡ self.old) × (sink.new ≡ sink.old) × (validity.new ≡ validity.old) }
    {
        if !self.room_for(cursor, k, sink, validity) {
            return Err(Full);
        }
        self.append(cursor, k, sink, validity);
        Ok(())
    }
}

// The first k of a page's rows go into sink and validity, the present ones with the cursor's values. The answer is the number
// of rows after them.
fn extend_rows<'p, C: Cursor, P: Pushable<C::Item>, V: Validity>(
    optional: bool,
    rows: u32,
    page: &mut OptionalPageValidity<'p>,
    cursor: &mut C,
    k: usize,
    sink: &mut P,
    validity: &mut V,
) -> u32
    requires rows { k ≤ rows }
    requires count { length (present_left optional rows page.old) ≡ rows }
    requires able { Able (P.Sink.room sink.old) (P.Sink.items sink.old) (take k (present_left optional rows page.old)) (C.Cursor.left cursor.old) }
    requires bits { bits_due optional (length (V.Validity.bits validity.old) + k) ≤ V.Validity.room validity.old }
    ensures rows { result ≡ rows - k }
    ensures page { present_left optional (rows - k) page.new ≡ drop k (present_left optional rows page.old) }
    ensures left { C.Cursor.left cursor.new ≡ drop (needed (take k (present_left optional rows page.old))) (C.Cursor.left cursor.old) }
    ensures items { P.Sink.items sink.new ≡ P.Sink.items sink.old ++ filled (P.Sink.room sink.old).blank (take k (present_left optional rows page.old)) (C.Cursor.left cursor.old) }
    ensures bits { V.Validity.bits validity.new ≡ V.Validity.bits validity.old ++ (if optional then take k (present_left optional rows page.old) else []) }
    ensures memory { SameMemory P.Sink.room P.Sink.home sink.old sink.new × SameMemory V.Validity.room V.Validity.home validity.old validity.new }
{
    if optional {
        extend_from_decoder(validity, page, k, sink, cursor);
    } else {
        extend_required(k, sink, cursor);
    }
    rows - k as u32
}

// Whether there are k rows, and room for them in rows and validity bits.
fn room(
    k: usize,
    left: usize,
    rows: usize,
    cap: usize,
    optional: bool,
    bits: usize,
    most: usize,
) -> bool
    ensures { result ≡ (nat_le k left && nat_le (rows + k) cap && nat_le (bits_due optional (bits + k)) most) }
{
    k <= left && has_room(rows, k, cap) && (!optional || has_room(bits, k, most))
}
