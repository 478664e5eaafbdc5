ghost use Rattle.std.specs.Prelude.{◌≡◌, false, List, [], ◌++◌, length, take, drop, is_ok, if◌then◌else◌, None, Option as Maybe};
ghost use Rattle.values.specs.Values.{Row, stands};
ghost use Rattle.pages.specs.Meaning.{meaning};
ghost use Rattle.sinks.specs.Memory.{SameMemory};
ghost use Rattle.model.specs.Model.{Column, Dict, verdict, held_after, bits_for};
ghost use Rattle.model.specs.Rooms.{answered, rows_after, room_for};

use faults::types::Cause;
use pages::page::Delivery;
use sinks::pushable::{Full, Sink, Validity};

// What a read needs of a column: it holds one page and one dictionary, and gives the page's rows to a sink and its validity.
pub trait Decoder<'a, P: Sink, V: Validity> {
    ghost column: { Self → Column };

    // the rows of the held page that are not used
    ghost unused: { Self → List Row };

    ghost held: { Self → Maybe Dict };

    fn optional(&self) -> bool
        ensures { result ≡ (column self.now).optional };

    // The number of unused rows.
    fn len(&self) -> usize
        ensures { result ≡ length (unused self.now) };

    // Checks a delivery whole and holds it if it is sound. A fault changes nothing that is held.
    fn build_state(&mut self, d: Delivery<'a>) -> Result<(), Cause>
        ensures answer { result ≡ answered (verdict (column self.old) (held self.old) (meaning d.entry)) }
        ensures column { column self.new ≡ column self.old }
        ensures unused { unused self.new ≡ rows_after (verdict (column self.old) (held self.old) (meaning d.entry)) (unused self.old) }
        ensures held { held self.new ≡ held_after (verdict (column self.old) (held self.old) (meaning d.entry)) (held self.old) };

    // The first k unused rows go into sink and validity; `Full`, with nothing changed, where there are fewer or they do not fit.
    fn extend_from_state(&mut self, k: usize, sink: &mut P, validity: &mut V) -> Result<(), Full>
        ensures answer { is_ok result ≡ room_for (column self.old).optional (P.Sink.room sink.old) (V.Validity.room validity.old) k (unused self.old) (P.Sink.items sink.old) (V.Validity.bits validity.old) }
        ensures column { column self.new ≡ column self.old }
        ensures unused { unused self.new ≡ (if is_ok result then drop k (unused self.old) else unused self.old) }
        ensures held { held self.new ≡ held self.old }
        ensures values { P.Sink.items sink.new ≡ (if is_ok result then P.Sink.items sink.old ++ stands (P.Sink.room sink.old).blank (take k (unused self.old)) else P.Sink.items sink.old) }
        ensures bits { V.Validity.bits validity.new ≡ (if is_ok result then V.Validity.bits validity.old ++ bits_for (column self.old).optional (take k (unused self.old)) else V.Validity.bits validity.old) }
        ensures memory { SameMemory P.Sink.room P.Sink.home sink.old sink.new × SameMemory V.Validity.room V.Validity.home validity.old validity.new }
        ensures kept { is_ok result ≡ false → (sink.new ≡ sink.old) × (validity.new ≡ validity.old) };
}
