ghost use Rattle.std.specs.Prelude.{◌≡◌, ◌<◌, ◌≤◌, true, false, is_some, Some};
ghost use Rattle.holders.specs.Judge as judge;
ghost use Rattle.holders.specs.Entries.{nth_in};
ghost use Rattle.holders.specs.Left.{dict_entries};

use crate::arrays::counted;
use crate::types::{Dict, Form};

// The ith of n values, by going over those before it. Beside `arrays_fit`, which asks whether they are there: an Option would have to
// be ruled out here by the same proof.
fn array_at<'a>(bytes: &'a [u8], n: usize, i: usize) -> &'a [u8]
    requires { (is_some (judge.arrays_in n bytes.now) ≡ true) × (i < n) }
    ensures { Some result.now ≡ nth_in (judge.arrays_in n bytes.now) i }
{
    let mut rest = bytes;
    for _k in 0..i {
        let Some((_value, after)) = counted(rest) else {
            return unreachable();
        };
        rest = after;
    }
    let Some((value, _after)) = counted(rest) else {
        return unreachable();
    };
    value
}

// The ith element of w bytes.
fn part_at<'a>(bytes: &'a [u8], w: usize, n: usize, i: usize) -> &'a [u8]
    requires { (is_some (judge.fixed w false n bytes.now) ≡ true) × ((i < n) × ((w ≤ 8) × (n ≤ 1048576))) }
    ensures { Some result.now ≡ nth_in (judge.fixed w false n bytes.now) i }
{
    let at = i * w;
    &bytes[at..at + w]
}

impl<'a> Dict<'a> {
    // The bytes of an entry: the rule of each form in one match.
    pub(crate) fn get(self, i: usize) -> &'a [u8]
        requires { i < self.entries }
        ensures { Some result.now ≡ nth_in (dict_entries self.entry) i }
    {
        let n = self.entries as usize;
        match self.form {
            Form::Four => part_at(self.body, 4, n, i),
            Form::Eight => part_at(self.body, 8, n, i),
            Form::Bits => unreachable(),
            Form::Arrays => array_at(self.body, n, i),
        }
    }
}
