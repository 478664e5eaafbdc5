ghost use Rattle.std.specs.Prelude.{◌≡◌, [], length, None};
ghost use Rattle.pages.specs.Meaning.{meaning};
ghost use Rattle.holders.specs.Judge.{judge};
ghost use Rattle.holders.specs.Holding.{unused, held, answered, rows_after, held_after, page_verdict, dict_verdict};

use super::Holder;
use crate::checks::{few, plain_fits};
use crate::forms::PageForm;
use crate::page::checked_page;
use crate::page_values::PageValues;
use crate::types::{Column, Dict, Form};
use faults::types::Cause;
use hybrid_rle::validity::OptionalPageValidity;
use pages::page::{DataPage, Delivery, DictPage, Page};
use std::marker::PhantomData;

impl<'a, F: PageForm> Holder<'a, F> {
    // No page and no dictionary.
    pub fn empty(optional: bool) -> Self
        ensures rows { unused result ≡ [] }
        ensures dict { held result ≡ None }
        ensures form { result.column.form ≡ F.PageForm.form }
        ensures flag { result.column.optional ≡ optional }
    {
        Holder {
            column: Column {
                form: F::form(),
                optional,
            },
            dict: None,
            rows: 0,
            validity: OptionalPageValidity::empty(),
            values: PageValues::empty(),
            of: PhantomData,
        }
    }

    // Whether a row may be null.
    pub fn optional(&self) -> bool
        ensures { result ≡ self.now.column.optional }
    {
        self.column.optional
    }

    // The rows not used yet.
    pub fn unused(&self) -> u32
        ensures { result ≡ length (unused self.now) }
    {
        self.rows
    }

    // Takes in a dictionary page.
    fn hold_dict(&mut self, p: DictPage<'a>) -> Result<(), Cause>
        ensures answer { result ≡ answered (dict_verdict self.old p.entry.entries p.entry.body.now) }
        ensures rows { unused self.new ≡ rows_after (dict_verdict self.old p.entry.entries p.entry.body.now) (unused self.old) }
        ensures dict { held self.new ≡ held_after (dict_verdict self.old p.entry.entries p.entry.body.now) (held self.old) }
        ensures column { self.new.column ≡ self.old.column }
    {
        let form = self.column.form;
        if form == Form::Bits {
            return Ok(());
        }
        few(p.entries)?;
        if !plain_fits(form, false, p.entries as usize, p.body) {
            return Err(Cause::Dictionary);
        }
        self.dict = Some(Dict {
            form,
            entries: p.entries,
            body: p.body,
        });
        Ok(())
    }

    // Takes in a data page.
    fn hold_page(&mut self, p: DataPage<'a>) -> Result<(), Cause>
        ensures answer { result ≡ answered (page_verdict self.old p.entry.rows p.entry.encoding p.entry.optional p.entry.body.now) }
        ensures rows { unused self.new ≡ rows_after (page_verdict self.old p.entry.rows p.entry.encoding p.entry.optional p.entry.body.now) (unused self.old) }
        ensures dict { held self.new ≡ held_after (page_verdict self.old p.entry.rows p.entry.encoding p.entry.optional p.entry.body.now) (held self.old) }
        ensures column { self.new.column ≡ self.old.column }
    {
        let mut validity = OptionalPageValidity::empty();
        let values = checked_page(self.column, self.dict, &mut validity, p)?;
        // Written whole, so that its ghost fields are shown once, of the new values.
        *self = Holder {
            column: self.column,
            dict: self.dict,
            rows: p.rows,
            validity,
            values,
            of: PhantomData,
        };
        Ok(())
    }

    // Checks a delivery whole, and holds it if it is sound; a refusal changes nothing.
    pub fn hold(&mut self, d: Delivery<'a>) -> Result<(), Cause>
        ensures answer { result ≡ answered (judge self.old.column.form self.old.column.optional (held self.old) (meaning d.entry)) }
        ensures rows { unused self.new ≡ rows_after (judge self.old.column.form self.old.column.optional (held self.old) (meaning d.entry)) (unused self.old) }
        ensures dict { held self.new ≡ held_after (judge self.old.column.form self.old.column.optional (held self.old) (meaning d.entry)) (held self.old) }
        ensures column { self.new.column ≡ self.old.column }
    {
        match d? {
            Page::Data(p) => self.hold_page(p),
            Page::Dict(p) => self.hold_dict(p),
        }
    }
}
