use holders::forms::PageForm;
use holders::holder::Holder;

// A holder of pages of the form F, and the cursor that converts their values.
#[derive(Drop)]
pub struct PageDecoder<'a, F: PageForm, C> {
    pub(crate) holder: Holder<'a, F>,
    pub(crate) cursor: C,
}
