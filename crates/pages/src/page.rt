use crate::fault::SourceFault;

// A data page: rows, their encoding, whether a row may be null, and the body. The encoding is the number that the page has: any
// number may stand there, and the check of the page refuses those that are not read.
#[derive(Clone, Copy)]
pub struct DataPage<'a> {
    pub rows: u32,
    pub encoding: u8,
    pub optional: bool,
    pub body: &'a [u8],
}

// A dictionary page: the number of its entries, and the body.
#[derive(Clone, Copy)]
pub struct DictPage<'a> {
    pub entries: u32,
    pub body: &'a [u8],
}

// A page of either sort.
#[derive(Clone, Copy)]
pub enum Page<'a> {
    Data(DataPage<'a>),
    Dict(DictPage<'a>),
}

// One delivery of a source: a page, or the source's own fault.
pub type Delivery<'a> = Result<Page<'a>, SourceFault>;
