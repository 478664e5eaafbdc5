// The kinds of columns that are read, by Parquet's physical types.
#[derive(Clone, Copy, Debug, PartialEq, Eq, Hash)]
pub enum Kind {
    Boolean,
    Int32,
    Int64,
    Float,
    Double,
    ByteArray,
}

// Where a fault is found.
#[derive(Clone, Copy, Debug, PartialEq, Eq, Hash)]
pub enum Layer {
    Name,
    Open,
    Source,
    Page,
    Validity,
    Values,
    Dictionary,
    Chunk,
}

// What a fault is: a source's own number is carried inside `Source`. It is a number, since a read passes on the number of
// any source, and two names of one number would be two faults.
#[derive(Clone, Copy, Debug, PartialEq, Eq, Hash)]
pub enum Cause {
    Name,
    Open,
    Source(u8),
    Rows,
    Flag,
    Encoding,
    NoDictionary,
    Validity,
    Values,
    Index,
    Dictionary,
    ChunkRows,
    ChunkMemory,
    ChunkBytes,
}

// A fault with the number of deliveries so far, the faulty one included; 0 outside `next`.
#[derive(Clone, Copy, Debug, PartialEq, Eq, Hash)]
pub struct Fault {
    pub cause: Cause,
    pub count: u64,
}
