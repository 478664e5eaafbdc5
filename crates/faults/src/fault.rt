ghost use Rattle.std.specs.Prelude.{◌≡◌};
ghost use Rattle.faults.specs.Faults.{number_of, layer_of};

use crate::types::{Cause, Layer};

// The number of a fault, by name.
pub fn number(cause: Cause) -> u8
    ensures { result ≡ number_of cause }
{
    u8::from(cause)
}

// The number of a fault.
impl From<Cause> for u8 {
    ghost from_gives = { λ cause n. n ≡ number_of cause };

    fn from(cause: Cause) -> u8 {
        match cause {
            Cause::Name => 1,
            Cause::Open => 2,
            Cause::Source(_) => 3,
            Cause::Rows => 4,
            Cause::Flag => 5,
            Cause::Encoding => 6,
            Cause::NoDictionary => 7,
            Cause::Validity => 8,
            Cause::Values => 9,
            Cause::Index => 10,
            Cause::Dictionary => 11,
            Cause::ChunkRows => 12,
            Cause::ChunkMemory => 13,
            Cause::ChunkBytes => 14,
        }
    }
}

// The layer that finds a fault, by name.
pub fn layer(cause: Cause) -> Layer
    ensures { result ≡ layer_of cause }
{
    Layer::from(cause)
}

// The layer that finds a fault.
impl From<Cause> for Layer {
    ghost from_gives = { λ cause layer. layer ≡ layer_of cause };

    fn from(cause: Cause) -> Layer {
        match cause {
            Cause::Name => Layer::Name,
            Cause::Open => Layer::Open,
            Cause::Source(_) => Layer::Source,
            Cause::Rows | Cause::Flag | Cause::Encoding | Cause::NoDictionary => Layer::Page,
            Cause::Validity => Layer::Validity,
            Cause::Values | Cause::Index => Layer::Values,
            Cause::Dictionary => Layer::Dictionary,
            Cause::ChunkRows | Cause::ChunkMemory | Cause::ChunkBytes => Layer::Chunk,
        }
    }
}
