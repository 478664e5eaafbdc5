// The forms as types, so that a holder of one form cannot be taken for a holder of another.
ghost use Rattle.std.specs.Prelude.{◌≡◌};
ghost use Rattle.holders.specs.declared.types.Form.{Form};

use crate::types::Form;

// A form that is known where the program is compiled.
pub trait PageForm {
    ghost form: { Form };

    fn form() -> Form
        ensures { result ≡ form };
}

// Values of four bytes each.
#[derive(Clone, Copy)]
pub struct Four;

impl PageForm for Four {
    ghost form = { Form.Four };

    fn form() -> Form {
        Form::Four
    }
}

// Values of eight bytes each.
#[derive(Clone, Copy)]
pub struct Eight;

impl PageForm for Eight {
    ghost form = { Form.Eight };

    fn form() -> Form {
        Form::Eight
    }
}

// Bits.
#[derive(Clone, Copy)]
pub struct Bits;

impl PageForm for Bits {
    ghost form = { Form.Bits };

    fn form() -> Form {
        Form::Bits
    }
}

// Byte values, each after its length.
#[derive(Clone, Copy)]
pub struct Arrays;

impl PageForm for Arrays {
    ghost form = { Form.Arrays };

    fn form() -> Form {
        Form::Arrays
    }
}
