ghost use Rattle.std.specs.Prelude.{◌≡◌, List};
ghost use Rattle.std.specs.Option.{option_map};
ghost use Rattle.pages.specs.Delivered.{Delivered, first, others};
ghost use Rattle.pages.specs.Meaning.{meaning};

use crate::page::Delivery;

// a source of pages, by the list of its deliveries
pub trait Pages<'a> {
    ghost deliveries: { Self → List Delivered };

    fn next(&mut self) -> Option<Delivery<'a>>
        ensures gives { option_map meaning result ≡ first (deliveries self.old) }
        ensures leaves { deliveries self.new ≡ others (deliveries self.old) };
}
