// The pairs of an order file by place.
ghost use Rattle.std.specs.Prelude.{◌≡◌, ◌+◌, ◌*◌, ◌<◌, ◌≤◌, length};
ghost use Rattle.walk.specs.Places.{order_pair};

use specification::{Call, Lot};

// An order file, with room for its count of pairs.
#[derive(Clone, Copy)]
pub struct Pairs<'a> {
    pub order: &'a [u8],
    pub count: usize,
    pub ghost room: { 7 + 2 * count ≤ length order.now },
}

impl<'a> Pairs<'a> {
    // The pair at a place.
    pub fn at(&self, place: usize) -> (Lot, Call)
        requires { place < self.now.count }
        ensures lot { result.0.0 ≡ (order_pair self.now.order.now place).lot }
        ensures call { result.1.0 ≡ (order_pair self.now.order.now place).call }
    {
        let at = 7 + 2 * place;
        (
            Lot(usize::from(self.order[at])),
            Call(usize::from(self.order[at + 1])),
        )
    }
}
