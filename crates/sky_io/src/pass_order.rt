//! The order in which a gate lets workers pass, and how long it holds one of them.
ghost use Rattle.std.specs.Prelude.{◌≡◌};
ghost use Rattle.sky_io.specs.PassOrders.{new_order, is_next, may_pass, after_ask, after_turn};

use std::marker::Model;

/// The numbers of workers in the order in which they pass. The k-th pass of the order is that of its k-th worker, and
/// others are held until then. After the whole order all pass. A pass is held for at most as many turns as are given.
/// When one was held for as many, the order is given up, and all pass from then on.
#[derive(Drop)]
pub struct PassOrder {
    order: Vec<u32>,
    turns: u32,
    made: usize,
    has_given_up: bool,
}

impl Model for PassOrder {
    ghost use Rattle.sky_io.specs.PassOrders.{PassState};

    ghost Value = { PassState };

    ghost view = { λ s. record {
      order = s.order.items;
      turns = s.turns;
      made = s.made;
      given_up = s.has_given_up;
    } };
}

impl PassOrder {
    /// An order of which no pass was made. Does not allocate.
    pub fn new(order: Vec<u32>, turns: u32) -> PassOrder
        ensures { result ≡ new_order order.items turns }
    {
        PassOrder {
            order,
            turns,
            made: 0,
            has_given_up: false,
        }
    }

    /// Whether a worker that was held for some turns passes now. Counts its pass, or gives the order up. Does not
    /// allocate.
    pub fn lets(&mut self, worker: u32, held: u32) -> bool
        ensures answer { result ≡ may_pass self.old worker held }
        ensures after { self.new ≡ after_ask self.old worker held }
    {
        if self.has_given_up || self.has_turn(worker) {
            return true;
        }
        self.has_given_up = held >= self.turns;
        self.has_given_up
    }

    /// Whether the order is given up.
    pub fn given_up(&self) -> bool
        ensures { result ≡ self.now.given_up }
    {
        self.has_given_up
    }

    // Whether the order names the worker next, or has come to its end. Counts the pass.
    fn has_turn(&mut self, worker: u32) -> bool
        ensures answer { result ≡ is_next self.old worker }
        ensures after { self.new ≡ after_turn self.old worker }
    {
        let Some(next) = self.order.as_slice().get(self.made) else {
            return true;
        };
        if *next != worker {
            return false;
        }
        self.made += 1;
        true
    }
}
