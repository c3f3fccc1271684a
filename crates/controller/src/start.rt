// Start: what is given to the bus.
ghost use Rattle.std.specs.Prelude.{◌≡◌, ◌≤◌};
ghost use Rattle.refusals.specs.Number.{refused, outcome_in};
ghost use Rattle.controller.specs.State.{desk};
ghost use Rattle.controller.specs.Start.{started_as, order_in, with_order, start_step};

use crate::control;
use crate::state::{Controller, OpenMessage};
use card::memory;
use card::place::{Block, Cell};
use exchange::order::Order;
use formats::code;
use formats::row::Row;
use refusals::Refusal;

// What a start gives: words are named by their block and count, and shown as a part of the memory.
#[derive(Clone, Copy)]
pub struct Given {
    pub block: Block,
    pub count: u16,
}

impl Controller {
    // The message of an order is open and no longer due, and one start fewer is left.
    #[tactic(auto, unfolding(crate::specs::Start::with_order))]
    fn open(&mut self, order: Order)
        requires { 1 ≤ self.old.count }
        ensures { self.new ≡ with_order order self.old }
    {
        self.count -= 1;
        self.due = false;
        self.result = None;
        self.message = Some(OpenMessage {
            order,
            progress: None,
        });
    }

    // The order of a row: the commands are those of cells 0 and 1 now.
    fn order_in(&self, ram: &[u16], row: Row, broadcast: bool) -> Order
        ensures { result ≡ order_in row broadcast (desk self.now ram.now) }
    {
        let block = control::block(self.control);
        Order {
            row,
            broadcast,
            first: memory::read_cell(ram, block, Cell(0)),
            second: memory::read_cell(ram, block, Cell(1)),
        }
    }

    // A start, over a memory of any length: what is to be given to the bus.
    #[tactic(auto, unfolding(crate::specs::Start::start_step, crate::specs::Start::with_order))]
    pub fn begin(&mut self, ram: &[u16]) -> Result<Option<Given>, Refusal>
        ensures { started_as (refused result) (outcome_in result)
            (desk self.new ram.now)
            ≡ start_step (desk self.old ram.now) }
    {
        if !self.due || self.message.is_some() || self.count == 0 {
            return Ok(None);
        }
        let coded = code::coded_by(control::code(self.control)).ok_or(Refusal::Format)?;
        let order = self.order_in(ram, coded.row, coded.broadcast);
        self.open(order);
        Ok(Some(Given {
            block: control::block(self.control),
            count: order.format().given,
        }))
    }
}
