//! Where what an actor gives goes: on at once, so that no list of it stands anywhere.

ghost use Rattle.std.specs.Prelude.{◌≡◌};
ghost use Rattle.sq_flow.specs.Causes.{fault_or};

use crate::errors::RunErr;
use crate::fed_items::FedItems;
use crate::noted::Noted;
use crate::sending::{pass_on, show_drop};
use crate::wires::Wires;
use sq_item::Item;
use sq_oper::{Decision, Event, Outlet};
use sq_outside::PageDisk;
use sq_queue::Queues;
use sq_value::{Fields, Value};
use std::alloc::{AllocError, Global};

/// The outlet of an actor: its items go into the queues of the arcs that come from it, or are shown, and its decisions are shown.
/// It keeps the fault that it met.
pub(crate) struct QueueOutlet<'a, 'b, 'c, 'd, 'e, D: PageDisk> {
    pub wires: &'a Wires,
    pub queues: &'b mut Queues,
    pub disk: &'c mut D,
    pub events: &'d mut Vec<Event>,
    pub seat: u32,
    pub failed: &'e mut Option<RunErr>,
    pub given: FedItems,
    pub noted: Noted,
}

impl<D: PageDisk> Outlet for QueueOutlet<'_, '_, '_, '_, '_, D> {
    ghost use Rattle.sq_flow.specs.QueueOutlets.{IsOpen, Came};

    ghost items = { λ s. s.given.items };

    ghost drops = { λ s. s.noted.drops };

    ghost ready = { λ s. IsOpen D.log s };

    ghost came = { λ start s. Came D.log D.faults start s };

    fn alloc(&self) -> Global {
        *self.events.allocator()
    }

    #[inline(always)]
    fn give(&mut self, port: u32, item: Item) -> Result<(), AllocError> {
        let given = self.given.with(port, &item);
        pass_on(
            self.wires,
            self.queues,
            self.disk,
            self.seat,
            port,
            item,
            self.events,
            self.failed,
        )?;
        self.given = given;
        Ok(())
    }

    #[inline(always)]
    fn let_go(&mut self, fields: Fields) {
        self.queues.spares.keep(fields);
    }

    #[inline(always)]
    fn reuse(&mut self) -> Vec<Value> {
        let alloc = self.alloc();
        self.queues.spares.reuse(alloc)
    }

    fn decide(&mut self, decision: Decision) -> Result<(), AllocError> {
        let noted = self.noted.with(&decision);
        show_drop(decision, self.events)?;
        self.noted = noted;
        Ok(())
    }
}

/// Why an operator failed: the fault that its outlet met, or want of memory.
pub(crate) fn fault_of(failed: Option<RunErr>, e: AllocError) -> RunErr
    ensures { result ≡ fault_or failed }
{
    match failed {
        Some(fault) => fault,
        None => RunErr::from(e),
    }
}
