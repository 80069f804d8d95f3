//! Steps, states and plans that texts are refused for, by the names of their script.

use certificate::BlockSpace;
use certificate_files::{Comparison, StateKey};
use plan_texts::{BlockNames, outside};
use plan_tree::Plan;
use std::alloc::Global;

/// What names a block's tables, and memory for texts of them. Where memory runs out nothing is named.
#[derive(Clone, Copy)]
pub(crate) struct Naming<'n, 'a> {
    pub alloc: Global,
    pub names: &'n BlockNames<'a>,
}

impl Naming<'_, '_> {
    /// `a loop over all of O leads from C in no order to C, O in no order`.
    pub fn step(self, own: &BlockSpace<'_>, failing: &Comparison<'_>) -> Option<String> {
        let orders = own.space.orders();
        let step = self.names.step(orders, failing.step);
        let to = self
            .names
            .state(orders, failing.to.tables, failing.to.order);
        let named = match failing.from {
            Some(from) => {
                let from = self.names.state(orders, from.tables, from.order);
                format!(in self.alloc; "{step} leads from {from} to {to}")
            }
            None => format!(in self.alloc; "{step} leads to {to}"),
        };
        named.ok()
    }

    /// `C, O in order of O.ODATE`.
    pub fn state(self, own: &BlockSpace<'_>, place: StateKey) -> Option<String> {
        let state = self
            .names
            .state(own.space.orders(), place.tables, place.order);
        format!(in self.alloc; "{state}").ok()
    }

    /// Why a plan is none of the plan space, or what it is and which rows it gives.
    pub fn plan(self, own: &BlockSpace<'_>, plan: &Option<Plan>) -> Option<String> {
        let plan = plan.as_ref()?;
        let orders = own.space.orders();
        let named = match own.space.summary(plan) {
            Some(found) => {
                let plan = self.names.plan(orders, plan);
                let state = self.names.state(orders, found.tables, found.order);
                format!(in self.alloc; "the plan is {plan}, and gives {state}")
            }
            None => {
                let reason = outside(self.names, own, plan)?;
                format!(in self.alloc; "{reason}")
            }
        };
        named.ok()
    }
}
