//! States that wait for a search, by their costs: the cheapest comes first, and of those that cost the same the one found last.

ghost use Rattle.std.specs.Prelude.{◌≡◌, ◌+◌, [], length, IfSome, IfNone, OnOk};
ghost use Rattle.join_dp.specs.Waiting.{IsPut, IsTaken};

use plan_tree::Cost;
use std::alloc::{AllocError, Global};
use std::cmp::Reverse;
use std::collections::BinaryHeap;
use std::marker::Model;

/// Costs of states, with the places of their plans.
#[derive(Drop)]
pub(crate) struct Frontier {
    heap: BinaryHeap<(Reverse<u64>, usize)>,
}

impl Model for Frontier {
    ghost use Rattle.std.specs.Prelude.{ℕ, List, map};
    ghost use Rattle.std.specs.BinaryHeap.{IsHeap, heap_items};
    ghost use Rattle.std.specs.Ordering.{nat_cmp, ordering_then};
    ghost use Rattle.join_dp.specs.Waiting.{Waiting, waiting_of};

    ghost Value = { List Waiting };

    ghost view = { λ f. map waiting_of (heap_items f.heap) };

    ghost invariant = { λ f. IsHeap (λ x y. ordering_then (nat_cmp y.0.0 x.0.0) (nat_cmp x.1 y.1)) (heap_items f.heap) };
}

impl Frontier {
    /// None waits.
    pub fn new(alloc: Global) -> Frontier
        ensures { result ≡ [] }
    {
        Frontier {
            heap: BinaryHeap::new(alloc),
        }
    }

    /// Puts a state in.
    pub fn push(&mut self, cost: Cost, place: usize) -> Result<(), AllocError>
        ensures put { OnOk result (IsPut self.old (cost.number, place) self.new) }
        ensures more { OnOk result (length self.new ≡ length self.old + 1) }
    {
        self.heap.push((Reverse(cost.number), place))?;
        Ok(())
    }

    /// Takes the cheapest out.
    pub fn pop(&mut self) -> Option<(u64, usize)>
        ensures taken { IfSome result (λ one. IsTaken self.old one self.new) }
        ensures less { IfSome result (λ one. length self.new + 1 ≡ length self.old) }
        ensures none { IfNone result (self.old ≡ []) }
    {
        match self.heap.pop() {
            Some((Reverse(cost), place)) => Some((cost, place)),
            None => None,
        }
    }
}
