//! What the check compares, kept.

ghost use Rattle.std.specs.Prelude.{IfOk};
ghost use Rattle.definitions.specs.Plans.Certificate.{IsCertificate};
ghost use Rattle.plan_tree.specs.Certificates.{certificate_of};
ghost use Rattle.cert_check.specs.Planned.{space_in};

use crate::views::Interest;
use crate::wanted::Wanted;
use crate::ways::are_one_state;
use cert_check::{
    Comparison, KeptComparison, Listener, StateKey, compare_accesses, compare_joins, compare_sorts,
};
use plan_texts::BlockNames;
use plan_tree::Certificate;
use planner::PlannedBlock;
use std::alloc::{AllocError, Global};

/// The comparisons of a certificate that a view asks for, and how many were heard.
#[derive(Drop)]
pub struct Ledger {
    wanted: Option<Wanted>,
    pub kept: Vec<KeptComparison>,
    pub heard: u64,
    ran_out: bool,
}

impl Listener for Ledger {
    ghost use Rattle.std.specs.Prelude.{⊤};

    ghost hears = { λ _ _ _ _. ⊤ };

    fn hear(&mut self, comparison: &Comparison<'_>) -> bool {
        self.heard = self.heard.saturating_add(1);
        if self.is_kept(comparison) && self.keep(comparison).is_err() {
            self.ran_out = true;
            return false;
        }
        true
    }
}

impl Ledger {
    /// The comparisons of a block's certificate that are of interest. It fails where memory runs out.
    pub fn of(
        alloc: Global,
        names: &BlockNames<'_>,
        planned: &PlannedBlock<'_>,
        interest: Interest<'_>,
    ) -> Result<Ledger, AllocError>
        requires { IsCertificate (space_in planned.now.own.space) (certificate_of planned.now.certificate) }
    {
        let wanted = Wanted::of(alloc, names, planned, interest)?;
        let mut ledger = Ledger {
            wanted: None,
            kept: Vec::new(alloc),
            heard: 0,
            ran_out: false,
        };
        if let Some(wanted) = wanted {
            let certificate = leading_part(alloc, planned, &wanted)?;
            ledger.wanted = Some(wanted);
            let space = &planned.own.space;
            let _ = compare_accesses(space, &certificate, &mut ledger);
            let _ = compare_joins(space, &certificate, &mut ledger);
            let _ = compare_sorts(space, &certificate, &mut ledger);
        }
        if ledger.ran_out {
            return Err(AllocError);
        }
        Ok(ledger)
    }

    fn is_kept(&self, comparison: &Comparison<'_>) -> bool {
        match &self.wanted {
            Some(wanted) => wanted.has(comparison),
            None => false,
        }
    }

    fn keep(&mut self, comparison: &Comparison<'_>) -> Result<(), AllocError> {
        let kept = KeptComparison::new(comparison)?;
        self.kept.push(kept)?;
        Ok(())
    }

    /// The first step that leads to a state at its bound.
    pub fn reaching(&self, to: StateKey) -> Option<&KeptComparison> {
        for kept in &self.kept {
            if are_one_state(kept.to, to) && kept.above() == 0 {
                return Some(kept);
            }
        }
        None
    }
}

/// A block's certificate with some of its states alone: those from which a step may lead where comparisons are kept. Those states are among
/// them, so that what is heard of it there is what is heard of the whole.
fn leading_part(
    alloc: Global,
    planned: &PlannedBlock<'_>,
    wanted: &Wanted,
) -> Result<Certificate, AllocError>
    requires { IsCertificate (space_in planned.now.own.space) (certificate_of planned.now.certificate) }
    ensures { IfOk result (λ part. IsCertificate (space_in planned.now.own.space) (certificate_of part)) }
{
    let mut states = Vec::new(alloc);
    'states: for state in &planned.certificate.states {
        if wanted.begins_at(state.tables) {
            states.push(*state)?;
        }
    }
    Ok(Certificate {
        target: planned.certificate.target,
        states,
    })
}
