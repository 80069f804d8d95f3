//! What is told of the text of one block.

ghost use Rattle.std.specs.Prelude.{ℕ, ◌≡◌, List, IfOk, option_map};
ghost use Rattle.definitions.specs.Invariant.{IsDatabase};
ghost use Rattle.definitions.specs.Binding.Formed.{IsFormedSomewhere};
ghost use Rattle.definitions.specs.Plans.Certificate.{IsCertificate};
ghost use Rattle.definitions.specs.Plans.Checking.{IsVerdict};
ghost use Rattle.definitions.specs.Plans.Plan as spec;
ghost use Rattle.definitions.specs.Certificates.CertifiedBlock.{CertifiedBlock};
ghost use Rattle.definitions.specs.Certificates.Explaining.{certified};
ghost use Rattle.definitions.specs.Certificates.Verdicts.{IsTextVerdict};
ghost use Rattle.query_tree.specs.Bound.{block_of};
ghost use Rattle.plan_tree.specs.Certificates.{certificate_of};
ghost use Rattle.certificate.specs.Reads.{HasTextFault, IsRead};
ghost use Rattle.certificate.specs.Spaces.{IsBlockSpace};
ghost use Rattle.cert_check.specs.Compared.{IsFirstBelow};
ghost use Rattle.cert_check.specs.Comparisons.{kept_comparison_of};
ghost use Rattle.cert_check.specs.Verdicts.{below_of, verdict_of};
ghost use Rattle.plan_tree.specs.Versions.{version_of};
ghost use Rattle.certificate.specs.Planned.{space_in};
ghost use Rattle.certificate_files.specs.Judged.{IsKeptOf};
ghost use Rattle.certificate_files.specs.Telling.{StandsFor, IsToldBy, IsOfText, failing_of, judgement_told, told_of};

use catalog::Database;
use cert_check::{KeptComparison, Rule, StateKey, Verdict, check, check_outside};
use certificate::{BlockSpace, PlanNote, Space, Spelled, TextFault, Version, read_text};
use plan_tree::Cost;
use query_tree::Block;
use std::alloc::{AllocError, Global};

/// What is told of the text of a block (own).
#[derive(Clone, Copy)]
pub enum Told {
    /// It spells a plan and a certificate that shows that the plan is least.
    Passes,
    /// It spells them, and this rule is the first that fails, at this state.
    Fails { rule: Rule, place: StateKey },
    /// It spells none. The fault is never want of memory.
    Faulty(TextFault),
}

/// What a text that is refused was judged in (own).
#[derive(Drop)]
pub struct RefusedText<'a> {
    pub own: BlockSpace<'a>,
    /// What it spells, unless it has a fault.
    pub spelled: Option<Spelled>,
    /// The first comparison that fails of it, if one does.
    pub failing: Option<KeptComparison>,
}

/// What is told of a text, and what it was judged in unless it passes.
#[derive(Drop)]
pub(crate) struct TextTold<'a> {
    pub told: Told,
    pub refused: Option<RefusedText<'a>>,
}

/// What is told of what a text spells: that it passes, or the first rule that fails and the state there, with the comparison that fails,
/// unless the plan is none of the space.
#[derive(Drop)]
enum Judgement {
    Passes,
    Fails {
        rule: Rule,
        place: StateKey,
        failing: Option<KeptComparison>,
    },
}

/// What is told of the text of the block of a number, in a version of its plan space (own). Where it passes, what there is to know of it
/// is added to the notes. It fails where memory runs out.
pub(crate) fn block_told<'a>(
    alloc: Global,
    database: &'a Database,
    block: &'a Block,
    number: u64,
    version: Version,
    bytes: &[u8],
    notes: &mut Vec<PlanNote>,
) -> Result<TextTold<'a>, AllocError>
    requires valid { IsDatabase database.now }
    requires formed { IsFormedSomewhere database.now (block_of block.now) }
    ensures told { IfOk result (λ text. IsTextVerdict (certified database.now number (block_of block.now)
        (version_of version)) bytes.now (told_of text.told)) }
    ensures text { IfOk result (λ text. IsOfText text.told) }
    ensures kept { IfOk result (λ text. IsKeptOf (certified database.now number (block_of block.now)
        (version_of version)) bytes.now text.told text.refused) }
{
    let own = BlockSpace::new(alloc, database, block, number, version)?;
    match read_text(alloc, &own.certified_block(), bytes) {
        Ok(spelled) => {
            let judged = spelled_told(&own.space, &spelled)?;
            add_notes(alloc, notes, &own, &spelled, &judged);
            Ok(with_text(judged, own, spelled))
        }
        Err(fault) => {
            let told = fault_told(fault)?;
            Ok(TextTold {
                told,
                refused: Some(RefusedText {
                    own,
                    spelled: None,
                    failing: None,
                }),
            })
        }
    }
}

/// What is told of what a text spells, with what it was judged in unless it passes.
fn with_text<'a>(judged: Judgement, own: BlockSpace<'a>, spelled: Spelled) -> TextTold<'a>
    ensures told { result.told ≡ judgement_told judged }
    ensures kept { (block : CertifiedBlock) (bytes : List ℕ) → IsBlockSpace block own.entry → IsRead block bytes spelled →
        IsFirstBelow (space_in own.entry.space) (certificate_of spelled.certificate)
        (option_map kept_comparison_of (failing_of judged)) → IsKeptOf block bytes result.told result.refused }
{
    match judged {
        Judgement::Passes => TextTold {
            told: Told::Passes,
            refused: None,
        },
        Judgement::Fails {
            rule,
            place,
            failing,
        } => TextTold {
            told: Told::Fails { rule, place },
            refused: Some(RefusedText {
                own,
                spelled: Some(spelled),
                failing,
            }),
        },
    }
}

/// Adds what there is to know of the figures that a plan rests on, if its text passes.
fn add_notes(
    alloc: Global,
    notes: &mut Vec<PlanNote>,
    own: &BlockSpace<'_>,
    spelled: &Spelled,
    judged: &Judgement,
) {
    if let Judgement::Passes = judged {
        let least = Cost::of(u128::from(spelled.certificate.target));
        own.space
            .add_notes(alloc, notes, own.number as usize, least);
    }
}

/// What is told of a text that has a fault.
fn fault_told(fault: TextFault) -> Result<Told, AllocError>
    ensures told { (block : CertifiedBlock) (bytes : List ℕ) → HasTextFault block bytes fault →
        IfOk result (λ told. IsTextVerdict block bytes (told_of told)) }
    ensures faulty { IfOk result (λ told. told ≡ Told.Faulty fault) }
    ensures text { IfOk result IsOfText }
{
    match fault {
        TextFault::Form { .. } | TextFault::Missing(_) | TextFault::States(_) => {
            Ok(Told::Faulty(fault))
        }
        TextFault::Memory => Err(AllocError),
    }
}

/// What is told of what a text spells.
fn spelled_told(space: &Space<'_>, spelled: &Spelled) -> Result<Judgement, AllocError>
    requires { IsCertificate (space_in space.now) (certificate_of spelled.now.certificate) }
    ensures told { IfOk result (λ judged. (plan : spec.Plan) → StandsFor (space_in space.now) plan spelled.now.plan →
        IsToldBy (space_in space.now) plan (certificate_of spelled.now.certificate) (told_of (judgement_told judged))) }
    ensures first { IfOk result (λ judged. IsFirstBelow (space_in space.now) (certificate_of spelled.now.certificate)
        (option_map kept_comparison_of (failing_of judged))) }
{
    match verdict_on(space, spelled) {
        Verdict::Pass => Ok(Judgement::Passes),
        Verdict::Below(failing) => Ok(Judgement::Fails {
            rule: failing.rule(),
            place: failing.place(),
            failing: Some(KeptComparison::new(&failing)?),
        }),
        Verdict::Unmet(place) => Ok(Judgement::Fails {
            rule: Rule::Target,
            place,
            failing: None,
        }),
    }
}

/// The verdict on it.
fn verdict_on<'a>(space: &'a Space<'_>, spelled: &Spelled) -> Verdict<'a>
    requires { IsCertificate (space_in space.now) (certificate_of spelled.now.certificate) }
    ensures verdict { (plan : spec.Plan) → StandsFor (space_in space.now) plan spelled.now.plan →
        IsVerdict (space_in space.now) (certificate_of spelled.now.certificate) plan (verdict_of result) }
    ensures first { IsFirstBelow (space_in space.now) (certificate_of spelled.now.certificate) (below_of result) }
{
    match &spelled.plan {
        Some(plan) => check(space, plan, &spelled.certificate),
        None => check_outside(space, &spelled.certificate),
    }
}
