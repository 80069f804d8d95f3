//! A file of certificates, checked.

ghost use Rattle.std.specs.Prelude.{◌≡◌, ◌≤◌, IfOk, length, map};
ghost use Rattle.std.specs.List.{AllByRecursion};
ghost use Rattle.definitions.specs.Ended.{both_ended};
ghost use Rattle.definitions.specs.Limits.{most_blocks};
ghost use Rattle.definitions.specs.Invariant.{IsDatabase};
ghost use Rattle.definitions.specs.Binding.Formed.{IsFormedSomewhere};
ghost use Rattle.definitions.specs.Estimates.Version.{current_version};
ghost use Rattle.definitions.specs.Certificates.Explaining.{certified_from};
ghost use Rattle.definitions.specs.Certificates.File.{lines_of};
ghost use Rattle.definitions.specs.Certificates.Verdicts.{AreTold, ended_of, rest_ended};
ghost use Rattle.query_tree.specs.Bound.{block_of};
ghost use Rattle.certificate_files.specs.Judged.{AreBlocksTold};
ghost use Rattle.certificate_files.specs.Telling.{told_of, check_ended_of};

use crate::cutting::{text_end, version_in};
use crate::lines::{write_block, write_rest};
use crate::telling::{RefusedText, Told, block_told};
use catalog::Database;
use certificate::{PlanNote, Version};
use query_tree::Block;
use std::alloc::{AllocError, Global};

/// What is told of a file of certificates (own).
#[derive(Drop)]
pub struct FileTold<'a> {
    /// What is printed of it.
    pub text: Vec<u8>,
    pub ended: FileEnded,
    /// What is told of each block, in the order of their numbers.
    pub blocks: Vec<BlockTold<'a>>,
    /// Where in the file what is left behind the last text begins.
    pub rest: Option<usize>,
    /// What there is to know of the figures that the plans rest on which pass.
    pub notes: Vec<PlanNote>,
}

/// Whether every certificate passed, and nothing is left behind the last (own).
#[derive(Clone, Copy, PartialEq, Eq)]
pub enum FileEnded {
    Well,
    Refused,
}

/// What is told of the text of a block (own).
#[derive(Drop)]
pub struct BlockTold<'a> {
    /// The version of the plan space that the text speaks of.
    pub version: Version,
    /// Where in the file the text begins.
    pub start: usize,
    pub told: Told,
    /// What the text was judged in, unless it passes.
    pub refused: Option<RefusedText<'a>>,
}

/// What is told of a file of certificates for the blocks of a query (own): each block, in the order of their numbers, is checked by the
/// next text. It fails where memory runs out.
pub fn check_file<'a>(
    alloc: Global,
    database: &'a Database,
    blocks: &'a [Block],
    file: &[u8],
) -> Result<FileTold<'a>, AllocError>
    requires valid { IsDatabase database.now }
    requires formed { AllByRecursion (IsFormedSomewhere database.now) (map block_of blocks.now) }
    requires few { length blocks.now ≤ most_blocks }
    ensures told { IfOk result (λ told. AreTold current_version (certified_from database.now 0 (map block_of blocks.now))
        (lines_of file.now) told.text.items (check_ended_of told.ended)) }
    ensures blocks { IfOk result (λ told. AreBlocksTold database.now 0 (map block_of blocks.now) file.now
        (lines_of file.now) told.blocks.items) }
{
    let mut text = Vec::new(alloc);
    let mut all = Vec::new(alloc);
    let mut notes = Vec::new(alloc);
    let mut ended = FileEnded::Well;
    let mut start = 0;
    let mut number = 0;
    'texts: for block in blocks {
        let left = &file[start..];
        let end = text_end(left);
        let version = version_in(left);
        let own = &left[..end];
        let judged = block_told(alloc, database, block, number, version, own, &mut notes)?;
        let told = judged.told;
        all.push(BlockTold {
            version,
            start,
            told,
            refused: judged.refused,
        })?;
        write_block(&mut text, number, version, told)?;
        ended = with_block(ended, told);
        start += end;
        number += 1;
    }
    let left = &file[start..];
    write_rest(&mut text, left)?;
    Ok(FileTold {
        text,
        ended: with_rest(ended, left),
        blocks: all,
        rest: if left.is_empty() { None } else { Some(start) },
        notes,
    })
}

/// How a run ends, after one more block.
fn with_block(ended: FileEnded, told: Told) -> FileEnded
    ensures { check_ended_of result ≡ both_ended (check_ended_of ended) (ended_of (told_of told)) }
{
    match told {
        Told::Passes => ended,
        Told::Fails { .. } | Told::Faulty(_) => FileEnded::Refused,
    }
}

/// How it ends, with what is left.
fn with_rest(ended: FileEnded, left: &[u8]) -> FileEnded
    ensures { check_ended_of result ≡ both_ended (check_ended_of ended) (rest_ended (lines_of left.now)) }
{
    if left.is_empty() {
        ended
    } else {
        FileEnded::Refused
    }
}
