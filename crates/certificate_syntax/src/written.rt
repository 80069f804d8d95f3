//! What texts of certificates say. Numbers stand here as they are written; what they mean hangs on the block.

/// A path as it is written.
#[derive(Drop)]
pub enum WrittenPath {
    /// `SEG t`
    Segment {
        table: u64,
    },
    /// `IDX t.i`, with ` BACK` or without
    Index {
        table: u64,
        index: u64,
        backward: bool,
    },
    /// `MATCH t.i/g/..`, with ` BACK` or without
    Match {
        table: u64,
        index: u64,
        conjuncts: Vec<u64>,
        backward: bool,
    },
}

/// A plan as it is written.
#[derive(Drop)]
pub enum WrittenPlan {
    /// `ACCESS(path)`
    Access(WrittenPath),
    /// `LOOP(plan,path)`
    Loop {
        outer: Box<WrittenPlan>,
        path: WrittenPath,
    },
    /// `MERGE(plan,g,path)`, or with `SORTED path`
    Merge {
        outer: Box<WrittenPlan>,
        conjunct: u64,
        sorted: bool,
        path: WrittenPath,
    },
    /// `SORT(plan,k)`
    Sort {
        input: Box<WrittenPlan>,
        order: u64,
    },
}

/// A state as it is written.
#[derive(Clone, Copy)]
pub struct WrittenState {
    pub tables: u64,
    pub order: u64,
    pub cost: u64,
}

/// What a text says, with the numbers that stand there, whatever block it is of.
#[derive(Drop)]
pub struct Written {
    pub block: u64,
    pub plan: WrittenPlan,
    pub target: u64,
    pub states: Vec<WrittenState>,
}
