//! Laws over the definitions of `specs/`, and worked examples of them.
ghost use Rattle.definitions.specs.Certificates.Laws.{SaysOneThing, SpellsOnce, SpelledIsCertificate, SpelledOrFaulty, SpelledIsFaultless, HasOneFault, BrokenHasNoForm};
ghost use Rattle.definitions.specs.Certificates.Laws.{SpelledIsWritten, WrittenIsSpelled, HasOneSpelling, ToldOnce, PassedIsLeast, FileToldOnce, WellIsLeast, ExplainedPasses, LinesAreFile, CutLosesNothing, TextIsCutOff};
ghost use Rattle.definitions.specs.Examples.Certificates.{OneTableIsSpelled, ColumnIsNamed, TwoTablesAreSpelled, OrderedIsSpelled, LoopIsSpelled, LaterPathsAreSpelled, OtherPlansAreSpelled, ProductIsSpelled};
ghost use Rattle.definitions.specs.Examples.Certificates.{FaultsOfStates, FaultsOfNumbers, FaultsOfForm, BeginningsHaveNoForm, WordsAreCounted, VersionIsPartOfForm, FilesAreCut, VersionsOfTexts};
ghost use Rattle.definitions.specs.Examples.Certificates.{RestIsRefused, EarlierSpaceIsNamed, RulesAreNamed, NothingIsRefused};

/// Bytes say one thing at most, and spell one plan and certificate at most, which is one of the block.
pub fn spelling_is_one()
    ensures says { SaysOneThing }
    ensures spells { SpellsOnce }
    ensures certificate { SpelledIsCertificate }
{}

/// What bytes spell is what is written of it, and the other way round: so a plan and a certificate have one spelling at most.
pub fn spelling_is_writing()
    ensures written { SpelledIsWritten }
    ensures spelled { WrittenIsSpelled }
    ensures one { HasOneSpelling }
{}

/// Any bytes are a spelling or have one fault, and a text that breaks off has no form.
pub fn faults_are_exact()
    ensures some { SpelledOrFaulty }
    ensures none { SpelledIsFaultless }
    ensures one { HasOneFault }
    ensures broken { BrokenHasNoForm }
{}

/// Of a block's text one thing at most is told, and where it passes its plan is least.
pub fn told_is_one()
    ensures once { ToldOnce }
    ensures least { PassedIsLeast }
{}

/// Of a file one text is printed, and where it ends well each block's plan is least; so it ends for what EXPLAIN prints.
pub fn file_is_told()
    ensures once { FileToldOnce }
    ensures least { WellIsLeast }
    ensures explained { ExplainedPasses }
{}

/// Cutting a file into texts loses nothing, and a text that stands in front is cut off as it is.
pub fn file_is_cut()
    ensures lines { LinesAreFile }
    ensures texts { CutLosesNothing }
    ensures front { TextIsCutOff }
{}

/// Texts of small blocks in the three versions.
pub fn worked_texts()
    ensures one_table { OneTableIsSpelled }
    ensures column { ColumnIsNamed }
    ensures two_tables { TwoTablesAreSpelled }
    ensures ordered { OrderedIsSpelled }
    ensures matched { LoopIsSpelled }
    ensures later { LaterPathsAreSpelled }
    ensures other_plans { OtherPlansAreSpelled }
    ensures product { ProductIsSpelled }
{}

/// Texts that have a fault, and which.
pub fn worked_faults()
    ensures states { FaultsOfStates }
    ensures numbers { FaultsOfNumbers }
    ensures form { FaultsOfForm }
    ensures beginnings { BeginningsHaveNoForm }
    ensures words { WordsAreCounted }
    ensures version { VersionIsPartOfForm }
{}

/// Files of texts, and the versions that they are read by.
pub fn worked_files()
    ensures cut { FilesAreCut }
    ensures versions { VersionsOfTexts }
{}

/// What is printed of them.
pub fn worked_lines()
    ensures rest { RestIsRefused }
    ensures space { EarlierSpaceIsNamed }
    ensures rules { RulesAreNamed }
    ensures nothing { NothingIsRefused }
{}
