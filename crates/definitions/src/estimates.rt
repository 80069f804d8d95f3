//! What the optimiser takes a block to cost: laws over the definitions of `specs/Estimates`, and worked examples of them.
ghost use Rattle.definitions.specs.Estimates.Laws.{SpaceIsComplete, FormedBlocksHavePlans, PathOrderIsNumbered, EstimatesStayBelow, TargetSuffices};
ghost use Rattle.definitions.specs.Examples.Estimates.Paths.{MatchIsCheapest, UniqueMatchCosts, UniqueMatchLoses, AllButOneKey};
ghost use Rattle.definitions.specs.Examples.Estimates.Paths.{RangeIsAPart, BetweenIsAPart, EitherIsLessThanBoth, LateLeavesAll};
ghost use Rattle.definitions.specs.Examples.Estimates.Paths.{BufferHoldsTheShare, TargetsOfOneIndex, OtherTargetsAreRefused};
ghost use Rattle.definitions.specs.Examples.Estimates.Shares.{EqualShares, RangeShares, ListShares, NullAndPatternShares, ConnectedShares};
ghost use Rattle.definitions.specs.Examples.Estimates.Shares.{DrawnIntoRange, CutToScale, OneKeyIsNoRange, NotLeavesTheRest};
ghost use Rattle.definitions.specs.Examples.Estimates.TwoColumns.{TwoColumnsMatch, SecondNeedsFirst, RangeEndsMatch, KeysDecideShare};
ghost use Rattle.definitions.specs.Examples.Estimates.TwoColumns.{TargetsOfTwoColumns, BackwardGivesDescending, FirstVersionSorts};
ghost use Rattle.definitions.specs.Examples.Estimates.Orders.{RequiredOrders, IndexOrders};
ghost use Rattle.definitions.specs.Examples.Estimates.Joins.{JoinEstimates, AppliedOnce, JoinCosts, JoinOrders, KeyJoinCosts};
ghost use Rattle.definitions.specs.Examples.Estimates.Joins.{JoinIsCertified, OrderedIsCertified, KeyJoinIsCertified, HigherBoundsAreRefused};
ghost use Rattle.definitions.specs.Examples.Estimates.Products.{ProductPays, TargetsOfProducts, ProductIsCertified};
ghost use Rattle.definitions.specs.Examples.Estimates.Products.{LateProductsCostMore, ClassesNeedTheirTables};

/// The space of a block is complete in each version, and so that of every well-formed block with a table.
pub fn space_is_complete()
    ensures complete { SpaceIsComplete }
    ensures formed { FormedBlocksHavePlans }
{}

/// The order of each path has its number.
pub fn path_order_is_numbered()
    ensures { PathOrderIsNumbered }
{}

/// Shares are at most the whole, and estimates at most the limit.
pub fn estimates_stay_below()
    ensures { EstimatesStayBelow }
{}

/// Where no access costs less than a plan, its cost alone certifies that it is least.
pub fn target_suffices()
    ensures { TargetSuffices }
{}

/// One table with an index: what its paths cost.
pub fn paths_of_one_table()
    ensures matched { MatchIsCheapest }
    ensures unique { UniqueMatchCosts }
    ensures small { UniqueMatchLoses }
    ensures unmatched { AllButOneKey }
    ensures range { RangeIsAPart }
    ensures between { BetweenIsAPart }
    ensures either { EitherIsLessThanBoth }
    ensures late { LateLeavesAll }
    ensures buffer { BufferHoldsTheShare }
{}

/// The shares that comparisons, ranges, lists, patterns and connectives leave.
pub fn shares_of_conditions()
    ensures equal { EqualShares }
    ensures range { RangeShares }
    ensures list { ListShares }
    ensures null { NullAndPatternShares }
    ensures connected { ConnectedShares }
    ensures drawn { DrawnIntoRange }
    ensures cut { CutToScale }
    ensures one_key { OneKeyIsNoRange }
    ensures not { NotLeavesTheRest }
{}

/// An index on two columns, forward and backward.
pub fn paths_by_two_columns()
    ensures two_columns { TwoColumnsMatch }
    ensures second { SecondNeedsFirst }
    ensures range { RangeEndsMatch }
    ensures keys { KeysDecideShare }
{}

/// What blocks ask for, and the orders by number.
pub fn orders_of_blocks()
    ensures required { RequiredOrders }
    ensures numbered { IndexOrders }
{}

/// Two tables: rows, sorts, orders and joins; and a product that pays.
pub fn estimates_of_joins()
    ensures statistics { JoinEstimates }
    ensures once { AppliedOnce }
    ensures costs { JoinCosts }
    ensures orders { JoinOrders }
    ensures key { KeyJoinCosts }
    ensures product { ProductPays }
{}

/// Blocks over one table, or over a product without a conjunct: the least costs, and what is refused.
pub fn targets_alone()
    ensures one_index { TargetsOfOneIndex }
    ensures two_columns { TargetsOfTwoColumns }
    ensures backward { BackwardGivesDescending }
    ensures products { TargetsOfProducts }
    ensures refused { OtherTargetsAreRefused }
{}

/// Joins of two and three tables with the certificates by which they are least.
pub fn certified_joins()
    ensures unordered { JoinIsCertified }
    ensures ordered { OrderedIsCertified }
    ensures key { KeyJoinIsCertified }
    ensures refused { HigherBoundsAreRefused }
    ensures product { ProductIsCertified }
    ensures late { LateProductsCostMore }
{}

/// What is least in the first version need not be so in the second.
pub fn versions_differ()
    ensures { FirstVersionSorts }
{}

/// Columns are of one class where the tables of their conjuncts are there.
pub fn classes_need_their_tables()
    ensures { ClassesNeedTheirTables }
{}
