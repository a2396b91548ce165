//! Laws over the definitions of the bank, each the contract of a function that does nothing.

ghost use Rattle.pb_banker.specs.Askers.{AskerIsEnough, PlaceIsEnough};
ghost use Rattle.pb_banker.specs.Changes.{MoreCapitalStaysSafe, MoreCapitalAllowsMore, MoreCapitalIsAllowed};
ghost use Rattle.pb_banker.specs.Claims.{FewerClaimsStaySafe, SmallerClaimIsAllowed};
ghost use Rattle.pb_banker.specs.Jobs.{NewcomersStaySafe};

/// A newcomer whose claims are within the capital keeps the state well-formed and safe.
pub fn newcomers_stay_safe()
    ensures { NewcomersStaySafe }
{}

/// After a loan those who fit in turn until the asker does can be first, and all others stay as they were.
pub fn asker_is_enough()
    ensures { AskerIsEnough }
{}

/// After a loan an order stays one in which all finish if those before the asker fit by each resource of which
/// something was lent.
pub fn place_is_enough()
    ensures { PlaceIsEnough }
{}

/// With more capital of a resource an order in which all finish stays one.
pub fn more_capital_stays_safe()
    ensures { MoreCapitalStaysSafe }
{}

/// With more capital of a resource whatever was allowed is.
pub fn more_capital_allows_more()
    ensures { MoreCapitalAllowsMore }
{}

/// More capital of a resource is always allowed in a safe state.
pub fn more_capital_is_allowed()
    ensures { MoreCapitalIsAllowed }
{}

/// With a smaller claim of a process an order in which all finish stays one.
pub fn fewer_claims_stay_safe()
    ensures { FewerClaimsStaySafe }
{}

/// A smaller claim of a process is always allowed in a safe state.
pub fn smaller_claim_is_allowed()
    ensures { SmallerClaimIsAllowed }
{}
