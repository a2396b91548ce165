//! Laws over the definitions alone, each the contract of a function that does nothing.

ghost use Rattle.std.specs.Prelude.{ℕ};
ghost use Rattle.pb_code.specs.Whole.{Code};
ghost use Rattle.pb_names.specs.Claims.{IsClaim};
ghost use Rattle.pb_names.specs.Program.{Process};
ghost use Rattle.pb_plan.specs.Needs.{LeastCapitalDecides};
ghost use Rattle.pb_plan.specs.Orders.{FreeCapitalPreventsDeadlocks, OrdersPreventDeadlocks};
ghost use Rattle.pb_plan.specs.Parts.{parts, weight};
ghost use Rattle.pb_plan.specs.Scarce.{OrdersOfScarcePreventDeadlocks};
ghost use Rattle.pb_plan.specs.Waiting.{AllRequestsAreGranted, FreeRequestsAreAllowed, FreeRequestsAreGranted};
ghost use Rattle.pb_verifier.specs.Verified.{IsFaultless};

/// The parts of a claim take together what the process claims: the greatest amount that a free run holds.
pub fn parts_make_up_the_claim()
    ensures { (process : Process) (r : ℕ) → IsClaim process r (weight (parts r process.body)) }
{}

/// The claims are within the capital exactly if the capital of each resource is at least the least.
pub fn least_capital_decides()
    ensures { LeastCapitalDecides }
{}

/// In a safe state a request within its claim is allowed, if of each resource that it asks for there is enough
/// for all claims at once.
pub fn free_requests_are_allowed()
    ensures { FreeRequestsAreAllowed }
{}

/// Whatever verified code comes to, a request is granted at once, if of each resource that it asks for there is
/// enough for all claims at once; so is every request, if there is enough of each resource.
pub fn free_requests_are_granted()
    ensures free { (code : Code) → IsFaultless code → FreeRequestsAreGranted code }
    ensures all { (code : Code) → IsFaultless code → AllRequestsAreGranted code }
{}

/// If every process follows an order of the resources, the program comes to no deadlock by the cash alone.
pub fn orders_prevent_deadlocks()
    ensures { OrdersPreventDeadlocks }
{}

/// If there is enough of each resource for all claims at once, the program comes to no deadlock by the cash alone.
pub fn free_capital_prevents_deadlocks()
    ensures { FreeCapitalPreventsDeadlocks }
{}

/// If every process follows an order of the resources of which there is not enough for all claims at once, the program
/// comes to no deadlock by the cash alone, whatever it asks for of the others.
pub fn orders_of_scarce_prevent_deadlocks()
    ensures { OrdersOfScarcePreventDeadlocks }
{}
