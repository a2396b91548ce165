//! Laws of circular waits, each the contract of a function that does nothing.

ghost use Rattle.pb_circles.specs.Deadlocks.{DeadlocksHaveCircles};

/// In each deadlock that verified code reaches under either lending some processes wait in a circle.
pub fn deadlocks_have_circles()
    ensures { DeadlocksHaveCircles }
{}
