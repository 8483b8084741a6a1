//! What holds of all sums, as contracts of functions that do nothing.
ghost use Rattle.linear.specs.Laws.{Plus, Factor, Swapped, Order, Size};
ghost use Rattle.linear.specs.Ranges.{Ranges, AllSmall};

/// The laws of sums.
pub fn sum_laws()
    ensures plus { Plus }
    ensures factor { Factor }
    ensures swapped { Swapped }
    ensures order { Order }
    ensures size { Size }
{}

/// Every sum that the checker forms is less than 2 to the 62 in size.
pub fn sums_fit()
    ensures { (r : Ranges) → AllSmall r }
{}
