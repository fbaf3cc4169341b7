ghost use Rattle.reuse_chain.specs.Laws.{TapsAreThere, TapsAreOne, GapsOfLane, GapsOfAllLanes};

/// A lane has exactly one list of taps.
pub fn taps_are_unique()
    ensures there { TapsAreThere }
    ensures one { TapsAreOne }
{}

/// The gaps of one lane sum to the age in cycles of its oldest read, and those of all lanes together to the greatest
/// age, which is the storage of the tensor in cells, whatever the unroll factor.
pub fn gaps_sum_to_storage()
    ensures lane { GapsOfLane }
    ensures all { GapsOfAllLanes }
{}
