//! Ranks.
ghost use Rattle.plane_lists.specs.Lists.RankLaws.{RanksAreFirstNumbers, EvenRanksAreHalf};

/// In a strict total order on a list without repeats the ranks are 0, 1, .., each once.
///
/// So the sum of (-1)^rank is the length modulo 2.
pub fn ranks_are_first_numbers<T>()
    ensures numbers { RanksAreFirstNumbers T }
    ensures halves { EvenRanksAreHalf T }
{}
