//! Laws of lists. Each function has an empty body; its contract is the law.
ghost use Rattle.lists.specs.Rising.{CountedListsExist, CountsDetermine};

/// A list in strict order is determined by how often each item stands in it.
pub fn counts_determine<T: Ord>()
    ensures { CountsDetermine T.cmp }
{}

/// The items of a list that stand there a number of times that passes a test form a list in strict order, each once.
pub fn counted_lists_exist<T: Ord>()
    ensures { CountedListsExist T.cmp }
{}
