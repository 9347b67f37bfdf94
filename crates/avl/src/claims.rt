// Theorems on all trees, all orders of dates or all summaries, which belong to no one call.
// A function here computes nothing: it exists so that its contract, which is checked, names the theorem. A theorem on dates or on summaries
// is generic, since a contract can speak of every such type in no other way.
ghost use Rattle.avl.specs.Book.{Order};
ghost use Rattle.avl.specs.Claims.{FrontIsPrefix, FrontJoinsAsList, InsertBalances, InsertKeepsBook, InsertPlaces, OrderGrows, OrderIsOne, OrderStands, TreeJoinsAsList};
ghost use Rattle.avl.specs.Summary.{SummaryModel, Lawful};

// Any type whose values are ordered as dates are.
pub trait Dated {
    ghost order: { Order Self };
}

// Any type whose values sum up entries.
pub trait Summed {
    ghost model: { SummaryModel Self };

    ghost lawful: { Lawful model };
}

// An insertion puts the new slot in its place, and leaves the tree balanced.
pub fn insertion_keeps_balance_and_order()
    ensures places { InsertPlaces }
    ensures balances { InsertBalances }
{}

// The joins that a tree holds are those from left to right, of all slots and of those in front.
pub fn joins_go_from_left_to_right<S: Summed>()
    ensures whole { TreeJoinsAsList S.Summed.model }
    ensures front { FrontJoinsAsList S.Summed.model }
{}

// Book order is one list and no other, and the tree's insertion keeps to it.
pub fn book_order_is_one_list<D: Dated>()
    ensures stands { OrderStands D.Dated.order.earlier }
    ensures one { OrderIsOne D.Dated.order.earlier }
    ensures grows { OrderGrows D.Dated.order.earlier }
    ensures prefix { FrontIsPrefix D.Dated.order.earlier }
    ensures inserts { InsertKeepsBook D.Dated.order.earlier }
{}
