// Finite graphs: what a search by breadth and a search by depth give, for any graph.
#![tactic(auto)]

ghost use Rattle.graph.specs.Graph.{SpreadSpreads, SpreadIsReach, OrderOrders, SpreadOrders, TopologicalAppends, TopologicalKept, ClosedGrows};

// The theorems on both searches, which hold of every graph.
pub fn theorems()
    ensures spread { SpreadSpreads }
    ensures reach { SpreadIsReach }
    ensures order { OrderOrders }
    ensures spread_order { SpreadOrders }
    ensures appends { TopologicalAppends }
    ensures kept { TopologicalKept }
    ensures grows { ClosedGrows }
{}
