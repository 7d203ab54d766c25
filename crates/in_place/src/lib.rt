// The library for hosts: one layout lent by reference, changed in place by each call (document 01: one lent ring). Each function over a lent layout loads
// it, calls the call by value, stores the layout of its answer, and returns the rest of the answer. Where the call is refused, the layout is as it came.
// The two that read a chart or a graph load nothing, and store the layout that was read: the empty one where the chart or the graph is refused.
#![tactic(auto)]

mod calls;
mod graph6_calls;
mod lists;
mod reading;
mod stores;
