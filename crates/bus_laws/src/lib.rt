#![tactic(auto)]
// Laws of the calls from C, in specs/: what their bytes say, which of them a call changes, and what two calls in turn come to.
