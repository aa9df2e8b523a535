// Laws of an attempt (`match` of lstr_item), and no code: it goes forward, its steps are within the budget, what it can stop with, and that an accepted pattern
// raises nothing. What a trial promises follows from them.
#![tactic(auto)]
