// No code: document 01's starred cases and others, computed by the definitions that the contracts of the entries name; and demand 1, one statement over
// all functions of include/luck.h and one over the lines of `bodies` (specs/Promised.antt).
#![tactic(auto)]
