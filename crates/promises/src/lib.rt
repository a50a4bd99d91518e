// Promises about the contracts of the public calls. Nothing here runs.
#![tactic(auto)]
