// Theorems about the definitions of `meaning`. Nothing here runs.
#![tactic(auto)]
