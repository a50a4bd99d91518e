// Theorems about the spaces of justified lines, and where such a line ends (#113). Nothing here runs.
#![tactic(auto)]
