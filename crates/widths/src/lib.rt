// Theorems about box widths: which of them give a text the same lines, and which a search may pass over. Nothing here runs.
#![tactic(auto)]
