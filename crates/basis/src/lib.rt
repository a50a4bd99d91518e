// Laws of choosing and counting, which every crate shares. Nothing here runs, and nothing knows of text.
#![tactic(auto)]
