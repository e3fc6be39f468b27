// The worked examples of the format, of the definitions that the contracts cite. There is no code here.
#![tactic(auto)]
