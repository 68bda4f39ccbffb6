// The rules of document 01 over a table of words, and the theorems on them: see specs/.
#![tactic(auto)]
