// Launch files: the term that a file is, how it is spelt, and the theorems that the texts taken are these: see specs/.
#![tactic(auto)]
