// Launch files: what a file is, byte by byte, and the theorems on it: see specs/.
#![tactic(auto)]
