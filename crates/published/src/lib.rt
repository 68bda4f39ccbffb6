// The published semantics of documents 000 and 001, and the theorems that join it to the library's: see specs/.
#![tactic(auto)]
