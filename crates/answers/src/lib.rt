// What an answer of the account call says of the file, for every caller that reads it: laws only. No code.
#![tactic(auto)]
