// What is demanded of the account, the panel and the governing survey stands in specs/, on one page; beside it the worked figures of document 01. No code.
#![tactic(auto)]
