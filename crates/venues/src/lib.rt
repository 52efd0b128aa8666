#![tactic(auto)]

// Note 13 about calls as they were made: a host that reads eight feeds in turns. There is no code here.
