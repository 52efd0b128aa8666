// Demand 3 and note 2 about calls as they were made: what the contracts of the public calls come to together. There is no code here.

#![tactic(auto)]
