// The laws of notes 10 and 2 on rule texts: an element is read from its own bytes alone, so that a rewritten or imported text is the rule
// that it should be; what the rewriter's steps keep; and that an imported rule covers what LIKE accepts. There is no code here.

#![tactic(auto)]
