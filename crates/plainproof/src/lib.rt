// The plain way to a page (request 108): what it is, and that it gives the page's images in the page's order. No code.

#![tactic(auto)]
