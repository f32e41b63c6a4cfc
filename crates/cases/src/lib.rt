// The ten starred sequences of document 01, computed by the checker from the definitions: specs/Starred.antt. No code.

#![tactic(auto)]
