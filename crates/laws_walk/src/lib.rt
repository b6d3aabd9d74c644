// WALK by what it reads: lists of trees, and the first fault from the left. No code is here, only the description and the theorems that WALK
// keeps to it. Every length and offset is in bytes; depth is counted in templates, a template at the top being at depth 1.
// Proved: WALK counts n exactly if the input is the encoding of trees with n leaves and no template deeper than 4; it refuses exactly if the
// input has a first fault, and tells its kind and its place, which is one; and the templates that commands answer are encodings of trees.

#![tactic(auto)]
