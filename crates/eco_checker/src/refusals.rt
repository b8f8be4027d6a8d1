//! Refusals in words.

use eco_ids::Refusal;

// What each refusal says, by its number.
static REASONS: [(u8, &str); 24] = [
    (1, "it is nobody living"),
    (2, "it names nobody living"),
    (
        3,
        "a built-in would be changed, or would lose an id or get a mirror",
    ),
    (4, "the target of a policy is Remove, Delete or Panic"),
    (5, "the relationship has pairs already"),
    (6, "the pair would close a cycle"),
    (
        7,
        "somebody who would stay has an id that names it, under the policy Panic",
    ),
    (8, "it is no data, and has no value"),
    (9, "the value has more fields than the component"),
    (10, "somebody living has this name"),
    (11, "no name: 1 to 63 letters, digits and _, no digit first"),
    (12, "no index below the limit is left"),
    (13, "the handle is not free"),
    (14, "memory was refused"),
    (20, "it is no reference, id or query from here on"),
    (21, "nobody living has the name that begins here"),
    (
        22,
        "* and _ stand in pairs only, of plain terms and ! terms of a query",
    ),
    (23, "a query has at most 32 atoms"),
    (24, "each slot has ! or ?, so nothing has to be there"),
    (25, "there is no query of this number"),
    (
        30,
        "the access of a slot forbids what an action does with it",
    ),
    (31, "an action's slot is not there, or is a ! slot"),
    (32, "another system has this name"),
    (
        33,
        "a symmetric relationship would be exclusive, acyclic or tied to another by With",
    ),
];

/// What a refusal says, in words.
pub fn reason(refusal: &Refusal) -> &'static str {
    let number = refusal.number();
    for (known, words) in &REASONS {
        if *known == number {
            return words;
        }
    }
    ""
}
