// What a refusal means, for a person who asks. The sentences are those of `bg_refusal_text` in include/brassgroat.h and
// of the Rust crate, to the letter: face/test compares them. By number, as a person types it: 14
// has no case of Refusal.
pub fn meaning(refusal: u64) -> &'static str {
    match refusal {
        1 => {
            "the table's length is 0 or above 65,536 (a start and a gamma curve need 2 at least; a curv tag, a \
                verdict and lut_interp_linear take 0 as well): use a length within these bounds"
        }
        2 =>
            "the table is not nondecreasing, as an entry is below the one before it: put its entries in order",
        3 => {
            "the index is beyond the table, or the gamma lookup's input is at or above its number of inputs: give an \
                index below the table's length, or an input below that number"
        }
        4 => {
            "the nudged entry would be below its left or above its right neighbour: give a density from the left \
                neighbour's to the right one's, or nudge those first"
        }
        5 => {
            "the density is above the table's last entry, so that no position reaches it: ask for one that is not \
                above the last entry"
        }
        6 =>
            "the output buffer is not exactly as long as needed: lend one of the length that the call asks for",
        7 => "a parametric curve cannot have this number of parameters: give it 1, 3, 4, 5 or 7",
        8 => {
            "the tag has fewer than 12 bytes, or not the total length that its count or function type asks for: give \
                the whole tag, and no byte more"
        }
        9 => "the tag has another signature: read it by the call for its kind of tag",
        10 =>
            "a reserved byte of the tag is not zero, so the tag is damaged or of another kind: get a sound one",
        11 =>
            "the function type is above 4: use one of the types 0 to 4, which are all that ICC.1 has",
        12 => {
            "the gamma lookup's number of inputs is outside 2 to 65,536 or its depth outside 1 to 16, or the length \
                of an inverted or a passthrough table is outside 2 to 65,536: give a number within its range"
        }
        13 => "the input of lut_interp_linear is a NaN, below 0 or above 1: give one from 0 to 1",
        14 =>
            "a number that no call of this version gives: see the header of the archive that gave it",
        15 =>
            "the log is full, as 63 nudges stand in it: take one back, or start or accept anew, which empties it",
        16 => "there is nothing to take back, as no nudge stands in the log: nudge first",
        17 => {
            "the log's count is above 63, or on a take-back its last nudge does not go with the table (a damaged \
                log, another table, or a table changed by other means): lend this table's own log, or start or \
                accept anew, which empties the log"
        }
        18 => {
            "the gamma curve's exponent is 0 or above 4: give 1 to 262,144 in 65536ths, or by a gamma tag's entry 1 \
                to 1,024 in 256ths"
        }
        _ => "no refusal has this number",
    }
}
