// A whole list of calls, run and checked: each expectation is proved from the contract of `replay::run` alone.
#![tactic(auto)]

// Ten calls, of ten words each.
const CALLS: [u64; 100] = [
    // enter 13, candidate 9, from day 5 to day 8, grade 1
    1,
    13,
    9,
    5,
    8,
    0,
    1,
    0,
    0,
    0,
    // enter 14, candidate 9, from day 5 to day 6, reading 1.0
    1,
    14,
    9,
    5,
    6,
    1,
    0x3F80_0000,
    0,
    0,
    0,
    // enter 13 once more
    1,
    13,
    7,
    1,
    9,
    0,
    2,
    0,
    0,
    0,
    // publish by rule 1
    5,
    1,
    0,
    0,
    0,
    0,
    0,
    0,
    0,
    0,
    // day 5, lent three places for numbers
    7,
    0,
    0,
    5,
    0,
    0,
    0,
    0,
    3,
    0,
    // day 5, lent one place
    7,
    0,
    0,
    5,
    0,
    0,
    0,
    0,
    1,
    0,
    // take back: 13 alone stands
    4,
    0,
    0,
    0,
    0,
    0,
    0,
    0,
    0,
    0,
    // write, lent 14 places for a text
    6,
    0,
    0,
    0,
    0,
    0,
    0,
    0,
    0,
    14,
    // take back: none stands
    4,
    0,
    0,
    0,
    0,
    0,
    0,
    0,
    0,
    0,
    // take back once more
    4,
    0,
    0,
    0,
    0,
    0,
    0,
    0,
    0,
    0,
];

fn main() {
    let nothing = [0u8; 0];
    let days = [0u16; 0];
    let mut results = [77u64; 55];
    let mut numbers = [99u16; 5];
    let mut text = [7u8; 16];
    let ran = replay::run(
        true,
        &nothing,
        &CALLS,
        &days,
        &mut results,
        &mut numbers,
        &mut text,
    );
    check::expect(ran.made == 10);
    // Accepted; taken.
    check::expect(results[0] == 0);
    check::expect(results[10] == 6);
    // Two spells on day 5, and one comparison; the third place is kept.
    check::expect(results[20] == 0);
    check::expect(results[21] == 2);
    check::expect(results[22] == 1);
    check::expect(numbers[0] == 14);
    check::expect(numbers[1] == 13);
    check::expect(numbers[2] == 99);
    // A short list, which keeps its place.
    check::expect(results[25] == 11);
    check::expect(numbers[3] == 99);
    // A text of 13 bytes, from `1` to LF; the next place is kept.
    check::expect(results[38] == 13);
    check::expect(text[0] == 49);
    check::expect(text[12] == 10);
    check::expect(text[13] == 7);
    // Taken back; no past. Beyond the last call the results keep their places.
    check::expect(results[40] == 0);
    check::expect(results[45] == 9);
    check::expect(results[50] == 77);
}
