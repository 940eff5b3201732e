// The buffer of which calls are lent a part.
ghost use Rattle.std.specs.Prelude.{◌≤◌};

// What stands in the buffer before a call. No record has such words: they are no kinds of records,
// and their low 10 bits are not clear.
pub(crate) const FILLED: [i32; 20] = [
    1701, 1702, 1703, 1704, 1705, 1706, 1707, 1708, 1709, 1710, -1, -2, -3, -4, -5, -6, -7, -8, -9,
    -10,
];

// From `at` on: a count and so many words, which are to stand in the buffer from place 3 on. Every
// other word is to be as it was.
pub(crate) fn expected(row: &[i32], at: usize) -> [i32; 20]
    requires { at ≤ 1000 }
{
    let mut words = FILLED;
    for i in 0..test_tables::count(row, at, 16) {
        words[3 + i] = test_tables::number(row, at + 1 + i);
    }
    words
}
